//! The definitions that stand before a file.

use std::alloc::{AllocError, Global};

/// What is always defined (C11, 6.10.8; gcc's `__ASSEMBLER__`).
const ALWAYS: &[u8] = b"#define __STDC__ 1\n#define __STDC_HOSTED__ 1\n#define __ASSEMBLER__ 1\n";

/// Puts one definition as a directive: the first `=` is the gap before its body.
fn put_define(text: &mut Vec<u8>, define: &[u8]) -> Result<(), AllocError> {
    text.extend_from_slice(b"#define ")?;
    let mut named = true;
    for c in define {
        let ends_name = named && *c == b'=';
        named = named && !ends_name;
        text.push(if ends_name || *c == b'\n' { b' ' } else { *c })?;
    }
    if named {
        text.extend_from_slice(b" 1")?;
    }
    text.push(b'\n')?;
    Ok(())
}

/// The text of definitions.
pub(crate) fn definitions(alloc: Global, defines: &[&str]) -> Result<Vec<u8>, AllocError> {
    let mut text = Vec::from_slice(alloc, ALWAYS)?;
    for define in defines {
        put_define(&mut text, define.as_bytes())?;
    }
    Ok(text)
}
