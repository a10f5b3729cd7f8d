//! Files by their names.

use dt_text::include::{Files, Found};
use std::alloc::{AllocError, Global};

/// Files that are found under their names, whatever names them; `own` is found anywhere, and holds the path beside which that was.
#[derive(Clone, Copy)]
pub struct Shelf;

const FILES: &[(&str, &[u8])] = &[
    ("self", b"\n\t/include/ \"self\""),
    ("low", b"x;\n/* /include/ */ /include/ \"gone\"\n"),
    ("marked", b"\n# 9 \"m.dts\"\n\n /include/ =\n"),
    ("one", b"y;\n"),
    ("two", b"/include/ \"one\"z = /incbin/(\"own\");"),
    ("bin", b"\x00\"\xff"),
    ("empty", b""),
    ("string", b"y;\np = \"a"),
    ("character", b"<'"),
    ("comment", b"/* a */ /* b\n"),
    ("behind", b"/include/ \"one\" \""),
    ("line", b"y; // a"),
];

/// The file whose bytes are the path of the file that names it.
const OWN: &[u8] = b"own";

impl Files for Shelf {
    ghost finds = { λ beside name found. Unit {0} };

    ghost lacks = { λ beside name. Unit {0} };

    fn find(
        &mut self,
        alloc: Global,
        beside: &[u8],
        name: &[u8],
    ) -> Result<Option<Found>, AllocError> {
        if name == OWN {
            return Ok(Some(found(alloc, name, beside)?));
        }
        for (path, bytes) in FILES {
            if path.as_bytes() == name {
                return Ok(Some(found(alloc, name, *bytes)?));
            }
        }
        Ok(None)
    }
}

fn found(alloc: Global, path: &[u8], bytes: &[u8]) -> Result<Found, AllocError> {
    Ok(Found {
        path: Vec::from_slice(alloc, path)?,
        bytes: Vec::from_slice(alloc, bytes)?,
    })
}
