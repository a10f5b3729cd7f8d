//! Which files a command read, and the rule of make that names them.
ghost use Rattle.std.specs.Prelude.{◌≡◌, ◌++◌, IfOk, OnOk, map};
ghost use Rattle.dtman_host.specs.Dependencies.{escaped, escaped_byte, listed, rule_of};

use std::alloc::{AllocError, Global};

/// The files that were read, of which the one of this name is the first.
pub fn first_read(alloc: Global, name: &str) -> Result<Vec<Vec<u8>>, AllocError> {
    let mut files = Vec::new(alloc);
    files.push(Vec::from_slice(alloc, name.as_bytes())?)?;
    Ok(files)
}

// Make takes a name apart at spaces that have no backslash.
fn add_byte(line: &mut Vec<u8>, byte: u8) -> Result<(), AllocError>
    ensures { OnOk result (line.new.items ≡ line.old.items ++ escaped_byte byte) }
{
    if byte == b' ' {
        return line.extend_from_slice(b"\\ ");
    }
    line.extend_from_slice(&[byte])
}

fn add_path(line: &mut Vec<u8>, path: &[u8]) -> Result<(), AllocError>
    ensures { OnOk result (line.new.items ≡ line.old.items ++ escaped path.now) }
{
    for byte in path {
        add_byte(line, *byte)?;
    }
    Ok(())
}

fn add_all(line: &mut Vec<u8>, files: &[Vec<u8>]) -> Result<(), AllocError>
    ensures { OnOk result (line.new.items ≡ line.old.items ++ listed (map (λ file. file.items) files.now)) }
{
    for file in files {
        line.extend_from_slice(b" ")?;
        add_path(line, file.as_slice())?;
    }
    Ok(())
}

/// `OUT: FILE ..` for make, in one line, as dtc's `-d` writes it.
pub fn dependency_rule(alloc: Global, out: &str, files: &[Vec<u8>]) -> Result<Vec<u8>, AllocError>
    ensures { IfOk result (λ rule. rule.items ≡ rule_of out.now (map (λ file. file.items) files.now)) }
{
    let mut line = Vec::new(alloc);
    add_path(&mut line, out.as_bytes())?;
    line.extend_from_slice(b":")?;
    add_all(&mut line, files)?;
    line.extend_from_slice(b"\n")?;
    Ok(line)
}
