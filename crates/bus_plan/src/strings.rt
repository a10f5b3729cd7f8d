//! Lists of strings by which drivers and devices match.
ghost use Rattle.std.specs.Prelude.{◌≡◌, ◌++◌, IfOk, OnOk};
ghost use Rattle.std.specs.List.{list_all};
ghost use Rattle.bus_plan.specs.Plan.{is_compatible, is_string_byte};

use crate::fields::Fields;
use dt_tree::Bytes;
use std::alloc::{AllocError, Global};

fn is_string_byte(byte: u8) -> bool
    ensures { result ≡ is_string_byte byte }
{
    b'!' <= byte && byte <= b'~'
}

fn are_string_bytes(bytes: &[u8]) -> bool
    ensures { result ≡ list_all is_string_byte bytes.now }
{
    bytes.iter().all(|byte| is_string_byte(*byte))
}

/// Whether a driver may list the string: it isn't empty, and its bytes are printing characters of ASCII but no spaces.
pub fn is_compatible(string: &[u8]) -> bool
    ensures { result ≡ is_compatible string.now }
{
    !string.is_empty() && are_string_bytes(string)
}

fn add_fields(alloc: Global, copies: &mut Vec<Bytes>, strings: Fields<'_>) -> Result<(), AllocError>
    ensures { OnOk result (copies.new.items ≡ copies.old.items ++ strings.entry) }
{
    for string in strings {
        copies.push(Bytes::from_vec(Vec::from_slice(alloc, string)?))?;
    }
    Ok(())
}

/// The fields that are left of a line, each copied.
pub fn copy_fields(alloc: Global, strings: Fields<'_>) -> Result<Vec<Bytes>, AllocError>
    ensures { IfOk result (λ copies. copies.items ≡ strings.entry) }
{
    let mut copies = Vec::new(alloc);
    add_fields(alloc, &mut copies, strings)?;
    copies.shrink_to_fit();
    Ok(copies)
}

/// Equal strings.
pub fn copy_strings(alloc: Global, strings: &[Bytes]) -> Result<Vec<Bytes>, AllocError>
    ensures { IfOk result (λ copies. copies.items ≡ strings.now) }
{
    let mut copies = Vec::with_capacity(alloc, strings.len())?;
    for string in strings {
        copies.push(string.copy(alloc)?)?;
    }
    Ok(copies)
}
