//! Numbers as words of a line.
ghost use Rattle.std.specs.Prelude.{◌≡◌, ◌++◌, OnOk, decimal};

use std::alloc::{AllocError, Global};

/// Adds a number in decimal digits.
pub fn add_decimal(alloc: Global, text: &mut Vec<u8>, number: u64) -> Result<(), AllocError>
    ensures { OnOk result (text.new.items ≡ text.old.items ++ decimal number) }
{
    let word = format!(in alloc; "{number}")?;
    text.extend_from_slice(word.as_bytes())
}
