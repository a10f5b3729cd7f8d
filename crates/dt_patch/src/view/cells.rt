//! Numbers and texts in a property's value.
ghost use Rattle.std.specs.Prelude.{◌≡◌, ◌==◌, ◌<◌, IfSome, length, position};
ghost use Rattle.std.specs.Option.{option_copied};
ghost use Rattle.dt_patch.specs.View.Cells.{behind_text_in, double_cell_in, number_in, string_in, text_in};

use dt_tree::{behind, cell_at};

/// The cell at a place of a value, in cells from 0: none where it isn't there whole.
pub fn cell(value: &[u8], place: usize) -> Option<u32>
    ensures { result ≡ number_in value.now place }
{
    if place >= value.len() / 4 {
        return None;
    }
    Some(cell_at(value, 4 * place))
}

/// The number of two cells, the higher one first, at a place in cells from 0.
pub fn double_cell(value: &[u8], place: usize) -> Option<u64>
    ensures { result ≡ double_cell_in value.now place }
{
    let high = cell(value, place)?;
    let low = cell(value, place + 1)?;
    Some(u64::from(high) * 4_294_967_296 + u64::from(low))
}

fn zero_place(value: &[u8]) -> Option<usize>
    ensures place { result ≡ position (λ b. b == 0) value.now }
    ensures inside { IfSome result (λ k. k < length value.now) }
{
    value.iter().position(|byte| *byte == 0)
}

/// The text that a value begins with, up to its zero byte: none where it has no zero byte.
pub fn text(value: &[u8]) -> Option<&[u8]>
    ensures { option_copied result ≡ text_in value.now }
{
    match zero_place(value) {
        None => None,
        Some(end) => Some(&value[..end]),
    }
}

// What stands behind the first text's zero byte.
fn behind_text(value: &[u8]) -> Option<&[u8]>
    ensures { option_copied result ≡ behind_text_in value.now }
{
    match zero_place(value) {
        None => None,
        Some(end) => Some(behind(behind(value, end), 1)),
    }
}

/// The string at a place of a list of strings, counted from 0: none behind the last, and none without its zero byte.
pub fn string(value: &[u8], place: usize) -> Option<&[u8]>
    ensures { option_copied result ≡ string_in value.now place }
{
    let mut rest = value;
    for _ in 0..place {
        rest = behind_text(rest)?;
    }
    text(rest)
}
