//! The cells of a value, one after the other.
ghost use Rattle.std.specs.Prelude.{◌≡◌, ◌+◌, ◌∷◌, [], IfSome, MatchOption, length};
ghost use Rattle.dt_check.specs.Cells.{cells_of, cell_from};

use dt_tree::cell_at;

/// The first cell, and the bytes behind it.
pub fn next_cell(bytes: &[u8]) -> Option<(u32, &[u8])>
    ensures cell { MatchOption result (cells_of bytes.now ≡ [])
        (λ next. cells_of bytes.now ≡ next.0 ∷ cells_of next.1.now) }
    ensures rest { IfSome result (λ next. length next.1.now + 4 ≡ length bytes.now) }
{
    let [a, b, c, d, rest @ ..] = bytes else {
        return None;
    };
    Some((u32::from_be_bytes([*a, *b, *c, *d]), rest))
}

/// How many cells there are.
pub fn cell_count(bytes: &[u8]) -> usize
    ensures { result ≡ length (cells_of bytes.now) }
{
    bytes.len() / 4
}

/// The cell at an offset.
pub fn cell_from(value: &[u8], offset: usize) -> Option<u32>
    ensures { result ≡ cell_from offset value.now }
{
    if value.len() < 4 || value.len() - 4 < offset {
        return None;
    }
    Some(cell_at(value, offset))
}
