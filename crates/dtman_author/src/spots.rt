//! Where a byte of a text is.

/// A line and a column, each from 1.
#[derive(Clone, Copy, Debug, PartialEq, Eq)]
pub(crate) struct Spot {
    pub(crate) line: usize,
    pub(crate) column: usize,
}

/// Where the byte at this offset is.
pub(crate) fn spot_of(text: &[u8], offset: usize) -> Spot {
    let before = text.get(..offset).unwrap_or(text);
    let ends = before.iter().filter(|byte| **byte == b'\n').count();
    let own = before
        .iter()
        .rev()
        .take_while(|byte| **byte != b'\n')
        .count();
    Spot {
        line: ends.saturating_add(1),
        column: own.saturating_add(1),
    }
}

/// The text of a line, without its end.
pub(crate) fn line_of(text: &[u8], spot: Spot) -> &[u8] {
    let found = text
        .split(|byte| *byte == b'\n')
        .nth(spot.line.saturating_sub(1));
    found.unwrap_or(b"")
}
