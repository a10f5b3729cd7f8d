//! Columns of a text, from 0, with tabs to the next multiple of 8.

/// How wide a tab is at most (Linux, Documentation/process/coding-style.rst, 1).
pub(crate) const TAB: usize = 8;

/// The column behind a byte that stands in this one.
fn behind(column: usize, c: u8) -> usize {
    match c {
        b'\n' => 0,
        b'\t' => column.saturating_add(TAB - column % TAB),
        // a further byte of a character in UTF-8
        0x80..=0xbf => column,
        _ => column.saturating_add(1),
    }
}

/// The column behind a text that begins in this one.
pub(crate) fn column_behind(column: usize, s: &[u8]) -> usize {
    let mut at = column;
    for c in s {
        at = behind(at, *c);
    }
    at
}
