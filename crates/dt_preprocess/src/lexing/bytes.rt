//! Classes of bytes, and parts of a text.

pub(crate) fn is_letter(c: u8) -> bool {
    matches!(c, b'a'..=b'z' | b'A'..=b'Z' | b'_')
}

pub(crate) fn is_digit(c: u8) -> bool {
    matches!(c, b'0'..=b'9')
}

/// A byte of a name behind its first.
pub(crate) fn is_word(c: u8) -> bool {
    is_letter(c) || is_digit(c)
}

/// White space within a line.
pub(crate) fn is_blank(c: u8) -> bool {
    matches!(c, b' ' | b'\t' | 11 | 12 | b'\r')
}

/// What stands behind the first `n` bytes.
pub(crate) fn behind(s: &[u8], n: usize) -> &[u8] {
    if n < s.len() { &s[n..] } else { b"" }
}

/// The first `n` bytes.
pub(crate) fn front(s: &[u8], n: usize) -> &[u8] {
    if n < s.len() { &s[..n] } else { s }
}

/// How many blanks stand at the front.
pub(crate) fn blanks(s: &[u8]) -> usize {
    for (i, c) in s.iter().enumerate() {
        if !is_blank(*c) {
            return i;
        }
    }
    s.len()
}
