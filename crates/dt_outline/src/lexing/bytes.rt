//! Classes of bytes, and parts of a text.

use crate::lexing::token::Span;

/// A byte with which a name of C begins.
pub(crate) fn is_letter(c: u8) -> bool {
    matches!(c, b'a'..=b'z' | b'A'..=b'Z' | b'_')
}

/// A byte of a name of C, or of a label (Devicetree Specification v0.4, section 6.2).
pub fn is_word(c: u8) -> bool {
    is_letter(c) || matches!(c, b'0'..=b'9')
}

/// Whether a text can be a label, or the name of a macro.
pub fn is_name(text: &[u8]) -> bool {
    match text {
        [first, rest @ ..] => is_letter(*first) && rest.iter().all(|c| is_word(*c)),
        [] => false,
    }
}

/// A byte of the name of a node or a property (Devicetree Specification v0.4, sections 2.2.1 and 2.2.4), or of one that is made of macros.
pub(crate) fn is_item(c: u8) -> bool {
    is_word(c)
        || matches!(
            c,
            b',' | b'.' | b'+' | b'-' | b'*' | b'#' | b'?' | b'@' | b'\\'
        )
}

/// White space within a line.
pub(crate) fn is_blank(c: u8) -> bool {
    matches!(c, b' ' | b'\t' | 11 | 12 | b'\r')
}

/// What stands behind the first `n` bytes.
pub(crate) fn behind(s: &[u8], n: usize) -> &[u8] {
    if n < s.len() { &s[n..] } else { b"" }
}

/// The bytes of a span, as far as they are there.
pub fn text_of(text: &[u8], span: Span) -> &[u8] {
    text.get(span.start..span.end).unwrap_or(b"")
}
