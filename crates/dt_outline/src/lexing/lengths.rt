//! How long what stands at the front of a text is.

use crate::lexing::bytes::{behind, is_blank, is_item, is_word};
use memchr::{memchr, memmem};

/// A word of C.
pub(crate) fn word_len(s: &[u8]) -> usize {
    for (i, c) in s.iter().enumerate() {
        if !is_word(*c) {
            return i;
        }
    }
    s.len()
}

/// The name of a node or a property.
pub(crate) fn item_len(s: &[u8]) -> usize {
    for (i, c) in s.iter().enumerate() {
        if !is_item(*c) {
            return i;
        }
    }
    s.len()
}

pub(crate) fn blanks(s: &[u8]) -> usize {
    for (i, c) in s.iter().enumerate() {
        if !is_blank(*c) {
            return i;
        }
    }
    s.len()
}

/// Up to the line's end.
pub(crate) fn line_len(s: &[u8]) -> usize {
    memchr(b'\n', s).unwrap_or(s.len())
}

/// `/* */`, to the text's end where it isn't closed.
pub(crate) fn comment_len(s: &[u8]) -> usize {
    match memmem::find(behind(s, 2), b"*/") {
        Some(at) => at.saturating_add(4),
        None => s.len(),
    }
}

/// What a quote begins, to the line's end where it isn't closed there; a backslash takes one byte.
pub(crate) fn quoted_len(s: &[u8], quote: u8) -> usize {
    let mut escaped = false;
    for (i, c) in behind(s, 1).iter().enumerate() {
        if *c == b'\n' {
            return i.saturating_add(1);
        }
        if escaped {
            escaped = false;
        } else if *c == b'\\' {
            escaped = true;
        } else if *c == quote {
            return i.saturating_add(2);
        }
    }
    s.len()
}

/// What is closed by a byte, to the line's end where it isn't closed there.
pub(crate) fn closed_len(s: &[u8], close: u8) -> usize {
    for (i, c) in s.iter().enumerate() {
        if *c == b'\n' {
            return i;
        }
        if *c == close {
            return i.saturating_add(1);
        }
    }
    s.len()
}

/// `/word/`, as `/delete-node/`, where that stands there.
pub(crate) fn keyword_len(s: &[u8]) -> Option<usize> {
    for (i, c) in behind(s, 1).iter().enumerate() {
        if *c == b'/' {
            return if i > 0 {
                Some(i.saturating_add(2))
            } else {
                None
            };
        }
        if !matches!(*c, b'a'..=b'z' | b'0'..=b'9' | b'-') {
            return None;
        }
    }
    None
}

/// A backslash, blanks and a line's end (C11, 5.1.1.2, phase 2), 0 where that doesn't stand there.
pub(crate) fn splice_len(s: &[u8]) -> usize {
    if s.first() != Some(&b'\\') {
        return 0;
    }
    let gap = blanks(behind(s, 1)).saturating_add(1);
    if behind(s, gap).first() == Some(&b'\n') {
        gap.saturating_add(1)
    } else {
        0
    }
}

/// The names of directives (C11, 6.10).
const DIRECTIVES: [&[u8]; 12] = [
    b"include", b"define", b"undef", b"if", b"ifdef", b"ifndef", b"elif", b"else", b"endif",
    b"error", b"warning", b"pragma",
];

/// `#` and the name of a directive, where they stand there: `#address-cells` is a property.
pub(crate) fn directive_len(s: &[u8]) -> Option<usize> {
    let gap = blanks(behind(s, 1)).saturating_add(1);
    let rest = behind(s, gap);
    let length = word_len(rest);
    let name = rest.get(..length).unwrap_or(b"");
    if behind(rest, length).first().is_some_and(|c| is_item(*c)) {
        return None;
    }
    if DIRECTIVES.iter().any(|directive| *directive == name) {
        Some(gap.saturating_add(length))
    } else {
        None
    }
}
