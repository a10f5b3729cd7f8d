//! The token at the front of a text (C11, 6.4): the longest counts.

use crate::lexing::bytes::{behind, is_digit, is_letter, is_word};
use memchr::memchr;

fn name_len(s: &[u8]) -> usize {
    for (i, c) in s.iter().enumerate() {
        if !is_word(*c) {
            return i;
        }
    }
    s.len()
}

fn continues_number(before: u8, c: u8) -> bool {
    is_word(c)
        || c == b'.'
        || (c == b'+' || c == b'-') && matches!(before, b'e' | b'E' | b'p' | b'P')
}

fn number_len(s: &[u8]) -> usize {
    let mut before = b'0';
    for (i, c) in s.iter().enumerate() {
        if !continues_number(before, *c) {
            return i;
        }
        before = *c;
    }
    s.len()
}

/// How many bytes before the line's end.
pub(crate) fn line_len(s: &[u8]) -> usize {
    memchr(b'\n', s).unwrap_or(s.len())
}

/// The length of a string or a character that is closed on its line; a backslash takes one byte.
pub(crate) fn closed_len(s: &[u8], quote: u8) -> Option<usize> {
    let mut escaped = false;
    for (i, c) in behind(s, 1).iter().enumerate() {
        if *c == b'\n' {
            return None;
        }
        if escaped {
            escaped = false;
        } else if *c == b'\\' {
            escaped = true;
        } else if *c == quote {
            return Some(i.saturating_add(2));
        }
    }
    None
}

/// The length of `<F>`, closed on its line.
pub(crate) fn header_len(s: &[u8]) -> Option<usize> {
    for (i, c) in s.iter().enumerate() {
        if *c == b'\n' {
            return None;
        }
        if *c == b'>' {
            return Some(i.saturating_add(1));
        }
    }
    None
}

/// Whether two bytes are one operator.
fn is_pair(a: u8, b: u8) -> bool {
    match b {
        b'=' => matches!(
            a,
            b'-' | b'+' | b'*' | b'/' | b'%' | b'&' | b'|' | b'^' | b'!' | b'=' | b'<' | b'>'
        ),
        b'>' => a == b'-' || a == b'>',
        b'#' | b'+' | b'-' | b'<' | b'&' | b'|' => a == b,
        _ => false,
    }
}

fn mark_len(s: &[u8]) -> usize {
    match s {
        [b'.', b'.', b'.', ..] | [b'<', b'<', b'=', ..] | [b'>', b'>', b'=', ..] => 3,
        [a, b, ..] => { if is_pair(*a, *b) { 2 } else { 1 } }
        _ => 1,
    }
}

fn begins_fraction(s: &[u8]) -> bool {
    match s {
        [b'.', c, ..] => is_digit(*c),
        _ => false,
    }
}

fn quoted_len(s: &[u8], quote: u8) -> usize {
    match closed_len(s, quote) {
        Some(length) => length,
        None => line_len(s),
    }
}

/// The length of the token at the front. A quote that isn't closed on its line takes the line's rest.
pub(crate) fn token_len(s: &[u8]) -> usize {
    let Some(first) = s.first() else {
        return 0;
    };
    let c = *first;
    if is_letter(c) {
        name_len(s)
    } else if is_digit(c) || begins_fraction(s) {
        number_len(s)
    } else if c == b'"' || c == b'\'' {
        quoted_len(s, c)
    } else {
        mark_len(s)
    }
}
