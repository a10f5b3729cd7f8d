//! The text of tokens, with one space for white space and where an edge of an expansion would join two of them.

use crate::lexing::bytes::{is_digit, is_letter, is_word};
use crate::refusal::{Fault, Reason};
use crate::token::Token;
use crate::words::{Kind, MAX_TEXT, Words};

fn is_alphanumeric(c: u8) -> bool {
    is_word(c) && c != b'_'
}

/// Whether a second byte makes an operator, a comment or a digraph of the first.
fn joins(a: u8, b: u8) -> bool {
    match a {
        b'<' => matches!(b, b'<' | b'%' | b':'),
        b'>' | b'+' | b'&' | b'|' => a == b,
        b'-' => matches!(b, b'-' | b'>'),
        b'/' => matches!(b, b'/' | b'*'),
        b'%' => matches!(b, b'%' | b':'),
        b':' => matches!(b, b':' | b'>'),
        b'#' => matches!(b, b'#' | b'%'),
        b'.' => b == b'.' || b == b'%' || is_digit(b),
        _ => false,
    }
}

/// Whether an operator and `=` behind it are one.
fn takes_equals(left: &[u8]) -> bool {
    match left {
        b"<<" | b">>" => true,
        [a] => matches!(
            *a,
            b'=' | b'!' | b'>' | b'<' | b'+' | b'-' | b'*' | b'/' | b'%' | b'&' | b'|' | b'^'
        ),
        _ => false,
    }
}

fn is_number(word: &[u8]) -> bool {
    match word {
        [b'.', c, ..] => is_digit(*c),
        [c, ..] => is_digit(*c),
        [] => false,
    }
}

fn joins_name(b: u8, right: &[u8]) -> bool {
    is_letter(b)
        || b == b'\''
        || b == b'"'
        || is_digit(b) && right.iter().all(|c| is_alphanumeric(*c))
}

/// Whether two tokens, written together, would be read as others.
pub(crate) fn apart(left: &[u8], right: &[u8]) -> bool {
    let (Some(first), Some(second)) = (left.first(), right.first()) else {
        return false;
    };
    let (a, b) = (*first, *second);
    if is_letter(a) {
        return joins_name(b, right);
    }
    if is_number(left) {
        return is_word(b) || matches!(b, b'.' | b'+' | b'-' | b'\'');
    }
    b == b'=' && takes_equals(left) || left.len() == 1 && joins(a, b)
}

/// Which white space counts.
#[derive(Clone, Copy, PartialEq, Eq)]
pub(crate) enum Spacing {
    White,
    /// also at edges where two tokens would join
    Edges,
}

/// Puts a token behind another.
fn put_token(
    words: &Words,
    text: &mut Vec<u8>,
    before: Option<&Token>,
    token: &Token,
    spacing: Spacing,
) -> Result<(), Fault> {
    let word = words.text(token.word);
    if let Some(before) = before {
        let at_edge = spacing == Spacing::Edges && token.space.edge;
        if token.space.white || at_edge && apart(words.text(before.word), word) {
            text.push(b' ')?;
        }
    }
    text.extend_from_slice(word)?;
    if text.len() > MAX_TEXT {
        return Err(Fault::bare(Reason::TooLong, token.place));
    }
    Ok(())
}

/// Puts the text of tokens: a text has 64 MiB at most.
pub(crate) fn spell(words: &Words, text: &mut Vec<u8>, tokens: &[Token]) -> Result<(), Fault> {
    let mut before = None;
    for token in tokens {
        put_token(words, text, before, token, Spacing::Edges)?;
        before = Some(token);
    }
    Ok(())
}

/// Puts a backslash before each backslash and quote.
fn put_escaped(text: &mut Vec<u8>, word: &[u8]) -> Result<(), Fault> {
    for c in word {
        if *c == b'\\' || *c == b'"' {
            text.push(b'\\')?;
        }
        text.push(*c)?;
    }
    Ok(())
}

/// Puts an argument's text as a string (C11, 6.10.3.2).
pub(crate) fn spell_string(
    words: &Words,
    text: &mut Vec<u8>,
    tokens: &[Token],
) -> Result<(), Fault> {
    text.push(b'"')?;
    for (i, token) in tokens.iter().enumerate() {
        if i > 0 && token.space.white {
            text.push(b' ')?;
        }
        let word = words.text(token.word);
        if token.kind == Kind::Quoted {
            put_escaped(text, word)?;
        } else {
            text.extend_from_slice(word)?;
        }
        if text.len() > MAX_TEXT {
            return Err(Fault::bare(Reason::TooLong, token.place));
        }
    }
    text.push(b'"')?;
    Ok(())
}
