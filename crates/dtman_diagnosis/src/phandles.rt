//! The phandle that a property's lexemes give.

use dt_text::expression::{digit_of, primary};
use dt_text::lexeme::{Kind, Lexeme};
use dt_text::place::named;

/// The phandle that the property of this name gives, where its value is one cell or four bytes in hex.
pub(crate) fn phandle_of(text: &[u8], lexemes: &[Lexeme], name: usize) -> Option<u32> {
    let number = match lexemes.get(name..)? {
        [_, equals, open, cell @ ..] if equals.kind == Kind::Equals && open.kind == Kind::Less => {
            one_cell(text, cell)?
        }
        [_, equals, open, pairs @ ..] if equals.kind == Kind::Equals && open.kind == Kind::Square =>
            { four_bytes(text, pairs)? }
        _ => return None,
    };
    if number == 0 || number == u32::MAX {
        None
    } else {
        Some(number)
    }
}

// What a cell holds, before its bracket and a semicolon.
fn one_cell(text: &[u8], cell: &[Lexeme]) -> Option<u32> {
    match primary(text, cell) {
        Ok((Ok(number), [close, end, ..]))
            if close.kind == Kind::Greater && end.kind == Kind::Semicolon => {
            Some((number & 0xffff_ffff) as u32)
        }
        _ => None,
    }
}

fn four_bytes(text: &[u8], pairs: &[Lexeme]) -> Option<u32> {
    let [a, b, c, d, close, end, ..] = pairs else {
        return None;
    };
    if close.kind != Kind::EndSquare || end.kind != Kind::Semicolon {
        return None;
    }
    Some(u32::from_be_bytes([
        pair(text, *a)?,
        pair(text, *b)?,
        pair(text, *c)?,
        pair(text, *d)?,
    ]))
}

// The byte that two hex digits are.
fn pair(text: &[u8], lexeme: Lexeme) -> Option<u8> {
    let [high, low] = named(text, lexeme) else {
        return None;
    };
    Some(((digit_of(*high) as u16 * 16 + digit_of(*low) as u16) % 256) as u8)
}
