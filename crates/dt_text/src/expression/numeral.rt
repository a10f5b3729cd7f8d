//! Numbers as they stand in the text.
ghost use Rattle.std.specs.Prelude.{◌≡◌, ◌≤◌};
ghost use Rattle.dt_text.specs.Expression.Values.{bytes_of, digit_of, is_suffix, number_of, literal_number, literal_of, inside_of, character_at, constant_of, below_64};

use crate::expression::characters::character;
use crate::lexeme::{Fault, FaultKind, Kind, Lexeme};

/// What a lexeme stands for in its text.
pub fn bytes_of<'a>(text: &'a [u8], lexeme: Lexeme) -> &'a [u8]
    ensures { result.now ≡ bytes_of text.now lexeme }
{
    let end = (lexeme.end as usize).min(text.len());
    let start = (lexeme.start as usize).min(end);
    &text[start..end]
}

/// The number of a digit, which is below 16, or 16 where the byte is no digit in any base.
pub fn digit_of(c: u8) -> u8
    ensures { result ≡ digit_of c }
{
    match c {
        b'0'..=b'9' => c - b'0',
        b'A'..=b'F' => c - 55,
        b'a'..=b'f' => c - 87,
        _ => 16,
    }
}

fn is_suffix(c: u8) -> bool
    ensures { result ≡ is_suffix c }
{
    c == b'L' || c == b'U'
}

// The number below 2^64 that the digits stand for in this base.
fn number(base: u8, digits: &[u8]) -> Option<u64>
    requires { base ≤ 16 }
    ensures { result ≡ below_64 (number_of base digits.now) }
{
    let mut number: u64 = 0;
    for c in digits {
        if !is_suffix(*c) {
            let digit = digit_of(*c);
            if digit >= base {
                return None;
            }
            let wide = number as u128 * base as u128 + digit as u128;
            if wide >= 1 << 64 {
                return None;
            }
            number = wide as u64;
        }
    }
    Some(number)
}

// The number below 2^64 that a literal's bytes stand for.
fn literal_number(bytes: &[u8]) -> Option<u64>
    ensures { result ≡ below_64 (literal_number bytes.now) }
{
    match bytes {
        [a, b, digits @ ..] => {
            if *a != b'0' {
                number(10, bytes)
            } else if *b == b'x' || *b == b'X' {
                number(16, digits)
            } else {
                number(8, &bytes[1..])
            }
        }
        _ => number(10, bytes),
    }
}

/// The number of a literal, or its fault at its first byte.
#[tactic(auto, unfolding(crate::specs::Expression::Values::literal_of))]
pub fn literal(text: &[u8], lexeme: Lexeme) -> Result<u64, Fault>
    ensures { result ≡ literal_of text.now lexeme }
{
    match literal_number(bytes_of(text, lexeme)) {
        Some(number) => Ok(number),
        None => Err(Fault {
            kind: FaultKind::LiteralRange,
            place: lexeme.start,
        }),
    }
}

// What stands between the quotes of a character literal.
fn inside_of<'a>(text: &'a [u8], lexeme: Lexeme) -> &'a [u8]
    ensures { result.now ≡ inside_of text.now lexeme }
{
    let end = (lexeme.end as usize).saturating_sub(1).min(text.len());
    let start = (lexeme.start as usize + 1).min(end);
    &text[start..end]
}

#[tactic(auto, unfolding(crate::specs::Expression::Values::character_at))]
fn character_at(text: &[u8], lexeme: Lexeme) -> Result<u64, Fault>
    ensures { result ≡ character_at text.now lexeme }
{
    match character(inside_of(text, lexeme)) {
        Some(number) => Ok(number as u64),
        None => Err(Fault {
            kind: FaultKind::LiteralRange,
            place: lexeme.start,
        }),
    }
}

/// The number of a literal or of a character literal, or its fault at its first byte.
pub fn constant(text: &[u8], lexeme: Lexeme) -> Result<u64, Fault>
    ensures { result ≡ constant_of text.now lexeme }
{
    match lexeme.kind {
        Kind::Character => character_at(text, lexeme),
        _ => literal(text, lexeme),
    }
}
