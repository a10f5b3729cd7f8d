//! Escapes in strings.
ghost use Rattle.std.specs.Prelude.{◌≡◌, ◌<◌, ◌≤◌, ◌++◌, length, drop, IfOk, OnOk, IfSome, option_map, [], ◌∷◌};
ghost use Rattle.dt_text.specs.Expression.Escape.{escape_of, digit_at, octal_byte, octal_at, hex_at, escape_at};
ghost use Rattle.dt_text.specs.Expression.Escape.{byte_step, with_byte, unescaped};

use crate::expression::numeral::digit_of;
use crate::lexeme::Language;
use std::alloc::{AllocError, Global};

// What a backslash before this byte stands for, where it is neither a digit nor x.
fn escape_of(c: u8) -> u8
    ensures { result ≡ escape_of c }
{
    match c {
        b'a' => 7,
        b'b' => 8,
        b't' => 9,
        b'n' => 10,
        b'v' => 11,
        b'f' => 12,
        b'r' => 13,
        _ => c,
    }
}

fn digit(base: u8, s: &[u8]) -> Option<(u8, &[u8])>
    ensures gives { option_map (λ x. (x.0, x.1.now)) result ≡ digit_at base s.now }
    ensures small { IfSome result (λ x. x.0 < base) }
{
    match s {
        [] => None,
        [c, rest @ ..] => {
            let number = digit_of(*c);
            if number < base {
                Some((number, rest))
            } else {
                None
            }
        }
    }
}

// The byte of an octal number, of which dtc keeps the low eight bits.
fn octal_byte(language: Language, number: u16) -> Option<u8>
    ensures { result ≡ octal_byte language number }
{
    match language {
        Language::Profile => {
            if number < 256 {
                Some(number as u8)
            } else {
                None
            }
        }
        Language::Dtc => Some((number % 256) as u8),
    }
}

fn octal(language: Language, a: u8, s: &[u8]) -> (Option<u8>, usize)
    requires { a < 8 }
    ensures { result ≡ octal_at language a s.now }
{
    match digit(8, s) {
        None => (Some(a), 1),
        Some((b, s)) => match digit(8, s) {
            None => (Some(a * 8 + b), 2),
            Some((c, _)) => {
                let number = (a as u16 * 8 + b as u16) * 8 + c as u16;
                (octal_byte(language, number), 3)
            }
        },
    }
}

fn hex(s: &[u8]) -> (Option<u8>, usize)
    ensures { result ≡ hex_at s.now }
{
    match digit(16, s) {
        None => (None, 1),
        Some((a, s)) => match digit(16, s) {
            None => (Some(a), 2),
            Some((b, _)) => (Some(a * 16 + b), 3),
        },
    }
}

/// What stands behind a backslash in a string: its byte, where it stands for one, and how many bytes it has.
pub fn escape(language: Language, s: &[u8]) -> (Option<u8>, usize)
    ensures { result ≡ escape_at language s.now }
{
    match s {
        [] => (None, 0),
        [c, rest @ ..] => {
            if *c == b'x' {
                return hex(rest);
            }
            match digit(8, s) {
                None => (Some(escape_of(*c)), 1),
                Some((a, rest)) => octal(language, a, rest),
            }
        }
    }
}

fn from(s: &[u8], n: usize) -> &[u8]
    requires { n ≤ length s.now }
    ensures { result.now ≡ drop n s.now }
{
    &s[n..]
}

// What a byte of a string stands for, with the bytes behind it, and how many of these belong to its backslash.
fn byte_at(language: Language, skip: usize, c: u8, rest: &[u8]) -> (Option<u8>, usize)
    ensures { result ≡ byte_step language skip c rest.now }
{
    if skip > 0 {
        return (None, skip - 1);
    }
    if c != b'\\' {
        return (Some(c), 0);
    }
    escape(language, rest)
}

fn push_byte(bytes: &mut Vec<u8>, byte: Option<u8>) -> Result<(), AllocError>
    ensures { OnOk result (bytes.new.items ≡ bytes.old.items ++ with_byte byte []) }
{
    match byte {
        Some(byte) => {
            bytes.push(byte)?;
            Ok(())
        }
        None => Ok(()),
    }
}

/// What the bytes between the quotes of a string in this language stand for. A backslash that stands for no byte is dropped.
pub fn unescaped(alloc: Global, language: Language, inside: &[u8]) -> Result<Vec<u8>, AllocError>
    ensures { IfOk result (λ bytes. bytes.items ≡ unescaped language 0 inside.now) }
{
    let mut bytes = Vec::new(alloc);
    let mut skip: usize = 0;
    for (i, c) in inside.iter().enumerate() {
        let (byte, taken) = byte_at(language, skip, *c, from(inside, i + 1));
        push_byte(&mut bytes, byte)?;
        skip = taken;
    }
    Ok(bytes)
}
