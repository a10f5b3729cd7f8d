//! Strings and pairs of hex digits, as bytes.
ghost use Rattle.std.specs.Prelude.{◌≡◌, ◌<◌, ◌≤◌, ◌+◌, ◌^◌, ◌++◌, length, drop, slice_range};
ghost use Rattle.std.specs.Prelude.{IfOk, OnOk};
ghost use Rattle.dt_source.specs.Strings.{pair_byte};
ghost use Rattle.dt_source.specs.Strings.{char_step, char_fault, char_number, string_bytes, string_faults};
ghost use Rattle.dt_source.specs.Reading.Several.{earlier};
ghost use Rattle.dt_source.specs.Order.{first_of};

use dt_text::expression::{bytes_of, digit_of, escape};
use dt_text::lexeme::{Fault, FaultKind, Language, Lexeme};
use std::alloc::{AllocError, Global};

/// What stands between two places of the text.
pub(crate) fn bytes_between(text: &[u8], start: usize, end: usize) -> &[u8]
    ensures { result.now ≡ slice_range text.now start end }
{
    let end = end.min(text.len());
    let start = start.min(end);
    &text[start..end]
}

fn from(s: &[u8], n: usize) -> &[u8]
    requires { n ≤ length s.now }
    ensures { result.now ≡ drop n s.now }
{
    &s[n..]
}

/// The first of two faults.
pub(crate) fn earlier(a: Option<Fault>, b: Option<Fault>) -> Option<Fault>
    ensures { result ≡ earlier a b }
{
    match a {
        None => b,
        Some(fault) => Some(fault),
    }
}

// The place of a byte of a string.
fn place_in(l: Lexeme, index: usize) -> u32
    requires { l.start + 1 + index < 2 ^ 32 }
    ensures { result ≡ l.start + 1 + index }
{
    l.start + 1 + index as u32
}

// What a byte of a string stands for, with the bytes behind it, and how many of these belong to its backslash.
fn char_at(
    language: Language,
    lexeme: Lexeme,
    skip: usize,
    index: usize,
    c: u8,
    rest: &[u8],
) -> (Option<Result<u8, Fault>>, usize)
    requires { lexeme.start + 1 + index < 2 ^ 32 }
    ensures { result ≡ char_step language skip (lexeme.start + 1 + index) c rest.now }
{
    if skip > 0 {
        return (None, skip - 1);
    }
    if c != b'\\' {
        return (Some(Ok(c)), 0);
    }
    let (byte, taken) = escape(language, rest);
    match byte {
        Some(byte) => (Some(Ok(byte)), taken),
        None => (
            Some(Err(Fault {
                kind: FaultKind::BadEscape,
                place: place_in(lexeme, index),
            })),
            taken,
        ),
    }
}

fn char_fault(said: Option<Result<u8, Fault>>) -> Option<Fault>
    ensures { result ≡ char_fault said }
{
    match said {
        Some(Err(fault)) => Some(fault),
        _ => None,
    }
}

fn push_char(bytes: &mut Vec<u8>, said: Option<Result<u8, Fault>>) -> Result<(), AllocError>
    ensures { OnOk result (bytes.new.items ≡ bytes.old.items ++ char_number said) }
{
    match said {
        Some(Ok(byte)) => {
            bytes.push(byte)?;
            Ok(())
        }
        _ => Ok(()),
    }
}

/// The bytes of a string in this language with a zero byte, and its first fault.
pub(crate) fn string_of(
    alloc: Global,
    language: Language,
    text: &[u8],
    lexeme: Lexeme,
) -> Result<(Vec<u8>, Option<Fault>), AllocError>
    ensures bytes { IfOk result (λ x. x.0.items ≡ string_bytes language text.now lexeme) }
    ensures fault { IfOk result (λ x. x.1 ≡ first_of (string_faults language text.now lexeme)) }
{
    let inside = bytes_between(
        text,
        lexeme.start as usize + 1,
        (lexeme.end as usize).saturating_sub(1),
    );
    let mut bytes = Vec::new(alloc);
    let mut first = None;
    let mut skip: usize = 0;
    for (i, c) in inside.iter().enumerate() {
        let (said, taken) = char_at(language, lexeme, skip, i, *c, from(inside, i + 1));
        first = earlier(first, char_fault(said));
        push_char(&mut bytes, said)?;
        skip = taken;
    }
    bytes.push(0)?;
    Ok((bytes, first))
}

/// The byte of two hex digits.
#[tactic(auto, unfolding(crate::specs::Strings::pair_byte))]
pub(crate) fn pair(text: &[u8], l: Lexeme) -> u8
    ensures { result ≡ pair_byte text.now l }
{
    match bytes_of(text, l) {
        [a, b, ..] => ((digit_of(*a) as u16 * 16 + digit_of(*b) as u16) % 256) as u8,
        _ => 0,
    }
}
