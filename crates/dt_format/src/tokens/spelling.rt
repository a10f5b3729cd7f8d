//! How tokens are spelled.
ghost use Rattle.std.specs.Prelude.{◌≡◌, ◌||◌, false};
ghost use Rattle.dt_format.specs.Spelling.{lower, spell, is_number, is_hex_digit, is_suffix, is_strange, digits_end, within_run, read_on};

use crate::style::Hex;
use crate::tokens::bytes::{from, is_name};
use crate::tokens::kind::Kind;
use std::alloc::AllocError;

/// Where in a word a byte stands.
#[derive(Clone, Copy, PartialEq, Eq, Debug)]
pub(crate) enum Run {
    /// where a name or a number may begin
    Free,
    Name,
    /// in a hex number
    Number,
}

// The letters A to F and X as small ones.
fn lower(c: u8) -> u8
    ensures { result ≡ lower c }
{
    if c >= b'A' && c <= b'F' || c == b'X' {
        c + 32
    } else {
        c
    }
}

fn is_hex_digit(c: u8) -> bool
    ensures { result ≡ is_hex_digit c }
{
    c >= b'0' && c <= b'9' || c >= b'A' && c <= b'F' || c >= b'a' && c <= b'f'
}

// A letter of a number's suffix (dtc 1.6, dtc-lexer.l).
fn is_suffix(c: u8) -> bool
    ensures { result ≡ is_suffix c }
{
    c == b'U' || c == b'L' || c == b'u' || c == b'l'
}

// Whether a byte of a name can't stand in a number; the flag says that a letter of a suffix stands before.
fn is_strange(behind: bool, c: u8) -> bool
    ensures { result ≡ is_strange behind c }
{
    !is_suffix(c) && (behind || !is_hex_digit(c))
}

fn behind_suffix(behind: bool, c: u8) -> bool
    ensures { result ≡ behind || is_suffix c }
{
    behind || is_suffix(c)
}

// Whether a number ends behind these bytes: digits of hex, letters of a suffix, and then no character of a name.
fn digits_end(s: &[u8]) -> bool
    ensures { result ≡ digits_end false s.now }
{
    let mut behind = false;
    for c in s {
        if !is_name(*c) {
            return true;
        }
        if is_strange(behind, *c) {
            return false;
        }
        behind = behind_suffix(behind, *c);
    }
    true
}

// Whether a hex number stands at the front.
fn is_number(s: &[u8]) -> bool
    ensures { result ≡ is_number s.now }
{
    match s {
        [b'0', x, digit, rest @ ..] => {
            (*x == b'x' || *x == b'X') && is_hex_digit(*digit) && digits_end(rest)
        }
        _ => false,
    }
}

// In what the byte at the front of this text stands, by that of the byte before it, if it is of a name.
fn within_run(run: Run, s: &[u8]) -> Run
    ensures { result ≡ within_run run s.now }
{
    match run {
        Run::Free => { if is_number(s) { Run::Number } else { Run::Name } }
        Run::Name => Run::Name,
        Run::Number => Run::Number,
    }
}

// In what a byte stands, with which this text begins, by that of the byte before it.
fn read_on(run: Run, c: u8, s: &[u8]) -> Run
    ensures { result ≡ read_on run c s.now }
{
    if !is_name(c) {
        Run::Free
    } else {
        within_run(run, s)
    }
}

fn spell(run: Run, c: u8) -> u8
    ensures { result ≡ spell run c }
{
    match run {
        Run::Number => lower(c),
        Run::Free | Run::Name => c,
    }
}

// Whether the second text is a word's, with its hex numbers in lower case.
fn is_lowered(word: &[u8], made: &[u8]) -> bool {
    if word.len() != made.len() {
        return false;
    }
    let mut run = Run::Free;
    for (i, c) in word.iter().enumerate() {
        run = read_on(run, *c, from(word, i));
        if made[i] != spell(run, *c) {
            return false;
        }
    }
    true
}

/// Whether the second text is a token's as the style spells it.
pub(crate) fn is_spelled(hex: Hex, kind: Kind, token: &[u8], made: &[u8]) -> bool {
    match (hex, kind) {
        (Hex::Lower, Kind::Word) => is_lowered(token, made),
        _ => token == made,
    }
}

/// A token as the style spells it, behind what is made.
pub(crate) fn put_spelled(
    hex: Hex,
    kind: Kind,
    token: &[u8],
    made: &mut Vec<u8>,
) -> Result<(), AllocError> {
    if hex == Hex::AsWritten || kind != Kind::Word {
        return made.extend_from_slice(token);
    }
    let mut run = Run::Free;
    for (i, c) in token.iter().enumerate() {
        run = read_on(run, *c, from(token, i));
        made.push(spell(run, *c))?;
    }
    Ok(())
}
