//! Values out of the words of a command line.
ghost use Rattle.std.specs.Prelude.{◌≡◌, ◌++◌, ◌∷◌, [], IfOk, IfErr, OnOk, Some};
ghost use Rattle.std.specs.Char.{digit_value};
ghost use Rattle.std.specs.Int.{bytes_high_first};
ghost use Rattle.dtman_blobs.specs.Saying.{IsUnsaid, IsUnsaidBy, are_numbers, digits_behind, fits, magnitude, negated, number_of, numbers, numeral, radix_of, size_of, texts, unsaid, value_said, words_in};

use crate::value_type::{Notation, ValueType, Width};
use std::alloc::{AllocError, Global};

/// Why words make no value.
#[derive(Clone, Copy, Debug, PartialEq, Eq)]
pub enum SayError<'a> {
    NoMemory,
    /// The word is no number, or one that has more bytes than asked for.
    NoNumber(&'a str),
}

impl From<AllocError> for SayError<'_> {
    ghost use Rattle.std.specs.Prelude.{◌≡◌};
    ghost use Rattle.dtman_blobs.specs.declared.saying.SayError.TheVariants.{NoMemory};

    ghost from_gives = { λ _ e. e ≡ NoMemory };

    fn from(_error: AllocError) -> Self {
        SayError::NoMemory
    }
}

// What a letter is worth: more than any digit where it is none.
fn digit_value(letter: u8) -> u32
    ensures { result ≡ digit_value letter }
{
    match letter {
        b'0'..=b'9' => u32::from(letter - b'0'),
        b'A'..=b'Z' => u32::from(letter - b'A') + 10,
        b'a'..=b'z' => u32::from(letter - b'a') + 10,
        _ => 36,
    }
}

// A number with a digit behind it.
fn with_digit(number: u32, radix: u32, letter: u8) -> Option<u32>
    ensures { result ≡ digits_behind radix number (letter ∷ []) }
{
    let digit = digit_value(letter);
    if digit >= radix {
        return None;
    }
    number.checked_mul(radix)?.checked_add(digit)
}

fn numeral(digits: &[u8], radix: u32) -> Option<u32>
    ensures { result ≡ numeral radix digits.now }
{
    if digits.is_empty() {
        return None;
    }
    let mut number = 0;
    for letter in digits {
        number = with_digit(number, radix, *letter)?;
    }
    Some(number)
}

fn radix_of(notation: Notation) -> u32
    ensures { result ≡ radix_of notation }
{
    match notation {
        Notation::Text | Notation::Signed | Notation::Unsigned => 10,
        Notation::Hex => 16,
    }
}

// A number behind its sign.
fn magnitude(digits: &[u8], notation: Notation) -> Option<u32>
    ensures { result ≡ magnitude notation digits.now }
{
    if digits.starts_with(b"0x") {
        return numeral(&digits[2..], 16);
    }
    numeral(digits, radix_of(notation))
}

fn negated(number: u32) -> Option<u32>
    ensures { result ≡ negated number }
{
    if number > 0x8000_0000 {
        return None;
    }
    Some(number.wrapping_neg())
}

// The number that a word says, of so many bits with its sign.
fn number_of(word: &[u8], notation: Notation) -> Option<u32>
    ensures { result ≡ number_of notation word.now }
{
    if !word.starts_with(b"-") {
        return magnitude(word, notation);
    }
    negated(magnitude(&word[1..], notation)?)
}

// Whether a number, or the negative one that it stands for, fits a width.
fn fits(number: u32, width: Width) -> bool
    ensures { result ≡ fits width number }
{
    match width {
        Width::Byte => number < 0x100 || number >= 0xffff_ff80,
        Width::Half => number < 0x1_0000 || number >= 0xffff_8000,
        Width::Cell => true,
    }
}

fn add_number(value: &mut Vec<u8>, width: Width, number: u32) -> Result<(), AllocError>
    ensures { OnOk result (value.new.items ≡ value.old.items ++ bytes_high_first (size_of width) number) }
{
    let [a, b, c, d] = number.to_be_bytes();
    match width {
        Width::Byte => value.extend_from_slice(&[d]),
        Width::Half => value.extend_from_slice(&[c, d]),
        Width::Cell => value.extend_from_slice(&[a, b, c, d]),
    }
}

fn say_texts<'a>(alloc: Global, words: &[&'a str]) -> Result<Vec<u8>, SayError<'a>>
    ensures ok { IfOk result (λ value. value.items ≡ texts (words_in words.now)) }
    ensures err { IfErr result (λ e. e ≡ SayError.NoMemory) }
{
    let mut value = Vec::new(alloc);
    for word in words {
        value.extend_from_slice(word.as_bytes())?;
        value.push(0).map_err(AllocError::from)?;
    }
    Ok(value)
}

fn say_numbers<'a>(
    alloc: Global,
    notation: Notation,
    width: Width,
    words: &[&'a str],
) -> Result<Vec<u8>, SayError<'a>>
    ensures ok { IfOk result (λ value. numbers notation width (words_in words.now) ≡ Some value.items) }
    ensures err { IfErr result (IsUnsaidBy notation width (words_in words.now)) }
{
    let mut value = Vec::new(alloc);
    for word in words {
        match number_of(word.as_bytes(), notation) {
            Some(number) if fits(number, width) => add_number(&mut value, width, number)?,
            _ => return Err(SayError::NoNumber(*word)),
        }
    }
    Ok(value)
}

/// Whether each word is a number.
pub fn are_numbers(words: &[&str]) -> bool
    ensures { result ≡ are_numbers (words_in words.now) }
{
    for word in words {
        if number_of(word.as_bytes(), Notation::Signed).is_none() {
            return false;
        }
    }
    true
}

/// The value that words say: texts, each with a zero byte behind it, or numbers, of four bytes where no width is said.
pub fn said<'a>(alloc: Global, kind: ValueType, words: &[&'a str]) -> Result<Vec<u8>, SayError<'a>>
    // The value that the words say, exactly.
    ensures ok { IfOk result (λ value. value_said kind (words_in words.now) ≡ Some value.items) }
    // The first word that is no number is told.
    ensures err { IfErr result (IsUnsaid kind (words_in words.now)) }
{
    let notation = kind.notation.unwrap_or(Notation::Signed);
    if notation == Notation::Text {
        return say_texts(alloc, words);
    }
    let width = kind.width.unwrap_or(Width::Cell);
    say_numbers(alloc, notation, width, words)
}
