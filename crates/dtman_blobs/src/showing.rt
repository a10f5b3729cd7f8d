//! Values as a command line shows them.

use crate::value_type::{Notation, ValueType, Width};
use std::alloc::{AllocError, Global};

/// Why a value isn't shown as it was asked for.
#[derive(Clone, Copy, Debug, PartialEq, Eq)]
pub enum ShowError {
    NoMemory,
    /// A text has no zero byte behind it.
    Unterminated,
    /// The bytes are no whole numbers of the width.
    Uneven,
}

impl From<AllocError> for ShowError {
    fn from(_error: AllocError) -> ShowError {
        ShowError::NoMemory
    }
}

/// Whether a value is texts of printing characters, each with a zero byte behind it.
pub fn are_texts(value: &[u8]) -> bool {
    let Some((last, texts)) = value.split_last() else {
        return false;
    };
    *last == 0
        && texts.split(|byte| *byte == 0).all(|text| !text.is_empty()
            && text.iter().all(|byte| is_printing(*byte)))
}

fn is_printing(byte: u8) -> bool {
    matches!(byte, b' '..=b'~')
}

fn show_texts(alloc: Global, value: &[u8]) -> Result<Vec<u8>, ShowError> {
    let mut shown = Vec::new(alloc);
    let Some((last, texts)) = value.split_last() else {
        return Ok(shown);
    };
    if *last != 0 {
        return Err(ShowError::Unterminated);
    }
    for byte in texts {
        let letter = if *byte == 0 { b' ' } else { *byte };
        shown.push(letter).map_err(AllocError::from)?;
    }
    Ok(shown)
}

// The number that up to four bytes are.
fn number_in(bytes: &[u8]) -> u32 {
    let mut number: u32 = 0;
    for byte in bytes {
        number = number.wrapping_shl(8) | u32::from(*byte);
    }
    number
}

fn add_number(
    alloc: Global,
    shown: &mut Vec<u8>,
    notation: Notation,
    bytes: &[u8],
) -> Result<(), AllocError> {
    let number = number_in(bytes);
    let text = match notation {
        Notation::Hex => format!(in alloc; "{number:x}")?,
        Notation::Signed if bytes.len() == 4 && number > 0x7fff_ffff => {
            let below = number.wrapping_neg();
            format!(in alloc; "-{below}")?
        }
        _ => format!(in alloc; "{number}")?,
    };
    shown.extend_from_slice(text.as_bytes())
}

fn show_numbers(
    alloc: Global,
    notation: Notation,
    width: Width,
    value: &[u8],
) -> Result<Vec<u8>, ShowError> {
    let width = width.bytes();
    if value.len() % width != 0 {
        return Err(ShowError::Uneven);
    }
    let mut shown = Vec::new(alloc);
    for bytes in value.chunks(width) {
        if !shown.is_empty() {
            shown.push(b' ').map_err(AllocError::from)?;
        }
        add_number(alloc, &mut shown, notation, bytes)?;
    }
    Ok(shown)
}

/// A value as it is asked for. Where nothing is said: texts, if it is such; else numbers of four bytes with their sign, or bytes.
pub fn shown(alloc: Global, kind: ValueType, value: &[u8]) -> Result<Vec<u8>, ShowError> {
    let notation = match kind.notation {
        Some(notation) => notation,
        None if are_texts(value) => Notation::Text,
        None => Notation::Signed,
    };
    if notation == Notation::Text {
        return show_texts(alloc, value);
    }
    let width = match kind.width {
        Some(width) => width,
        None if value.len() % 4 == 0 => Width::Cell,
        None => Width::Byte,
    };
    show_numbers(alloc, notation, width, value)
}
