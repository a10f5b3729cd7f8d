//! Bytes as lawful text: what is no UTF-8, and control characters but the tab, as `\xNN`.

use std::alloc::AllocError;
use std::str;

/// What is shown of the front of a text.
pub(crate) enum Piece<'a> {
    /// a character
    Character(&'a str),
    /// a byte that is none
    Byte(u8),
}

// The character in front, if one stands there that can be shown.
fn character(s: &[u8]) -> Option<&str> {
    let first = *s.first()?;
    if first < 32 && first != b'\t' || first == 127 {
        return None;
    }
    for len in 1..5 {
        if let Some(front) = s.get(..len) {
            if let Ok(character) = str::from_utf8(front) {
                return Some(character);
            }
        }
    }
    None
}

/// What stands in front, and how many bytes that are.
pub(crate) fn first_piece(s: &[u8]) -> Option<(Piece<'_>, usize)> {
    let first = *s.first()?;
    match character(s) {
        Some(character) => Some((Piece::Character(character), character.len())),
        None => Some((Piece::Byte(first), 1)),
    }
}

/// How many bytes the character in front has, or 1 where none is.
pub(crate) fn character_len(s: &[u8]) -> usize {
    match character(s) {
        Some(character) => character.len(),
        None => 1,
    }
}

/// Writes bytes as text.
pub(crate) fn push_shown(out: &mut String, bytes: &[u8]) -> Result<(), AllocError> {
    let mut left = bytes;
    for _ in 0..bytes.len() {
        let Some((piece, len)) = first_piece(left) else {
            return Ok(());
        };
        match piece {
            Piece::Character(character) => out.push_str(character)?,
            Piece::Byte(byte) => write!(out, "\\x{byte:02x}")?,
        }
        left = left.get(len..).unwrap_or(&[]);
    }
    Ok(())
}

/// Writes as much blank as bytes take, tabs as tabs.
pub(crate) fn push_blank(out: &mut String, bytes: &[u8]) -> Result<(), AllocError> {
    let mut left = bytes;
    for _ in 0..bytes.len() {
        let Some((piece, len)) = first_piece(left) else {
            return Ok(());
        };
        match piece {
            Piece::Character("\t") => out.push_str("\t")?,
            Piece::Character(_) => out.push_str(" ")?,
            Piece::Byte(_) => out.push_str("    ")?,
        }
        left = left.get(len..).unwrap_or(&[]);
    }
    Ok(())
}

/// Writes a mark as wide as bytes are, of one place at least.
pub(crate) fn push_mark(out: &mut String, bytes: &[u8]) -> Result<(), AllocError> {
    let mut left = bytes;
    if left.is_empty() {
        return out.push_str("^");
    }
    for _ in 0..bytes.len() {
        let Some((piece, len)) = first_piece(left) else {
            return Ok(());
        };
        match piece {
            Piece::Character(_) => out.push_str("^")?,
            Piece::Byte(_) => out.push_str("^^^^")?,
        }
        left = left.get(len..).unwrap_or(&[]);
    }
    Ok(())
}
