//! What was refused of a text: its number, and the byte where its fault has one.

use dt_text::lexeme::Lexeme;

/// A refusal of a text: by which number, and at which of its bytes where that is known, as it is of 10 to 16 and of 20 to 28.
#[derive(Clone, Copy, Debug, PartialEq, Eq)]
pub struct Refused {
    pub number: u8,
    pub offset: Option<u32>,
}

/// The lexeme that is refused, by its index, which is behind the last one where none is, and a byte of it.
#[derive(Clone, Copy)]
pub(crate) struct Stop {
    pub index: usize,
    pub offset: usize,
}

/// The lexeme that this byte of their text is in.
pub(crate) fn stop_at(lexemes: &[Lexeme], offset: u32) -> Stop {
    let index = lexemes.partition_point(|lexeme| lexeme.end <= offset);
    let start = match lexemes.get(index) {
        Some(lexeme) => lexeme.start,
        None => offset,
    };
    Stop {
        index,
        offset: offset.saturating_sub(start) as usize,
    }
}
