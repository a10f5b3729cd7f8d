//! Lines and columns as editors count them (Language Server Protocol 3.17, "Text Documents"): from 0, columns in UTF-16 code units; a
//! line ends with LF, CR LF or CR.

use crate::lexing::bytes::behind;
use std::alloc::{AllocError, Global};

/// How many bytes are counted at once.
const BLOCK: usize = 1024;

/// A line and a column, from 0.
#[derive(Clone, Copy, PartialEq, Eq, Debug)]
pub struct Place {
    pub line: usize,
    pub column: usize,
}

/// Where the lines of a text begin, and how many UTF-16 code units stand before each block of 1,024 bytes.
#[derive(Drop)]
pub struct Lines {
    starts: Vec<usize>,
    blocks: Vec<usize>,
}

/// The code units of a character, counted at its first byte in UTF-8.
fn units_of(c: u8) -> usize {
    match c {
        0x80..=0xbf => 0,
        0xf0..=0xff => 2,
        _ => 1,
    }
}

/// The code units of bytes.
fn units_in(s: &[u8]) -> usize {
    let mut units: usize = 0;
    for c in s {
        units = units.saturating_add(units_of(*c));
    }
    units
}

/// How many bytes have so many code units, or all.
fn bytes_with(s: &[u8], units: usize) -> usize {
    let mut left = units;
    for (i, c) in s.iter().enumerate() {
        let own = units_of(*c);
        if own > left || own > 0 && left == 0 {
            return i;
        }
        left = left.saturating_sub(own);
    }
    s.len()
}

/// Whether a line ends with a byte that has this one behind it.
fn ends_line(c: u8, next: Option<&u8>) -> bool {
    c == b'\n' || c == b'\r' && next != Some(&b'\n')
}

impl Lines {
    pub fn new(alloc: Global, text: &[u8]) -> Result<Lines, AllocError> {
        Ok(Lines {
            starts: starts_of(alloc, text)?,
            blocks: blocks_of(alloc, text)?,
        })
    }

    /// How many code units stand before a byte.
    fn units_before(&self, text: &[u8], place: usize) -> usize {
        let block = place / BLOCK;
        let start = block.saturating_mul(BLOCK);
        let before = self.blocks.get(block).copied().unwrap_or(0);
        let rest = text.get(start..place).unwrap_or(b"");
        before.saturating_add(units_in(rest))
    }

    fn start_of(&self, line: usize) -> Option<usize> {
        self.starts.get(line).copied()
    }

    /// The line and column of a byte of the text, or of its end.
    pub fn place(&self, text: &[u8], place: usize) -> Place {
        let place = place.min(text.len());
        let line = self
            .starts
            .as_slice()
            .partition_point(|start| *start <= place)
            .saturating_sub(1);
        let start = self.start_of(line).unwrap_or(0);
        let units = self.units_before(text, place);
        Place {
            line,
            column: units.saturating_sub(self.units_before(text, start)),
        }
    }

    /// The line's bytes without its end.
    fn end_of(&self, text: &[u8], line: usize) -> usize {
        let end = match self.start_of(line.saturating_add(1)) {
            Some(next) => next,
            None => return text.len(),
        };
        let start = self.start_of(line).unwrap_or(end);
        match text.get(start..end).unwrap_or(b"") {
            [.., b'\r', b'\n'] => end.saturating_sub(2),
            _ => end.saturating_sub(1),
        }
    }

    /// The byte at a line and a column: behind the line's last character where it has fewer, at the text's end where there is no
    /// such line.
    pub fn offset(&self, text: &[u8], place: Place) -> usize {
        let Some(start) = self.start_of(place.line) else {
            return text.len();
        };
        let end = self.end_of(text, place.line);
        let wanted = self.units_before(text, start).saturating_add(place.column);
        let block = self
            .blocks
            .as_slice()
            .partition_point(|units| *units <= wanted)
            .saturating_sub(1);
        let from = block.saturating_mul(BLOCK).max(start);
        let left = wanted.saturating_sub(self.units_before(text, from));
        let rest = text.get(from..end).unwrap_or(b"");
        from.saturating_add(bytes_with(rest, left)).min(end)
    }

    /// The bytes of a line, from 0, without its end.
    pub fn line<'t>(&self, text: &'t [u8], line: usize) -> &'t [u8] {
        match self.start_of(line) {
            Some(start) => text.get(start..self.end_of(text, line)).unwrap_or(b""),
            None => b"",
        }
    }

    /// Where a line, from 0, begins, or the text's end.
    pub fn begin(&self, text: &[u8], line: usize) -> usize {
        self.start_of(line).unwrap_or(text.len())
    }
}

fn starts_of(alloc: Global, text: &[u8]) -> Result<Vec<usize>, AllocError> {
    let mut starts = Vec::new(alloc);
    starts.push(0)?;
    for (i, c) in text.iter().enumerate() {
        let behind = i.saturating_add(1);
        if ends_line(*c, text.get(behind)) {
            starts.push(behind)?;
        }
    }
    Ok(starts)
}

fn blocks_of(alloc: Global, text: &[u8]) -> Result<Vec<usize>, AllocError> {
    let mut blocks = Vec::new(alloc);
    let mut units: usize = 0;
    let mut left = text;
    for _ in 0..=text.len() / BLOCK {
        blocks.push(units)?;
        units = units.saturating_add(units_in(left.get(..BLOCK).unwrap_or(left)));
        left = behind(left, BLOCK);
    }
    Ok(blocks)
}
