//! What is made.
use crate::layout::columns::{TAB, column_behind};
use crate::style::Hex;
use crate::tokens::{Token, put_spelled};
use std::alloc::{AllocError, Global};

/// A text that is made, and the column behind it.
#[derive(Drop)]
pub(crate) struct Writer {
    made: Vec<u8>,
    column: usize,
}

impl Writer {
    pub(crate) fn new(alloc: Global) -> Writer {
        Writer {
            made: Vec::new(alloc),
            column: 0,
        }
    }

    pub(crate) fn column(&self) -> usize {
        self.column
    }

    pub(crate) fn into_text(self) -> Vec<u8> {
        self.made
    }

    /// White space within a line.
    pub(crate) fn put(&mut self, s: &[u8]) -> Result<(), AllocError> {
        self.made.extend_from_slice(s)?;
        self.column = column_behind(self.column, s);
        Ok(())
    }

    pub(crate) fn put_token(&mut self, hex: Hex, token: &Token) -> Result<(), AllocError> {
        put_spelled(hex, token.kind, token.bytes, &mut self.made)?;
        self.column = column_behind(self.column, token.bytes);
        Ok(())
    }

    /// The ends of so many lines.
    pub(crate) fn end_lines(&mut self, lines: usize) -> Result<(), AllocError> {
        for _ in 0..lines {
            self.made.push(b'\n')?;
        }
        self.column = 0;
        Ok(())
    }

    /// Tabs and blanks from the front of a line to this column.
    pub(crate) fn indent(&mut self, column: usize) -> Result<(), AllocError> {
        for _ in 0..column / TAB {
            self.made.push(b'\t')?;
        }
        for _ in 0..column % TAB {
            self.made.push(b' ')?;
        }
        self.column = column;
        Ok(())
    }
}
