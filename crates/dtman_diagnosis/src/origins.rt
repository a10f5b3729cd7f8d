//! Where bytes of a text came from.

use crate::diagnosis::{Location, copied};
use dt_text::include::{Span, columns_of, line_of, user_place};
use dt_text::lexeme::{Language, line_of as line_number};
use dt_text::place::position_of;
use std::alloc::{AllocError, Global};

/// A text, the language that it is in, and the name of the file in which no line marker names another.
#[derive(Clone, Copy)]
pub(crate) struct Origin<'a> {
    pub language: Language,
    pub file: &'a [u8],
    pub text: &'a [u8],
    /// The text whose lines are shown: the same, but for what stands there in the place of other faults.
    pub shown: &'a [u8],
}

impl<'a> Origin<'a> {
    /// The file alone.
    pub fn whole(&self, alloc: Global) -> Result<Location, AllocError> {
        Ok(Location::File {
            file: copied(alloc, self.file)?,
        })
    }

    /// The location of bytes of the text: file and line by the line markers that the language knows.
    pub fn location(&self, alloc: Global, span: Span) -> Result<Location, AllocError> {
        match self.language {
            Language::Profile => self.in_profile(alloc, span),
            Language::Dtc => self.in_dtc(alloc, span),
        }
    }

    fn in_profile(&self, alloc: Global, span: Span) -> Result<Location, AllocError> {
        let position = position_of(self.text, span.start);
        let line = line_around(self.shown, span.start, position.column);
        Ok(Location::Text {
            file: copied(alloc, position.file.unwrap_or(self.file))?,
            line: position.line,
            column: position.column,
            text: copied(alloc, line)?,
            marked: span.end.saturating_sub(span.start),
        })
    }

    fn in_dtc(&self, alloc: Global, span: Span) -> Result<Location, AllocError> {
        let start = u32::try_from(span.start).unwrap_or(u32::MAX);
        let place = user_place(self.file, self.text, line_number(self.text, start));
        let columns = columns_of(self.text, span);
        Ok(Location::Text {
            file: copied(alloc, place.file)?,
            line: place.line,
            column: columns.start,
            text: copied(alloc, without_return(line_of(self.shown, span)))?,
            marked: columns.end.saturating_sub(columns.start),
        })
    }
}

// The line of the text round an offset, whose column is known.
fn line_around(text: &[u8], offset: usize, column: usize) -> &[u8] {
    let start = offset.saturating_sub(column.saturating_sub(1));
    let line = text.get(start..).unwrap_or(&[]);
    let end = line
        .iter()
        .position(|c| *c == b'\n' || *c == b'\r')
        .unwrap_or(line.len());
    line.get(..end).unwrap_or(line)
}

fn without_return(line: &[u8]) -> &[u8] {
    match line {
        [text @ .., b'\r'] => text,
        _ => line,
    }
}
