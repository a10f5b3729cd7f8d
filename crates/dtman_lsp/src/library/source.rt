//! A text that is known.

use crate::writing::Page;
use dt_outline::{Lines, Outline, Span, outline, text_of};
use std::alloc::{AllocError, Global};

/// How the editor calls a text that is open in it.
#[derive(Drop)]
pub(crate) struct Opened {
    pub uri: String,
    pub version: Option<i64>,
}

/// A text with its outline and its lines.
#[derive(Drop)]
pub(crate) struct Source {
    /// Its path, as `address::normal` has it.
    pub path: Vec<u8>,
    pub text: Vec<u8>,
    pub outline: Outline,
    pub lines: Lines,
    /// None where it is a file on disk.
    pub opened: Option<Opened>,
    /// Whether there is such a file.
    pub is_there: bool,
}

impl Source {
    /// A text of a path.
    pub(crate) fn new(
        alloc: Global,
        path: Vec<u8>,
        text: Vec<u8>,
        opened: Option<Opened>,
    ) -> Result<Source, AllocError> {
        Ok(Source {
            outline: outline(alloc, text.as_slice())?,
            lines: Lines::new(alloc, text.as_slice())?,
            path,
            text,
            opened,
            is_there: true,
        })
    }

    /// That there is no file of a path.
    pub(crate) fn missing(alloc: Global, path: Vec<u8>) -> Result<Source, AllocError> {
        let mut source = Source::new(alloc, path, Vec::new(alloc), None)?;
        source.is_there = false;
        Ok(source)
    }

    pub(crate) fn page(&self) -> Page<'_> {
        Page {
            text: self.text.as_slice(),
            lines: &self.lines,
        }
    }

    /// The bytes of a span.
    pub(crate) fn bytes(&self, span: Span) -> &[u8] {
        text_of(self.text.as_slice(), span)
    }

    pub(crate) fn is_open(&self) -> bool {
        self.opened.is_some()
    }
}
