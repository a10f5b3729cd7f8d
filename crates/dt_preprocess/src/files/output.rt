//! The text, with gcc's line markers (its manual, "Preprocessor Output").

ghost use Rattle.std.specs.Prelude.{◌≡◌, ◌↔◌, ◌<◌, IsTrue, vec_len};
ghost use Rattle.dt_preprocess.specs.Limits.{text_limit};

use crate::expansion::spelling::spell;
use crate::refusal::{Fault, Reason};
use crate::token::Token;
use crate::words::{Kind, MAX_TEXT, Words};
use std::alloc::{AllocError, Global};

/// How many lines are left empty before a marker is put in their place.
const MAX_EMPTY: usize = 8;

/// Why a marker stands in the text.
#[derive(Clone, Copy, PartialEq, Eq)]
pub(crate) enum Mark {
    /// lines were left out, or a file begins that none includes
    Line,
    /// an included file begins
    Enter,
    /// a file goes on behind what it included
    Return,
}

/// The text, and the number that its next line has by the last marker.
#[derive(Drop)]
pub(crate) struct Output {
    alloc: Global,
    text: Vec<u8>,
    line: usize,
}

impl Output {
    pub(crate) fn new(alloc: Global) -> Self {
        Output {
            alloc,
            text: Vec::new(alloc),
            line: 1,
        }
    }

    pub(crate) fn into_text(self) -> Vec<u8>
        ensures { result ≡ self.text }
    {
        let Output {
            alloc: _,
            text,
            line: _,
        } = self;
        text
    }

    fn put_path(&mut self, path: &[u8]) -> Result<(), AllocError> {
        for c in path {
            match *c {
                b'\\' => self.text.extend_from_slice(b"\\\\")?,
                b'"' => self.text.extend_from_slice(b"\\\"")?,
                b'\n' => self.text.extend_from_slice(b"\\012")?,
                c => self.text.push(c)?,
            }
        }
        Ok(())
    }

    /// Puts a marker: the next line is this one of a file.
    pub(crate) fn mark(&mut self, path: &[u8], line: usize, mark: Mark) -> Result<(), AllocError> {
        let number = format!(in self.alloc; "# {line} \"")?;
        self.text.extend_from_slice(number.as_bytes())?;
        self.put_path(path)?;
        let flag: &[u8] = match mark {
            Mark::Line => b"\"\n",
            Mark::Enter => b"\" 1\n",
            Mark::Return => b"\" 2\n",
        };
        self.text.extend_from_slice(flag)?;
        self.line = line;
        Ok(())
    }

    /// Goes to a line of a file: by empty lines, or by a marker.
    fn go_to(&mut self, path: &[u8], line: usize) -> Result<(), AllocError> {
        if line < self.line || line.saturating_sub(self.line) >= MAX_EMPTY {
            return self.mark(path, line, Mark::Line);
        }
        for _ in self.line..line {
            self.text.push(b'\n')?;
        }
        Ok(())
    }

    /// Whether the text is longer than it may be.
    pub(crate) fn is_too_long(&self) -> bool
        ensures { IsTrue result ↔ (text_limit < vec_len self.now.text) }
    {
        self.text.len() > MAX_TEXT
    }

    /// Puts the text of tokens at the line and behind the column of a token.
    pub(crate) fn put(
        &mut self,
        words: &Words,
        path: &[u8],
        first: &Token,
        tokens: &[Token],
    ) -> Result<(), Fault> {
        let column = first.place.column;
        if column > MAX_TEXT.saturating_sub(self.text.len()) {
            return Err(Fault::new(Reason::TooLong, first.place, first.word));
        }
        self.go_to(path, first.place.line)?;
        for _ in 1..column {
            self.text.push(b' ')?;
        }
        if column == 1 && is_made_hash(first, tokens) {
            self.text.push(b' ')?;
        }
        spell(words, &mut self.text, tokens)?;
        self.text.push(b'\n')?;
        self.line = first.place.line.saturating_add(1);
        Ok(())
    }
}

/// Whether tokens begin with a `#` that a macro made: it isn't to be read as a line marker's.
fn is_made_hash(first: &Token, tokens: &[Token]) -> bool {
    match tokens.first() {
        Some(head) => head.kind == Kind::Hash && first.kind != Kind::Hash,
        None => false,
    }
}
