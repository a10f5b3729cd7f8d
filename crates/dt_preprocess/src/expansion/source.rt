//! Where the tokens behind a line come from: the next lines of its file.

use crate::files::directive::names_directive;
use crate::lexing::lexer::{Lexed, Line};
use crate::refusal::{Fault, Reason};
use crate::token::Token;
use crate::words::{Kind, Words};

/// The most tokens that come from one line.
pub(crate) const MAX_TOKENS: usize = 4_000_000;

/// The lines behind one, of which a call may take some; none for an expression of `#if`. How many tokens may come yet.
#[derive(Drop)]
pub(crate) struct Source<'f> {
    file: Option<&'f Lexed>,
    next: usize,
    left: usize,
}

impl<'f> Source<'f> {
    pub(crate) fn of(file: &'f Lexed, next: usize) -> Self {
        Source {
            file: Some(file),
            next,
            left: MAX_TOKENS,
        }
    }

    pub(crate) fn none() -> Self {
        Source {
            file: None,
            next: 0,
            left: MAX_TOKENS,
        }
    }

    /// Counts tokens that came.
    pub(crate) fn spend(&mut self, count: usize, token: &Token) -> Result<(), Fault> {
        if count > self.left {
            return Err(Fault::new(Reason::TooManyTokens, token.place, token.word));
        }
        self.left = self.left.saturating_sub(count);
        Ok(())
    }

    /// The number of the next line.
    pub(crate) fn next(&self) -> usize {
        self.next
    }

    fn line(&self) -> Option<&'f [Token]> {
        let file = self.file?;
        let line: &Line = file.lines.get(self.next)?;
        Some(file.tokens_of(*line))
    }

    /// The next line, where it begins with `(`.
    pub(crate) fn opening(&mut self) -> Option<&'f [Token]> {
        let line = self.line()?;
        if line.first()?.kind != Kind::Open {
            return None;
        }
        self.next = self.next.saturating_add(1);
        Some(line)
    }

    /// The next line within a call: a directive is refused there.
    pub(crate) fn within_call(&mut self, words: &Words) -> Result<Option<&'f [Token]>, Fault> {
        let Some(line) = self.line() else {
            return Ok(None);
        };
        if let Some(first) = line.first() {
            if first.kind == Kind::Hash && names_directive(words, line) {
                let word = line.get(1).unwrap_or(first).word;
                return Err(Fault::new(Reason::Unserved, first.place, word));
            }
        }
        self.next = self.next.saturating_add(1);
        Ok(Some(line))
    }
}
