//! Groups of lines: `#if`, `#elif`, `#else` and `#endif`.

use crate::refusal::{Fault, Reason};
use crate::token::Token;

/// What became of the groups of one `#if`.
#[derive(Clone, Copy, PartialEq, Eq)]
enum Choice {
    /// this one is taken
    Taken,
    /// none so far
    Open,
    /// one before was, or all are within a group that is skipped
    Done,
}

/// The groups of one `#if`: its `#`, and whether `#else` was there.
#[derive(Clone, Copy)]
pub(crate) struct Group {
    choice: Choice,
    pub directive: Token,
    pub has_else: bool,
}

impl Group {
    pub(crate) fn new(holds: bool, directive: Token) -> Self {
        Group {
            choice: if holds { Choice::Taken } else { Choice::Open },
            directive,
            has_else: false,
        }
    }

    /// All of them are within a group that is skipped.
    pub(crate) fn skipped(directive: Token) -> Self {
        Group {
            choice: Choice::Done,
            directive,
            has_else: false,
        }
    }

    pub(crate) fn is_taken(&self) -> bool {
        self.choice == Choice::Taken
    }

    pub(crate) fn take(&mut self) {
        self.choice = Choice::Taken;
    }

    /// Begins the next group: gives whether its condition counts.
    pub(crate) fn go_on(&mut self, directive: &Token) -> Result<bool, Fault> {
        if self.has_else {
            return Err(Fault::new(Reason::Conditional, directive.place, directive.word));
        }
        if self.choice == Choice::Taken {
            self.choice = Choice::Done;
        }
        Ok(self.choice == Choice::Open)
    }
}
