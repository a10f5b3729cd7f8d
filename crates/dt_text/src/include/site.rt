//! Where in the user's files a text stops short.

use crate::include::inclusion::Incomplete;
use crate::include::place::Span;
use crate::include::places::{Line, columns_of, line_of};
use std::alloc::{AllocError, AllocFailed, Global};

/// Words of a file of the user's, with the line that they begin in.
#[derive(Debug, Drop)]
pub struct Site {
    /// The file's name.
    pub file: Vec<u8>,
    /// From 1.
    pub line: usize,
    /// The line's text.
    pub text: Vec<u8>,
    /// The words' columns in it, from 1: the first, and the one behind the last.
    pub columns: Span,
}

impl Site {
    /// Words of a file, which begin in a line of the user's.
    pub(crate) fn new(
        alloc: Global,
        line: &Line,
        bytes: &[u8],
        words: Span,
    ) -> Result<Site, AllocError> {
        Ok(Site {
            file: Vec::from_slice(alloc, line.file.as_slice())?,
            line: line.line,
            text: Vec::from_slice(alloc, line_of(bytes, words))?,
            columns: columns_of(bytes, words),
        })
    }
}

/// Why a text isn't whole, and where that shows, if it shows at words.
#[derive(Drop)]
pub struct Shortfall {
    pub reason: Incomplete,
    pub site: Option<Site>,
}

/// Want of memory shows nowhere.
const NO_MEMORY: Shortfall = Shortfall {
    reason: Incomplete::NoMemory,
    site: None,
};

impl From<AllocError> for Shortfall {
    ghost use Rattle.std.specs.Prelude.{◌≡◌};
    ghost use Rattle.dt_text.specs.declared.include.inclusion.Incomplete.TheVariants.{NoMemory};

    ghost from_gives = { λ _ shortfall. shortfall.reason ≡ NoMemory };

    fn from(_error: AllocError) -> Self {
        NO_MEMORY
    }
}

impl<T: Drop> From<AllocFailed<T>> for Shortfall {
    ghost use Rattle.std.specs.Prelude.{◌≡◌};
    ghost use Rattle.dt_text.specs.declared.include.inclusion.Incomplete.TheVariants.{NoMemory};

    ghost from_gives = { λ _ shortfall. shortfall.reason ≡ NoMemory };

    fn from(_error: AllocFailed<T>) -> Self {
        NO_MEMORY
    }
}
