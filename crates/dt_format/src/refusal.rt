//! Why a text isn't laid out, and where.
use std::alloc::{AllocError, AllocFailed};
use std::error::Error;
use std::fmt;

/// Why a text isn't laid out.
#[derive(Clone, Copy, PartialEq, Eq, Debug)]
pub enum RefusalKind {
    /// A comment that isn't closed, also one that begins in a directive.
    OpenComment,
    /// A string that isn't closed.
    OpenString,
    /// A character literal that isn't closed.
    OpenCharacter,
    /// A path behind `&{` that isn't closed.
    OpenPath,
    /// A brace that isn't closed.
    OpenBrace,
    /// A closing brace without one that it closes.
    StrayBrace,
    /// A node deeper than 64.
    TooDeep,
    /// The text can't be laid out with its tokens as they are. The place is where the text begins.
    Changed,
}

impl fmt::Display for RefusalKind {
    fn fmt<W: fmt::Write>(&self, f: &mut fmt::Formatter<W>) -> fmt::Result {
        f.write_str(match self {
            RefusalKind::OpenComment => "this comment isn't closed",
            RefusalKind::OpenString => "this string isn't closed",
            RefusalKind::OpenCharacter => "this character literal isn't closed",
            RefusalKind::OpenPath => "this path isn't closed",
            RefusalKind::OpenBrace => "this brace isn't closed",
            RefusalKind::StrayBrace => "this brace closes nothing",
            RefusalKind::TooDeep => "this node is deeper than 64",
            RefusalKind::Changed => "the text can't be laid out with its tokens as they are",
        })
    }
}

/// Why a text isn't laid out, and where.
#[derive(Clone, Copy, PartialEq, Eq, Debug)]
pub struct Refusal {
    pub kind: RefusalKind,
    /// The byte of the text, from 0.
    pub place: usize,
}

/// Nothing is made.
#[derive(Clone, Copy, PartialEq, Eq, Debug)]
pub enum FormatError {
    Refused(Refusal),
    NoMemory,
}

impl fmt::Display for FormatError {
    fn fmt<W: fmt::Write>(&self, f: &mut fmt::Formatter<W>) -> fmt::Result {
        match self {
            FormatError::Refused(refusal) => refusal.kind.fmt(f),
            FormatError::NoMemory => f.write_str("out of memory"),
        }
    }
}

impl Error for FormatError {}

impl From<AllocError> for FormatError {
    ghost use Rattle.std.specs.Prelude.{◌≡◌};
    ghost use Rattle.dt_format.specs.declared.refusal.FormatError.TheVariants.{NoMemory};

    ghost from_gives = { λ _ e. e ≡ NoMemory };

    fn from(_e: AllocError) -> FormatError {
        FormatError::NoMemory
    }
}

impl<T: Drop> From<AllocFailed<T>> for FormatError {
    ghost use Rattle.std.specs.Prelude.{◌≡◌};
    ghost use Rattle.dt_format.specs.declared.refusal.FormatError.TheVariants.{NoMemory};

    ghost from_gives = { λ _ e. e ≡ NoMemory };

    fn from(_e: AllocFailed<T>) -> FormatError {
        FormatError::NoMemory
    }
}
