//! Why a text isn't preprocessed, and where.

use std::alloc::{AllocError, AllocFailed};

/// Why a text isn't preprocessed.
#[derive(Clone, Copy, PartialEq, Eq, Debug)]
pub enum Reason {
    NoMemory,
    /// No file of this name.
    NoFile,
    /// Files, calls of macros or macros within macros, deeper than 200.
    TooDeep,
    /// More than 4,000,000 tokens from one line, or more than 256 parameters.
    TooManyTokens,
    /// More than 64 MiB of text.
    TooLong,
    /// A comment that isn't closed.
    OpenComment,
    /// What the C preprocessor has and no board uses, as `#pragma`, `__LINE__` or `?:`.
    Unserved,
    /// A directive that isn't formed as C11, 6.10, says.
    Directive,
    /// An expression of `#if` that has no value.
    Condition,
    /// A call with a wrong number of arguments, or one that isn't closed.
    Call,
    /// `#else`, `#elif` or `#endif` without `#if`, or an `#if` that isn't closed in its file.
    Conditional,
    /// `#error`, with its text as the word.
    Error,
}

impl Reason {
    ghost use Rattle.std.specs.Prelude.{◌≡◌};
    ghost use Rattle.dt_preprocess.specs.Reason.{number_of, name_of};

    /// The number that the program prints.
    pub fn number(self) -> u8
        ensures { result ≡ number_of self }
    {
        match self {
            Reason::NoMemory => 0,
            Reason::NoFile => 83,
            Reason::TooDeep => 84,
            Reason::TooManyTokens => 85,
            Reason::TooLong => 86,
            Reason::OpenComment => 87,
            Reason::Unserved => 88,
            Reason::Directive => 89,
            Reason::Condition => 90,
            Reason::Call => 91,
            Reason::Conditional => 92,
            Reason::Error => 93,
        }
    }

    /// The name that the program prints.
    pub fn name(self) -> &'static str
        ensures { result.now ≡ name_of self }
    {
        match self {
            Reason::NoMemory => "NoMemory",
            Reason::NoFile => "NoHeader",
            Reason::TooDeep => "NestedTooDeep",
            Reason::TooManyTokens => "TooManyTokens",
            Reason::TooLong => "TextTooLong",
            Reason::OpenComment => "OpenComment",
            Reason::Unserved => "Unserved",
            Reason::Directive => "BadDirective",
            Reason::Condition => "BadCondition",
            Reason::Call => "BadCall",
            Reason::Conditional => "BadConditional",
            Reason::Error => "ErrorDirective",
        }
    }
}

/// Why a text isn't preprocessed, and the place of the token that it is of.
#[derive(Drop)]
pub struct Refusal {
    pub reason: Reason,
    /// The path of the file.
    pub path: Vec<u8>,
    /// The physical line, from 1.
    pub line: usize,
    /// The byte within its line, from 1.
    pub column: usize,
    /// The token or the name that it is of.
    pub word: Vec<u8>,
}

/// Where a token is spelled: the number of its file, its physical line and its column, both from 1.
#[derive(Clone, Copy)]
pub(crate) struct Place {
    pub file: usize,
    pub line: usize,
    pub column: usize,
}

impl Place {
    /// The first byte of the first file.
    pub(crate) const START: Place = Place {
        file: 0,
        line: 1,
        column: 1,
    };
}

/// A refusal within the run: the number of its word in place of its text.
#[derive(Clone, Copy)]
pub(crate) struct Fault {
    pub reason: Reason,
    pub place: Place,
    pub word: usize,
}

impl Fault {
    pub(crate) fn new(reason: Reason, place: Place, word: usize) -> Self {
        Fault {
            reason,
            place,
            word,
        }
    }

    /// A fault that has no word of its own: the empty one.
    pub(crate) fn bare(reason: Reason, place: Place) -> Self {
        Fault {
            reason,
            place,
            word: 0,
        }
    }
}

impl From<AllocError> for Fault {
    fn from(_error: AllocError) -> Self {
        Fault::bare(Reason::NoMemory, Place::START)
    }
}

impl<T: Drop> From<AllocFailed<T>> for Fault {
    fn from(_error: AllocFailed<T>) -> Self {
        Fault::bare(Reason::NoMemory, Place::START)
    }
}
