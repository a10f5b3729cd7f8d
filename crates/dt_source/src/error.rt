//! Why a text is refused.
ghost use Rattle.std.specs.Prelude.{◌≡◌};
ghost use Rattle.dt_source.specs.SourceError.{number_of, name_of, kind_of_fault, kind_of_refusal};

use crate::place::Place;
use dt_text::lexeme::{FaultKind, RefusalKind};
use std::fmt;
use thiserror::Error;

/// What is wrong with a text.
#[derive(Debug, Clone, Copy, PartialEq, Eq, Drop)]
pub enum SourceErrorKind {
    NoMemory,
    Syntax,
    ElementRange,
    DivideByZero,
    BadBits,
    LiteralRange,
    BadEscape,
    TooDeep,
    TooLong,
}

impl fmt::Display for SourceErrorKind {
    fn fmt<W: fmt::Write>(&self, f: &mut fmt::Formatter<W>) -> fmt::Result {
        f.write_str(self.message())
    }
}

impl std::error::Error for SourceErrorKind {}

/// Why a text is refused, and where. Want of memory has no place: offset and line are 0 there.
#[derive(Debug, Clone, Copy, PartialEq, Eq, Drop, Error)]
#[error("{kind} in line {}", .place.line)]
pub struct SourceError {
    pub kind: SourceErrorKind,
    pub place: Place,
}

impl SourceErrorKind {
    /// The number by which users know the error, 0 for want of memory.
    pub fn number(&self) -> u8
        ensures { result ≡ number_of self.now }
    {
        match self {
            SourceErrorKind::NoMemory => 0,
            SourceErrorKind::Syntax => 10,
            SourceErrorKind::ElementRange => 11,
            SourceErrorKind::DivideByZero => 12,
            SourceErrorKind::BadBits => 13,
            SourceErrorKind::LiteralRange => 14,
            SourceErrorKind::BadEscape => 15,
            SourceErrorKind::TooDeep => 16,
            SourceErrorKind::TooLong => 17,
        }
    }

    /// The name that stands beside the number.
    pub fn name(&self) -> &'static str
        ensures { result.now ≡ name_of self.now }
    {
        match self {
            SourceErrorKind::NoMemory => "NoMemory",
            SourceErrorKind::Syntax => "Syntax",
            SourceErrorKind::ElementRange => "ElementRange",
            SourceErrorKind::DivideByZero => "DivideByZero",
            SourceErrorKind::BadBits => "BadBits",
            SourceErrorKind::LiteralRange => "LiteralRange",
            SourceErrorKind::BadEscape => "BadEscape",
            SourceErrorKind::TooDeep => "TooDeep",
            SourceErrorKind::TooLong => "TooLong",
        }
    }

    // What is wrong, for people.
    fn message(&self) -> &'static str {
        match self {
            SourceErrorKind::NoMemory => "out of memory",
            SourceErrorKind::Syntax => "no lexeme, or one that can't follow",
            SourceErrorKind::ElementRange => "an element that its width can't hold",
            SourceErrorKind::DivideByZero => "a division by zero",
            SourceErrorKind::BadBits => {
                "a width other than 8, 16, 32 and 64, or a reference in cells not 32 wide"
            }
            SourceErrorKind::LiteralRange => "a literal that isn't a number below 2^64",
            SourceErrorKind::BadEscape => "an escape that stands for no byte",
            SourceErrorKind::TooDeep => "nested too deep",
            SourceErrorKind::TooLong => "longer than 16 MiB",
        }
    }
}

impl SourceError {
    /// The number by which users know the error, 0 for want of memory.
    pub fn number(&self) -> u8
        ensures { result ≡ number_of self.now.kind }
    {
        self.kind.number()
    }

    /// The name that stands beside the number.
    pub fn name(&self) -> &'static str
        ensures { result.now ≡ name_of self.now.kind }
    {
        self.kind.name()
    }
}

pub(crate) fn kind_of_fault(kind: FaultKind) -> SourceErrorKind
    ensures { result ≡ kind_of_fault kind }
{
    match kind {
        FaultKind::ElementRange => SourceErrorKind::ElementRange,
        FaultKind::DivideByZero => SourceErrorKind::DivideByZero,
        FaultKind::BadBits => SourceErrorKind::BadBits,
        FaultKind::LiteralRange => SourceErrorKind::LiteralRange,
        FaultKind::BadEscape => SourceErrorKind::BadEscape,
    }
}

pub(crate) fn kind_of_refusal(kind: RefusalKind) -> SourceErrorKind
    ensures { result ≡ kind_of_refusal kind }
{
    match kind {
        RefusalKind::Syntax => SourceErrorKind::Syntax,
        RefusalKind::TooDeep => SourceErrorKind::TooDeep,
    }
}
