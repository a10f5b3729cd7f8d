//! The kinds of lexeme of a devicetree source, and why a text is no source.
ghost use Rattle.std.specs.Prelude.{◌≡◌};
ghost use Rattle.dt_text.specs.declared.lexeme.lexeme.ReadError.TheVariants.{NoMemory, Refused};

use std::alloc::{AllocError, AllocFailed};

/// What a lexeme is. `Less`, `Greater` and `Slash` are punctuation outside parentheses and operators inside.
#[derive(Clone, Copy, Debug, PartialEq, Eq)]
pub enum Kind {
    /// `/dts-v1/`
    Version,
    /// `/plugin/`
    Plugin,
    /// `/memreserve/`
    MemReserve,
    /// `/bits/`
    Bits,
    /// `/delete-node/`
    DeleteNode,
    /// `/delete-property/`
    DeleteProperty,
    /// `/omit-if-no-ref/`, in dtc's language
    OmitIfNoRef,
    /// `/incbin/`, in dtc's language
    IncludeBinary,
    /// `label:`, with its colon
    Label,
    /// a node's or property's name
    Name,
    /// a number
    Literal,
    /// `"text"`, with its quotes
    Text,
    /// `'c'`, with its quotes, in dtc's language
    Character,
    /// `&label`
    Reference,
    /// `&{/path}`
    PathReference,
    /// two hex digits
    Pair,
    Semicolon,
    Brace,
    EndBrace,
    Equals,
    Comma,
    Less,
    Greater,
    Square,
    EndSquare,
    Paren,
    EndParen,
    Slash,
    Question,
    Colon,
    OrOr,
    AndAnd,
    Or,
    Xor,
    And,
    EqualEqual,
    NotEqual,
    LessEqual,
    GreaterEqual,
    ShiftLeft,
    ShiftRight,
    Plus,
    Minus,
    Star,
    Percent,
    Tilde,
    Bang,
}

/// A lexeme, and the places of its first byte and of the byte behind it in the text.
#[derive(Clone, Copy, Debug, PartialEq, Eq)]
pub struct Lexeme {
    pub kind: Kind,
    pub start: u32,
    pub end: u32,
}

/// What a value can have wrong, by the number of its refusal.
#[derive(Clone, Copy, Debug, PartialEq, Eq)]
pub enum FaultKind {
    /// an element that its width can't hold
    ElementRange = 11,
    /// a zero divisor of `/` or `%`
    DivideByZero = 12,
    /// a width other than 8, 16, 32 and 64, or a reference in cells not 32 wide
    BadBits = 13,
    /// a literal that isn't a number below 2^64
    LiteralRange = 14,
    /// an escape in a string that stands for no byte
    BadEscape = 15,
}

/// A fault of a value, and its place in the text.
#[derive(Clone, Copy, Debug, PartialEq, Eq)]
pub struct Fault {
    pub kind: FaultKind,
    pub place: u32,
}

/// Why a text isn't in the bounded grammar.
#[derive(Clone, Copy, Debug, PartialEq, Eq)]
pub enum RefusalKind {
    /// no lexeme, or one that can't follow
    Syntax = 10,
    /// nested deeper than 64
    TooDeep = 16,
}

/// Why a text isn't in the bounded grammar, and the place in the text where that shows.
#[derive(Clone, Copy, Debug, PartialEq, Eq)]
pub struct Refusal {
    pub kind: RefusalKind,
    pub place: u32,
}

/// Why nothing was read.
#[derive(Clone, Copy, Debug, PartialEq, Eq)]
pub enum ReadError {
    NoMemory,
    Refused(Refusal),
}

impl From<AllocError> for ReadError {
    ghost from_gives = { λ _ e. e ≡ NoMemory };

    fn from(_e: AllocError) -> ReadError {
        ReadError::NoMemory
    }
}

impl<T: Drop> From<AllocFailed<T>> for ReadError {
    ghost from_gives = { λ _ e. e ≡ NoMemory };

    fn from(_e: AllocFailed<T>) -> ReadError {
        ReadError::NoMemory
    }
}

impl From<Refusal> for ReadError {
    ghost from_gives = { λ r e. e ≡ Refused r };

    fn from(refusal: Refusal) -> ReadError {
        ReadError::Refused(refusal)
    }
}
