//! Tokens of a text that may be half written.

/// Bytes of a text: the first, and the one behind the last.
#[derive(Clone, Copy, PartialEq, Eq, Debug)]
pub struct Span {
    pub start: usize,
    pub end: usize,
}

impl Span {
    /// Whether a place lies in these bytes or right behind them.
    pub fn touches(&self, place: usize) -> bool {
        self.start <= place && place <= self.end
    }
}

/// What a token is.
#[derive(Clone, Copy, PartialEq, Eq, Debug)]
pub enum Kind {
    /// `label:`, with its colon
    Label,
    /// `&label`, or `&` alone while it is written
    Reference,
    /// `&{/path}`
    PathReference,
    /// a name, a number or a word of C
    Word,
    /// `"text"`, to the line's end where it isn't closed
    Text,
    /// `'c'`
    Character,
    /// `/word/`
    Keyword,
    /// `/` alone
    Slash,
    Brace,
    EndBrace,
    /// `<` that begins cells
    Less,
    /// `>` that ends cells
    Greater,
    Paren,
    EndParen,
    Square,
    EndSquare,
    Equals,
    Semicolon,
    Comma,
    /// `#` and the name of a directive, as `#include`
    Directive,
    /// the end of a directive's line
    DirectiveEnd,
    /// `<file>` behind `#include`
    Header,
    Comment,
    Other,
}

/// A token and its bytes.
#[derive(Clone, Copy, PartialEq, Eq, Debug)]
pub struct Token {
    pub kind: Kind,
    pub span: Span,
}
