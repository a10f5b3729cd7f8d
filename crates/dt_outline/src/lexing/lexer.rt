//! The tokens of a text, one after the other, whatever is wrong in it.

use crate::lexing::bytes::{behind, is_blank, is_item, is_letter};
use crate::lexing::lengths::{
    blanks, closed_len, comment_len, directive_len, item_len, keyword_len, line_len, quoted_len,
    splice_len, word_len,
};
use crate::lexing::token::{Kind, Span, Token};

/// Reads tokens from a text.
#[derive(Drop)]
pub struct Lexer<'t> {
    text: &'t [u8],
    at: usize,
    /// Whether nothing but white space stands before it in its line.
    begins_line: bool,
    in_directive: bool,
    /// Whether the directive is `#include`.
    includes: bool,
    in_cells: bool,
    parens: usize,
    /// The last token but comments.
    last: Kind,
}

/// What stands at the front of the rest.
#[derive(Clone, Copy)]
enum Front {
    End,
    /// White space of so many bytes.
    Gap(usize),
    LineEnd,
    /// A token of so many bytes.
    Token(Kind, usize),
}

fn punctuation(c: u8) -> Kind {
    match c {
        b'{' => Kind::Brace,
        b'}' => Kind::EndBrace,
        b'(' => Kind::Paren,
        b')' => Kind::EndParen,
        b'[' => Kind::Square,
        b']' => Kind::EndSquare,
        b';' => Kind::Semicolon,
        b',' => Kind::Comma,
        _ => Kind::Other,
    }
}

/// What begins with a slash.
fn slash(s: &[u8]) -> Front {
    match s {
        [b'/', b'*', ..] => Front::Token(Kind::Comment, comment_len(s)),
        [b'/', b'/', ..] => Front::Token(Kind::Comment, line_len(s)),
        _ => match keyword_len(s) {
            Some(length) => Front::Token(Kind::Keyword, length),
            None => Front::Token(Kind::Slash, 1),
        },
    }
}

/// `=`, but not `==`.
fn equals(s: &[u8]) -> Front {
    match s {
        [_, b'=', ..] => Front::Token(Kind::Other, 2),
        _ => Front::Token(Kind::Equals, 1),
    }
}

impl<'t> Lexer<'t> {
    pub fn new(text: &'t [u8]) -> Self {
        Lexer {
            text,
            at: 0,
            begins_line: true,
            in_directive: false,
            includes: false,
            in_cells: false,
            parens: 0,
            last: Kind::Other,
        }
    }

    /// Whether the next token stands in a directive's line.
    pub fn is_in_directive(&self) -> bool {
        self.in_directive
    }

    /// Whether it stands in cells or between parentheses, where words are those of C.
    pub fn is_in_expression(&self) -> bool {
        self.in_cells || self.parens > 0
    }

    /// The next token, none at the end of the text.
    pub fn next_token(&mut self) -> Option<Token> {
        for _ in 0..=self.text.len() {
            match self.front() {
                Front::End => return self.ended(),
                Front::Gap(length) => self.at = self.at.saturating_add(length),
                Front::LineEnd => {
                    let start = self.at;
                    self.at = self.at.saturating_add(1);
                    self.begins_line = true;
                    if self.in_directive {
                        return Some(self.end_directive(start));
                    }
                }
                Front::Token(kind, length) => return Some(self.take(kind, length)),
            }
        }
        None
    }

    fn ended(&mut self) -> Option<Token> {
        if self.in_directive {
            return Some(self.end_directive(self.at));
        }
        None
    }

    fn end_directive(&mut self, start: usize) -> Token {
        self.in_directive = false;
        self.includes = false;
        self.in_cells = false;
        self.parens = 0;
        self.last = Kind::Other;
        Token {
            kind: Kind::DirectiveEnd,
            span: Span { start, end: start },
        }
    }

    fn front(&self) -> Front {
        let s = behind(self.text, self.at);
        let Some(c) = s.first().copied() else {
            return Front::End;
        };
        if c == b'\n' {
            return Front::LineEnd;
        }
        if is_blank(c) {
            return Front::Gap(blanks(s));
        }
        let splice = splice_len(s);
        if splice > 0 {
            return Front::Gap(splice);
        }
        self.token(c, s)
    }

    fn token(&self, c: u8, s: &[u8]) -> Front {
        match c {
            b'/' => slash(s),
            b'"' => Front::Token(Kind::Text, quoted_len(s, b'"')),
            b'\'' => Front::Token(Kind::Character, quoted_len(s, b'\'')),
            b'&' => self.reference(s),
            b'<' => self.less(s),
            b'>' => self.greater(),
            b'=' => equals(s),
            b'#' => self.hash(s),
            b',' => Front::Token(Kind::Comma, 1),
            _ if is_item(c) => self.word(s),
            _ => Front::Token(punctuation(c), 1),
        }
    }

    /// Whether `&` begins a reference here, and is no operator.
    fn takes_reference(&self) -> bool {
        self.parens == 0 || self.last == Kind::Paren || self.last == Kind::Comma
    }

    fn reference(&self, s: &[u8]) -> Front {
        if !self.takes_reference() {
            return Front::Token(Kind::Other, 1);
        }
        match s {
            [_, b'{', ..] => Front::Token(Kind::PathReference, closed_len(s, b'}')),
            [_, b'&', ..] => Front::Token(Kind::Other, 2),
            [_, c, ..] if is_letter(*c) => Front::Token(
                Kind::Reference,
                word_len(behind(s, 1)).saturating_add(1),
            ),
            _ if self.in_directive => Front::Token(Kind::Other, 1),
            _ => Front::Token(Kind::Reference, 1),
        }
    }

    fn less(&self, s: &[u8]) -> Front {
        if self.includes {
            return Front::Token(Kind::Header, closed_len(s, b'>'));
        }
        if self.parens > 0 {
            return Front::Token(Kind::Other, 1);
        }
        Front::Token(Kind::Less, 1)
    }

    fn greater(&self) -> Front {
        if self.parens > 0 {
            return Front::Token(Kind::Other, 1);
        }
        Front::Token(Kind::Greater, 1)
    }

    fn hash(&self, s: &[u8]) -> Front {
        if self.begins_line && !self.in_directive {
            if let Some(length) = directive_len(s) {
                return Front::Token(Kind::Directive, length);
            }
        }
        if self.is_in_expression() || self.in_directive {
            return Front::Token(Kind::Other, 1);
        }
        self.word(s)
    }

    /// A label, or a word.
    fn word(&self, s: &[u8]) -> Front {
        let plain = word_len(s);
        if self.parens == 0 && !self.in_directive && behind(s, plain).first() == Some(&b':') {
            return Front::Token(Kind::Label, plain.saturating_add(1));
        }
        if self.is_in_expression() || self.in_directive {
            return if plain > 0 {
                Front::Token(Kind::Word, plain)
            } else {
                Front::Token(Kind::Other, 1)
            };
        }
        Front::Token(Kind::Word, item_len(s).max(1))
    }

    /// Passes a token.
    fn take(&mut self, kind: Kind, length: usize) -> Token {
        let start = self.at;
        let end = start.saturating_add(length);
        self.at = end;
        if kind != Kind::Comment {
            self.begins_line = false;
            self.last = kind;
        }
        self.turn(kind, start, end);
        Token {
            kind,
            span: Span { start, end },
        }
    }

    /// What a token changes for those behind it.
    fn turn(&mut self, kind: Kind, start: usize, end: usize) {
        match kind {
            Kind::Directive => {
                self.in_directive = true;
                self.in_cells = false;
                self.parens = 0;
                let name = self.text.get(start..end).unwrap_or(b"");
                self.includes = name.ends_with(b"include");
            }
            Kind::Less => self.in_cells = true,
            Kind::Greater => self.in_cells = false,
            Kind::Paren => self.parens = self.parens.saturating_add(1),
            Kind::EndParen => self.parens = self.parens.saturating_sub(1),
            Kind::Semicolon | Kind::Brace | Kind::EndBrace if !self.in_directive => {
                self.in_cells = false;
                self.parens = 0;
            }
            _ => {}
        }
    }
}
