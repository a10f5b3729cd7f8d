//! Where what is meant isn't the lexeme at which reading stops: what is missing, what stands in the wrong order, what is no value.

use crate::diagnosis::Subject;
use crate::marks::{Mark, is_deleted, span_of};
use crate::origins::Origin;
use dt_text::include::Span;
use dt_text::lexeme::{Kind, Language, Lexeme};
use dt_text::place::named;

/// Where reading stops: the lexeme there, which is behind the last one where none is, its first byte, and the kind of bracket that is
/// open innermost.
#[derive(Clone, Copy)]
pub(crate) struct Halt<'a> {
    pub origin: Origin<'a>,
    pub lexemes: &'a [Lexeme],
    pub index: usize,
    pub start: usize,
    pub bracket: Option<Kind>,
}

impl<'a> Halt<'a> {
    /// The lexeme so many before this place.
    pub fn before(&self, count: usize) -> Option<Lexeme> {
        if count > self.index {
            return None;
        }
        self.lexemes.get(self.index - count).copied()
    }

    /// The kind of the lexeme so many before this place.
    pub fn kind_before(&self, count: usize) -> Option<Kind> {
        Some(self.before(count)?.kind)
    }

    /// The text from this place on.
    pub fn rest(&self) -> &'a [u8] {
        self.origin.text.get(self.start..).unwrap_or(&[])
    }

    // Whether the line ends between the lexeme before this place and it.
    fn is_in_next_line(&self, before: Lexeme) -> bool {
        let between = self.origin.text.get(before.end as usize..self.start);
        between.unwrap_or(&[]).iter().any(|c| *c == b'\n')
    }
}

/// What is meant instead of what is refused at this place, where that is known.
pub(crate) fn advised<'a>(halt: Halt<'a>, refused: Subject) -> Option<Mark<'a>> {
    if let Some(mark) = long_string(halt) {
        return Some(mark);
    }
    if refused == Subject::Unclosed {
        return None;
    }
    if let Some(mark) = behind_child(halt) {
        return Some(mark);
    }
    if let Some(mark) = semicolon(halt) {
        return Some(mark);
    }
    if let Some(mark) = keyword(halt) {
        return Some(mark);
    }
    bare_word(halt)
}

// ---- strings

// A string that goes on in the next line, where the text breaks off right behind one or within one.
fn long_string<'a>(halt: Halt<'a>) -> Option<Mark<'a>> {
    let last = halt.before(1)?;
    let is_behind = is_long(halt.origin.text, last) && last.end as usize == halt.start;
    if !is_behind && halt.rest().first().copied() != Some(b'"') {
        return None;
    }
    let long = halt
        .lexemes
        .iter()
        .find(|lexeme| is_long(halt.origin.text, **lexeme))?;
    let start = long.start as usize;
    Some(Mark {
        span: Span {
            start,
            end: start.saturating_add(1),
        },
        kind: Subject::LongText,
        subject: b"",
    })
}

fn is_long(text: &[u8], lexeme: Lexeme) -> bool {
    lexeme.kind == Kind::Text && named(text, lexeme).iter().any(|c| *c == b'\n')
}

// ---- the order of a body

// A property behind a child: at a statement's beginning nothing else forbids `=` and `;` behind a name.
fn behind_child<'a>(halt: Halt<'a>) -> Option<Mark<'a>> {
    let stop = halt.lexemes.get(halt.index)?;
    let name = match stop.kind {
        Kind::Equals | Kind::Semicolon if is_first_name(halt) => halt.before(1)?,
        Kind::DeleteProperty if begins_statement(halt) => *stop,
        _ => return None,
    };
    Some(Mark {
        span: span_of(name),
        kind: Subject::BehindChild,
        subject: named(halt.origin.text, name),
    })
}

// Whether a name stands before this place, at the beginning of a statement behind another one.
fn is_first_name(halt: Halt<'_>) -> bool {
    halt.kind_before(1) == Some(Kind::Name)
        && match halt.kind_before(2) {
            Some(Kind::Semicolon) => true,
            Some(Kind::Label) => halt.kind_before(3) == Some(Kind::Semicolon),
            _ => false,
        }
}

/// Whether a statement of a body begins at this place, behind another one.
pub(crate) fn begins_statement(halt: Halt<'_>) -> bool {
    halt.kind_before(1) == Some(Kind::Semicolon) && halt.bracket == Some(Kind::Brace)
}

// ---- `;`

// A semicolon that is missing behind what needs one, at the end of that.
fn semicolon<'a>(halt: Halt<'a>) -> Option<Mark<'a>> {
    let last = halt.before(1)?;
    if !lacks_semicolon(halt, last) {
        return None;
    }
    let start = last.end as usize;
    Some(Mark {
        span: Span {
            start,
            end: start.saturating_add(1),
        },
        kind: Subject::Missing,
        subject: b";",
    })
}

fn lacks_semicolon(halt: Halt<'_>, last: Lexeme) -> bool {
    let ends = match halt.lexemes.get(halt.index) {
        Some(stop) => stop.kind == Kind::EndBrace || halt.is_in_next_line(last),
        None => !halt.rest().is_empty() && halt.is_in_next_line(last),
    };
    match last.kind {
        Kind::Version | Kind::Plugin => true,
        Kind::EndBrace => !halt.rest().is_empty() || halt.bracket.is_none(),
        Kind::Greater | Kind::EndSquare | Kind::EndParen | Kind::Text => {
            ends && halt.bracket == Some(Kind::Brace)
        }
        Kind::Reference | Kind::PathReference => {
            is_referred(halt) || ends && halt.bracket == Some(Kind::Brace)
        }
        Kind::Name => {
            is_deleted(halt.lexemes, halt.index.saturating_sub(1)) || ends && is_first_name(halt)
        }
        _ => false,
    }
}

// Whether the reference before this place is all that a deletion or a mark needs.
fn is_referred(halt: Halt<'_>) -> bool {
    matches!(
        halt.kind_before(2),
        Some(Kind::DeleteNode | Kind::OmitIfNoRef)
    )
}

// ---- keywords

// A keyword of dtc's language in the profile, where its slash may be a lexeme of its own.
fn keyword<'a>(halt: Halt<'a>) -> Option<Mark<'a>> {
    if halt.origin.language == Language::Dtc {
        return None;
    }
    let start = match halt.before(1) {
        Some(slash) if slash.kind == Kind::Slash => slash.start as usize,
        _ => halt.start,
    };
    let len = keyword_len(halt.origin.text.get(start..).unwrap_or(&[]))?;
    let end = start.saturating_add(len);
    Some(Mark {
        span: Span { start, end },
        kind: Subject::DtcLanguage,
        subject: halt.origin.text.get(start..end).unwrap_or(&[]),
    })
}

// How long the keyword of dtc's language is with which a text begins.
fn keyword_len(text: &[u8]) -> Option<usize> {
    if text.starts_with(b"/include/") {
        Some(9)
    } else if text.starts_with(b"/incbin/") {
        Some(8)
    } else if text.starts_with(b"/omit-if-no-ref/") {
        Some(16)
    } else if text.starts_with(b"#line ") {
        Some(5)
    } else {
        None
    }
}

// ---- values

// A word where a value must begin.
fn bare_word<'a>(halt: Halt<'a>) -> Option<Mark<'a>> {
    let begins = match halt.kind_before(1)? {
        Kind::Equals => true,
        Kind::Comma => halt.bracket == Some(Kind::Brace),
        _ => false,
    };
    let len = word_len(halt.rest());
    if !begins || len == 0 || halt.index < halt.lexemes.len() {
        return None;
    }
    Some(Mark {
        span: Span {
            start: halt.start,
            end: halt.start.saturating_add(len),
        },
        kind: Subject::Word,
        subject: halt.rest().get(..len).unwrap_or(&[]),
    })
}

/// How many letters, digits, `_` and `-` stand in front, behind a letter.
pub(crate) fn word_len(s: &[u8]) -> usize {
    match s.first() {
        Some(c) if c.is_ascii_alphabetic() || *c == b'_' => {}
        _ => return 0,
    }
    s.iter().position(|c| !is_of_word(*c)).unwrap_or(s.len())
}

fn is_of_word(c: u8) -> bool {
    c.is_ascii_alphanumeric() || c == b'_' || c == b'-'
}
