//! What is refused of a text, as bytes.

use crate::advice::word_len;
use crate::bodies::kind_before;
use crate::diagnosis::Subject;
use crate::escaping::character_len;
use crate::meetings::Meeting;
use crate::origins::Origin;
use crate::refused::Stop;
use dt_text::include::Span;
use dt_text::lexeme::{Kind, Language, Lexeme};
use dt_text::place::named;

/// Bytes that are refused, what they are, and what is told of them.
#[derive(Clone, Copy)]
pub(crate) struct Mark<'a> {
    pub span: Span,
    pub kind: Subject,
    pub subject: &'a [u8],
}

/// The bytes of a lexeme.
pub(crate) fn span_of(lexeme: Lexeme) -> Span {
    Span {
        start: lexeme.start as usize,
        end: lexeme.end as usize,
    }
}

/// What is refused where reading stops by this number.
pub(crate) fn mark_stopped<'a>(
    origin: Origin<'a>,
    number: u8,
    lexemes: &[Lexeme],
    broken: Option<u32>,
    stop: Stop,
) -> Option<Mark<'a>> {
    match lexemes.get(stop.index) {
        Some(lexeme) => Some(mark_lexeme(origin.text, number, lexemes, stop, *lexeme)),
        None => mark_broken(origin, lexemes, broken),
    }
}

// A lexeme that can't follow, or has a fault.
fn mark_lexeme<'a>(
    text: &'a [u8],
    number: u8,
    lexemes: &[Lexeme],
    stop: Stop,
    lexeme: Lexeme,
) -> Mark<'a> {
    let Span { start, end } = span_of(lexeme);
    let span = match number {
        11 => Span {
            start,
            end: element_end(lexemes, stop.index),
        },
        15 => {
            let start = start.saturating_add(stop.offset);
            let end = start.saturating_add(2);
            Span { start, end }
        }
        _ => Span { start, end },
    };
    let subject = match number {
        13 => named(text, lexeme),
        _ => text.get(span.start..span.end).unwrap_or(&[]),
    };
    let kind = match number {
        14 if is_octal(subject) => Subject::Octal,
        _ => subject_of(lexeme.kind),
    };
    Mark {
        span,
        kind,
        subject,
    }
}

// Whether a leading 0 says that a literal is octal, and a digit that it isn't.
fn is_octal(literal: &[u8]) -> bool {
    match literal {
        [b'0', digits @ ..] => digits.iter().any(|c| matches!(*c, b'8' | b'9'))
            && !digits.starts_with(b"x")
            && !digits.starts_with(b"X"),
        _ => false,
    }
}

// A character or word where no lexeme stands, or the last lexeme where the text ends.
fn mark_broken<'a>(
    origin: Origin<'a>,
    lexemes: &[Lexeme],
    broken: Option<u32>,
) -> Option<Mark<'a>> {
    let start = match broken {
        Some(broken) => broken as usize,
        None => origin.text.len(),
    };
    let behind = origin.text.get(start..).unwrap_or(&[]);
    if behind.is_empty() {
        return Some(Mark {
            span: span_of(*lexemes.last()?),
            kind: Subject::End,
            subject: b"",
        });
    }
    let len = match word_len(behind) {
        0 => character_len(behind),
        len => len,
    };
    let end = start.saturating_add(len);
    let kind = if opens(origin.language, behind) {
        Subject::Unclosed
    } else if word_len(behind) > 0 {
        Subject::Punctuation
    } else {
        Subject::Nothing
    };
    Some(Mark {
        span: Span { start, end },
        kind,
        subject: match kind {
            Subject::Punctuation => origin.text.get(start..end).unwrap_or(&[]),
            _ => b"",
        },
    })
}

// Whether something begins here that must be closed.
fn opens(language: Language, behind: &[u8]) -> bool {
    match behind {
        [b'"', ..] | [b'/', b'*', ..] | [b'&', b'{', ..] => true,
        [b'\'', ..] => language == Language::Dtc,
        _ => false,
    }
}

/// What is refused of edits or references.
pub(crate) fn mark_met<'a>(
    text: &'a [u8],
    number: u8,
    lexemes: &[Lexeme],
    meeting: Meeting,
) -> Option<Mark<'a>> {
    let lexeme = *lexemes.get(meeting.lexeme)?;
    Some(Mark {
        span: span_of(lexeme),
        kind: match number {
            25 => doubled(lexemes, meeting, lexeme.kind),
            _ => subject_of(lexeme.kind),
        },
        subject: named(text, lexeme),
    })
}

// What stands twice: a name, or in dtc's language a deletion of what the body defines, or a name that was deleted before it was defined.
fn doubled(lexemes: &[Lexeme], meeting: Meeting, kind: Kind) -> Subject {
    if is_deleted(lexemes, meeting.lexeme) {
        return Subject::Deletion;
    }
    match meeting.other {
        Some(other) if is_deleted(lexemes, other) => Subject::Deleted,
        _ => subject_of(kind),
    }
}

/// Whether this is the name of what is deleted.
pub(crate) fn is_deleted(lexemes: &[Lexeme], index: usize) -> bool {
    matches!(
        kind_before(lexemes, index),
        Some(Kind::DeleteNode | Kind::DeleteProperty)
    )
}

/// Where the element ends that begins with a lexeme: with its parenthesis, where it begins with one.
pub(crate) fn element_end(lexemes: &[Lexeme], index: usize) -> usize {
    let mut parens: usize = 0;
    let mut end = 0;
    for lexeme in lexemes.get(index..).unwrap_or(&[]) {
        end = lexeme.end as usize;
        match lexeme.kind {
            Kind::Paren => parens = parens.saturating_add(1),
            Kind::EndParen => parens = parens.saturating_sub(1),
            _ => {}
        }
        if parens == 0 {
            return end;
        }
    }
    end
}

fn subject_of(kind: Kind) -> Subject {
    match kind {
        Kind::Label | Kind::Reference => Subject::Label,
        Kind::PathReference => Subject::Path,
        Kind::Name => Subject::Name,
        Kind::Literal => Subject::Literal,
        _ => Subject::Punctuation,
    }
}
