//! What is said of a refusal in its one line: the sentence of its diagnosis, and what there is to do.

use dt_text::include::Span;
use dt_text::lexeme::{Kind, Lexeme};
use dtman_diagnosis::{Diagnosis, Location, Note, Subject, copied, text_of};
use std::alloc::{AllocError, Global};

/// A source, its lexemes as far as it has any, and the bytes of it that are refused.
#[derive(Clone, Copy)]
pub(crate) struct Refused<'t> {
    pub(crate) text: &'t [u8],
    pub(crate) lexemes: &'t [Lexeme],
    pub(crate) bytes: Span,
}

/// How much of a subject is shown, in bytes.
const MAX_SHOWN: usize = 80;

/// What is said of a refusal of a source. Its node isn't told, since its line is.
pub(crate) fn said_of_source(
    alloc: Global,
    diagnosis: Diagnosis,
    refused: Refused<'_>,
) -> Result<String, AllocError> {
    let diagnosis = worded(alloc, diagnosis, refused)?;
    let hint = hint_of(&diagnosis, refused);
    let Diagnosis {
        number,
        kind,
        subject,
        notes,
        ..
    } = diagnosis;
    let mut told = Diagnosis {
        number,
        location: Location::Nowhere,
        kind,
        subject: copied(alloc, front(subject.as_slice(), MAX_SHOWN))?,
        notes: Vec::new(alloc),
    };
    for note in notes {
        if !matches!(note, Note::In { .. }) {
            told.notes.push(note)?;
        }
    }
    if let Some(words) = hint {
        told.notes.push(Note::Words(words))?;
    }
    one_line(alloc, &told)
}

/// What is said of a refusal, whose location stands before it.
pub(crate) fn said_of(alloc: Global, diagnosis: Diagnosis) -> Result<String, AllocError> {
    let told = Diagnosis {
        location: Location::Nowhere,
        ..diagnosis
    };
    one_line(alloc, &told)
}

// The sentence of a diagnosis and its notes, of which each has a line in its text.
fn one_line(alloc: Global, diagnosis: &Diagnosis) -> Result<String, AllocError> {
    let text = text_of(alloc, "", diagnosis)?;
    let mut line = String::new(alloc);
    for part in text.lines() {
        let words = part.strip_prefix(" = ").unwrap_or(part);
        if !line.is_empty() {
            line.push_str("; ")?;
        }
        line.push_str(words)?;
    }
    Ok(line)
}

fn front(bytes: &[u8], len: usize) -> &[u8] {
    bytes.get(..len).unwrap_or(bytes)
}

// With the user's own word in the place of a part of it, and with another sentence where the diagnosis' says something else.
fn worded(
    alloc: Global,
    diagnosis: Diagnosis,
    refused: Refused<'_>,
) -> Result<Diagnosis, AllocError> {
    let start = refused.bytes.start;
    match diagnosis.number {
        // behind digits
        10 if is_wordy(refused.text.get(start.wrapping_sub(1))) => Ok(Diagnosis {
            subject: copied(alloc, word_around(refused.text, start))?,
            ..diagnosis
        }),
        // a character literal may be a number, but holds other than one character
        14 if refused.text.get(start) == Some(&b'\'') => Ok(Diagnosis {
            number: 10,
            kind: Subject::Punctuation,
            ..diagnosis
        }),
        _ => Ok(diagnosis),
    }
}

fn is_wordy(c: Option<&u8>) -> bool {
    match c {
        Some(c) => c.is_ascii_alphanumeric() || *c == b'_',
        None => false,
    }
}

// The letters and digits before a place of a text and behind it.
fn word_around(text: &[u8], at: usize) -> &[u8] {
    let (before, behind) = text.split_at_checked(at).unwrap_or((text, b""));
    let start = match before.iter().rposition(|c| !is_wordy(Some(c))) {
        Some(place) => place.saturating_add(1),
        None => 0,
    };
    let len = behind.iter().position(|c| !is_wordy(Some(c)));
    let end = at.saturating_add(len.unwrap_or(behind.len()));
    text.get(start..end).unwrap_or(b"")
}

// What there is to do, where no note of the diagnosis says it.
fn hint_of(diagnosis: &Diagnosis, refused: Refused<'_>) -> Option<&'static str> {
    let Refused {
        text,
        lexemes,
        bytes,
    } = refused;
    match (diagnosis.number, diagnosis.kind) {
        (10, Subject::End) => hint_of_end(lexemes),
        (10, Subject::Word) => hint_of_truth(diagnosis.subject.as_slice()),
        (10, _) if text.get(bytes.start) == Some(&b'\'') && is_in_cells(lexemes, bytes) => Some(
            "a character literal holds one character, or one escape",
        ),
        (11, _) => hint_of_width(width_before(text, lexemes, bytes)),
        _ => None,
    }
}

// A text that ends before its root begins.
fn hint_of_end(lexemes: &[Lexeme]) -> Option<&'static str> {
    if lexemes.iter().any(|lexeme| lexeme.kind == Kind::Brace) {
        return None;
    }
    Some("a source has a root node, `/ { .. };`")
}

// What a property says by being there (Devicetree Specification v0.4, section 2.2.4).
fn hint_of_truth(word: &[u8]) -> Option<&'static str> {
    if word == b"true".as_slice() {
        return Some("leave `= true` out: without a value a property is true");
    }
    if word == b"false".as_slice() {
        return Some("leave the property out: it is false where it isn't there");
    }
    None
}

// Whether the innermost array is one of cells.
fn is_in_cells(lexemes: &[Lexeme], bytes: Span) -> bool {
    let mut is_in = false;
    for lexeme in lexemes {
        if lexeme.start as usize >= bytes.start {
            return is_in;
        }
        match lexeme.kind {
            Kind::Less => is_in = true,
            Kind::Semicolon | Kind::Comma | Kind::Equals => is_in = false,
            _ => {}
        }
    }
    is_in
}

// The word behind the `/bits/` of an array (dtc's manual, Documentation/dts-format.txt); none where it has cells.
fn width_before<'t>(text: &'t [u8], lexemes: &[Lexeme], bytes: Span) -> Option<&'t [u8]> {
    let mut width = None;
    let mut is_next = false;
    for lexeme in lexemes {
        if lexeme.start as usize >= bytes.start {
            return width;
        }
        if is_next {
            width = text.get(lexeme.start as usize..lexeme.end as usize);
        }
        is_next = lexeme.kind == Kind::Bits;
        if matches!(lexeme.kind, Kind::Semicolon | Kind::Comma) {
            width = None;
        }
    }
    width
}

fn hint_of_width(width: Option<&[u8]>) -> Option<&'static str> {
    match width {
        None => Some("a cell has 32 bits"),
        Some([b'8']) => Some("elements of `/bits/ 8` have 8 bits"),
        Some([b'1', b'6']) => Some("elements of `/bits/ 16` have 16 bits"),
        Some([b'3', b'2']) => Some("elements of `/bits/ 32` have 32 bits"),
        Some(_) => None,
    }
}
