//! Texts in which something harmless stands in the place of what is refused, so that what is refused behind it shows.

use crate::advice::{Halt, advised};
use crate::brackets::innermost;
use crate::diagnosis::Subject;
use crate::further::Found;
use crate::marks::{element_end, is_deleted, mark_stopped, span_of};
use crate::origins::Origin;
use crate::refused::{Stop, stop_at};
use crate::sites::{Scanned, Site, scan_source, site_of, statement_end};
use crate::sources::{is_item, kind_of, start_of};
use dt_text::include::Span;
use dt_text::lexeme::{Kind, Language, Lexeme};
use std::alloc::{AllocError, Global};

/// What is left of a text in which something harmless stands in the place of a fault.
#[derive(Clone, Copy, Debug, PartialEq, Eq)]
pub(crate) enum Left {
    /// All nodes and their labels.
    All,
    /// Labels went with the fault, so what refers to them is refused now.
    Less,
    /// Nothing that could be read on.
    Nothing,
}

/// Puts something harmless of the same length in the place of a fault, the one behind so many others.
pub(crate) fn mend(
    alloc: Global,
    language: Language,
    text: &mut Vec<u8>,
    fault: Found,
    before: usize,
) -> Result<Left, AllocError> {
    if fault.refused.number == 10 {
        return mend_syntax(alloc, language, text, fault);
    }
    let Scanned { lexemes, .. } = scan_source(alloc, language, text.as_slice())?;
    let cursor = Cursor {
        lexemes: lexemes.as_slice(),
        index: stop_in(lexemes.as_slice(), fault).index,
    };
    let site = site_of(alloc, cursor.lexemes, cursor.index)?;
    Ok(cursor.mend(text.as_mut_slice(), site, fault, before))
}

// The lexeme in which what is refused begins.
fn stop_in(lexemes: &[Lexeme], fault: Found) -> Stop {
    stop_at(lexemes, u32::try_from(fault.span.start).unwrap_or(u32::MAX))
}

// ---- bytes

// Whether a line marker begins at a byte.
fn is_marker(text: &[u8], place: usize) -> bool {
    let before = text.get(..place).unwrap_or(b"");
    let behind = text.get(place..).unwrap_or(b"");
    (before.is_empty() || before.ends_with(b"\n")) && behind.starts_with(b"# ")
}

// Leaves line ends and line markers alone, as lines count.
fn blank(text: &mut [u8], span: Span) {
    let mut in_marker = false;
    for place in span.start..span.end {
        in_marker = in_marker || is_marker(text, place);
        let Some(byte) = text.get_mut(place) else {
            return;
        };
        if *byte == b'\n' {
            in_marker = false;
        } else if !in_marker {
            *byte = b' ';
        }
    }
}

fn put(text: &mut [u8], span: Span, word: &[u8]) {
    blank(text, span);
    let room = span.end.saturating_sub(span.start);
    if word.len() > room {
        return;
    }
    for (i, byte) in word.iter().enumerate() {
        if let Some(at) = text.get_mut(span.start.saturating_add(i)) {
            if *at == b' ' {
                *at = *byte;
            }
        }
    }
}

// The byte by which a name is written over that stands twice: names of one such byte alone are rare.
fn filler(before: usize) -> u8 {
    match before % 4 {
        0 => b'?',
        1 => b'_',
        2 => b'.',
        _ => b'+',
    }
}

fn fill(text: &mut [u8], span: Span, filler: u8) {
    for place in span.start..span.end {
        if let Some(byte) = text.get_mut(place) {
            *byte = filler;
        }
    }
}

// ---- what is refused

/// A lexeme of a text, by its index.
#[derive(Clone, Copy)]
struct Cursor<'l> {
    lexemes: &'l [Lexeme],
    index: usize,
}

impl Cursor<'_> {
    fn kind_before(&self) -> Option<Kind> {
        match self.lexemes.get(..self.index) {
            Some([.., before]) => Some(before.kind),
            _ => None,
        }
    }

    fn kind_behind(&self) -> Option<Kind> {
        match self.lexemes.get(self.index..) {
            Some([_, behind, ..]) => Some(behind.kind),
            _ => None,
        }
    }

    fn mend(&self, text: &mut [u8], site: Site, fault: Found, before: usize) -> Left {
        let Some(lexeme) = self.lexemes.get(self.index).copied() else {
            return Left::Nothing;
        };
        match fault.refused.number {
            11 | 12 => self.mend_element(text, site),
            13 | 14 => self.mend_literal(text, lexeme),
            15 => mend_escape(text, fault.span, lexeme),
            21 => {
                blank(text, span_of(lexeme));
                Left::All
            }
            23 | 24 => self.mend_statement(text, site),
            20 | 22 | 25 | 26 | 27 => match lexeme.kind {
                Kind::Name => self.mend_name(text, site, lexeme, before),
                _ => self.mend_reference(text, site, lexeme),
            },
            _ => Left::Nothing,
        }
    }

    // An element becomes 0. A blank stands before it, as numbers need no gap between them.
    fn mend_element(&self, text: &mut [u8], site: Site) -> Left {
        let Some(element) = site.element else {
            return Left::Nothing;
        };
        let Some(first) = self.lexemes.get(element) else {
            return Left::Nothing;
        };
        let span = Span {
            start: first.start as usize,
            end: element_end(self.lexemes, element),
        };
        put(text, span, b" 0");
        Left::All
    }

    // Without a width that there isn't, cells have 32 bits.
    fn mend_literal(&self, text: &mut [u8], lexeme: Lexeme) -> Left {
        if self.kind_before() != Some(Kind::Bits) {
            put(text, span_of(lexeme), b" 0");
            return Left::All;
        }
        if let Some([.., bits]) = self.lexemes.get(..self.index) {
            let bits = *bits;
            blank(text, span_of(bits));
            blank(text, span_of(lexeme));
        }
        Left::All
    }

    // A property, a deletion or a mark goes.
    fn mend_statement(&self, text: &mut [u8], site: Site) -> Left {
        let Some(first) = self.lexemes.get(site.statement) else {
            return Left::Nothing;
        };
        let start = first.start as usize;
        let Some(end) = statement_end(self.lexemes, self.index) else {
            return Left::Nothing;
        };
        if end <= start {
            return Left::Nothing;
        }
        blank(text, Span { start, end });
        let statement = self.lexemes.get(site.statement..).unwrap_or(&[]);
        let has_body = statement.iter().any(|lexeme| (lexeme.start as usize) < end
            && lexeme.kind == Kind::Brace);
        if has_body { Left::Less } else { Left::All }
    }

    // A node gets another name, so that its labels stay.
    fn mend_name(&self, text: &mut [u8], site: Site, lexeme: Lexeme, before: usize) -> Left {
        if is_deleted(self.lexemes, self.index) || self.kind_behind() != Some(Kind::Brace) {
            return self.mend_statement(text, site);
        }
        fill(text, span_of(lexeme), filler(before));
        Left::All
    }

    // In cells a reference becomes 0, elsewhere an empty text. What extends a node extends the root.
    fn mend_reference(&self, text: &mut [u8], site: Site, lexeme: Lexeme) -> Left {
        let before = self.kind_before();
        if matches!(before, Some(Kind::DeleteNode | Kind::OmitIfNoRef)) {
            return self.mend_statement(text, site);
        }
        if site.element.is_some() {
            put(text, span_of(lexeme), b" 0");
            return Left::All;
        }
        if self.kind_behind() != Some(Kind::Brace) {
            put(text, span_of(lexeme), b"\"\"");
            return Left::All;
        }
        put(text, span_of(lexeme), b"/");
        self.drop_labels(text, site, lexeme)
    }

    // The root is extended without labels.
    fn drop_labels(&self, text: &mut [u8], site: Site, lexeme: Lexeme) -> Left {
        match self.lexemes.get(site.statement) {
            Some(first) if site.statement < self.index => {
                let start = first.start as usize;
                let end = lexeme.start as usize;
                blank(text, Span { start, end });
                Left::Less
            }
            _ => Left::All,
        }
    }
}

fn mend_escape(text: &mut [u8], span: Span, lexeme: Lexeme) -> Left {
    match lexeme.kind {
        Kind::Text => put(text, span, b".."),
        _ => put(text, span_of(lexeme), b" 0"),
    }
    Left::All
}

// ---- words that can't follow

/// How reading can go on.
#[derive(Clone, Copy, Debug)]
enum Way {
    /// By a semicolon at this byte, which is a blank.
    Semicolon(usize),
    /// Behind the statement.
    Behind,
    /// The same, without these bytes, which are no lexeme.
    Without(Span),
    Nowhere,
}

fn way_on(
    alloc: Global,
    origin: Origin<'_>,
    lexemes: &[Lexeme],
    broken: Option<u32>,
    fault: Found,
) -> Result<Way, AllocError> {
    let stop = stop_in(lexemes, fault);
    let Some(mark) = mark_stopped(origin, 10, lexemes, broken, stop) else {
        return Ok(Way::Nowhere);
    };
    let before = lexemes.get(..stop.index).unwrap_or(lexemes);
    let halt = Halt {
        origin,
        lexemes,
        index: stop.index,
        start: start_of(origin.text, lexemes, broken, stop.index),
        bracket: kind_of(lexemes, innermost(alloc, before)?),
    };
    if matches!(mark.kind, Subject::Unclosed | Subject::End) || is_item(halt) {
        return Ok(Way::Nowhere);
    }
    Ok(match advised(halt, mark.kind) {
        Some(meant) => way_by(origin.text, halt, meant.kind, meant.span, mark.span),
        None => behind(halt, mark.span),
    })
}

fn way_by(text: &[u8], halt: Halt<'_>, kind: Subject, meant: Span, refused: Span) -> Way {
    match kind {
        Subject::Missing => match blank_from(text, meant.start) {
            Some(place) => Way::Semicolon(place),
            None => behind(halt, refused),
        },
        Subject::DtcLanguage | Subject::LongText => Way::Nowhere,
        _ => behind(halt, refused),
    }
}

// The first blank from a byte on, before all that is neither that nor a line's end.
fn blank_from(text: &[u8], start: usize) -> Option<usize> {
    let gap = text.get(start..)?;
    let lines = gap.iter().position(|c| !matches!(*c, b'\n' | b'\r'))?;
    let place = start.saturating_add(lines);
    match text.get(place) {
        Some(b' ' | b'\t') => Some(place),
        _ => None,
    }
}

fn behind(halt: Halt<'_>, refused: Span) -> Way {
    if halt.index < halt.lexemes.len() {
        Way::Behind
    } else {
        Way::Without(refused)
    }
}

fn mend_syntax(
    alloc: Global,
    language: Language,
    text: &mut Vec<u8>,
    fault: Found,
) -> Result<Left, AllocError> {
    let Scanned { lexemes, broken } = scan_source(alloc, language, text.as_slice())?;
    let origin = Origin {
        language,
        file: b"",
        text: text.as_slice(),
        shown: text.as_slice(),
    };
    match way_on(alloc, origin, lexemes.as_slice(), broken, fault)? {
        Way::Nowhere => return Ok(Left::Nothing),
        Way::Semicolon(place) => {
            if let Some(byte) = text.as_mut_slice().get_mut(place) {
                *byte = b';';
            }
            return Ok(Left::All);
        }
        Way::Behind => {}
        Way::Without(span) => blank(text.as_mut_slice(), span),
    }
    drop_statement(alloc, language, text, fault)
}

// In a body the statement goes in which reading stops. Of items none does, as what stands behind one depends on it.
fn drop_statement(
    alloc: Global,
    language: Language,
    text: &mut Vec<u8>,
    fault: Found,
) -> Result<Left, AllocError> {
    let Scanned { lexemes, .. } = scan_source(alloc, language, text.as_slice())?;
    let cursor = Cursor {
        lexemes: lexemes.as_slice(),
        index: stop_in(lexemes.as_slice(), fault).index,
    };
    let site = site_of(alloc, cursor.lexemes, cursor.index)?;
    if site.depth == 0 {
        return Ok(Left::Nothing);
    }
    Ok(cursor.mend_statement(text.as_mut_slice(), site))
}
