//! Lines of the bus's text files, and their words.

use std::alloc::{AllocError, Global};

/// A line of a text, without its end, its number, and where it begins.
#[derive(Clone, Copy)]
pub(crate) struct Line<'a> {
    pub number: usize,
    pub start: usize,
    pub text: &'a [u8],
}

/// A word of a line, and where it begins in that.
#[derive(Clone, Copy)]
pub(crate) struct Word<'a> {
    pub start: usize,
    pub text: &'a [u8],
}

impl Word<'_> {
    /// Where the word ends.
    pub fn end(&self) -> usize {
        self.start.saturating_add(self.text.len())
    }
}

impl<'a> Line<'a> {
    /// The line that begins at a place.
    pub fn from(text: &'a [u8], start: usize, number: usize) -> Self {
        let rest = text.get(start..).unwrap_or(&[]);
        let end = rest.iter().position(|b| *b == b'\n').unwrap_or(rest.len());
        Line {
            number,
            start,
            text: rest.get(..end).unwrap_or(rest),
        }
    }

    /// Where the line behind this one begins.
    pub fn behind(&self) -> usize {
        self.start.saturating_add(self.text.len()).saturating_add(1)
    }

    /// Whether it is a blank one or a comment.
    pub fn is_skipped(&self) -> bool {
        match first_word(self.text) {
            Some(word) => word.text.first().copied() == Some(b'#'),
            None => true,
        }
    }

    /// What is shown of it: a carriage return at its end isn't.
    pub fn shown(&self) -> &'a [u8] {
        match self.text {
            [shown @ .., b'\r'] => shown,
            shown => shown,
        }
    }

    /// Its words.
    pub fn words(&self, alloc: Global) -> Result<Vec<Word<'a>>, AllocError> {
        let mut words = Vec::new(alloc);
        let mut start: usize = 0;
        for text in self.shown().split(|b| is_blank(*b)) {
            if !text.is_empty() {
                words.push(Word { start, text })?;
            }
            start = start.saturating_add(text.len()).saturating_add(1);
        }
        Ok(words)
    }
}

/// The line of a number.
pub(crate) fn line_numbered(text: &[u8], number: usize) -> Line<'_> {
    let mut line = Line::from(text, 0, 1);
    for _ in 1..number {
        line = Line::from(text, line.behind(), line.number.saturating_add(1));
    }
    line
}

/// The line of an event, by its number from 1.
pub(crate) fn line_of_event(text: &[u8], event: usize) -> Option<Line<'_>> {
    let mut start = 0;
    let mut seen: usize = 0;
    for number in 1..text.len().saturating_add(1) {
        let line = Line::from(text, start, number);
        if !line.is_skipped() {
            seen = seen.saturating_add(1);
        }
        if seen == event {
            return Some(line);
        }
        start = line.behind();
        if start >= text.len() {
            return None;
        }
    }
    None
}

pub(crate) fn is_blank(b: u8) -> bool {
    b == b' ' || b == b'\t'
}

/// The first word of a text.
pub(crate) fn first_word(text: &[u8]) -> Option<Word<'_>> {
    let start = text.iter().position(|b| !is_blank(*b) && *b != b'\r')?;
    let rest = text.get(start..)?;
    let end = rest
        .iter()
        .position(|b| is_blank(*b) || *b == b'\r')
        .unwrap_or(rest.len());
    Some(Word {
        start,
        text: rest.get(..end)?,
    })
}

/// What a line is about: a driver's name, or a device's path, behind its keyword where it has one.
#[derive(Clone, Copy)]
pub(crate) struct Head<'a> {
    keyword: &'a [u8],
    pub name: Word<'a>,
}

/// What a line is about.
pub(crate) fn head_of<'a>(line: Line<'a>) -> Option<Head<'a>> {
    let first = first_word(line.text)?;
    if first.text.first().copied() == Some(b'/') {
        return Some(Head {
            keyword: b"",
            name: first,
        });
    }
    let behind = first.end();
    let second = first_word(line.text.get(behind..)?)?;
    Some(Head {
        keyword: first.text,
        name: Word {
            start: second.start.saturating_add(behind),
            text: second.text,
        },
    })
}

/// A line, and what it is about.
#[derive(Clone, Copy)]
pub(crate) struct Headed<'a> {
    pub line: Line<'a>,
    pub head: Head<'a>,
}

/// The first line that is about the same as the line of this number, if that stands before it.
pub(crate) fn earlier_line<'a>(text: &'a [u8], number: usize) -> Option<Headed<'a>> {
    let wanted = head_of(line_numbered(text, number))?;
    first_about(text, wanted.keyword, wanted.name.text, number)
}

/// The first line before that of a number with this keyword and name.
pub(crate) fn first_about<'a>(
    text: &'a [u8],
    keyword: &[u8],
    name: &[u8],
    number: usize,
) -> Option<Headed<'a>> {
    let mut line = Line::from(text, 0, 1);
    for _ in 1..number {
        if line.start >= text.len() {
            return None;
        }
        if let Some(head) = head_of(line) {
            if head.keyword == keyword && head.name.text == name {
                return Some(Headed { line, head });
            }
        }
        line = Line::from(text, line.behind(), line.number.saturating_add(1));
    }
    None
}

/// The names of the drivers in a driver file.
pub fn driver_names<'a>(alloc: Global, drivers: &'a [u8]) -> Result<Vec<&'a [u8]>, AllocError> {
    let mut names = Vec::new(alloc);
    let mut line = Line::from(drivers, 0, 1);
    for _ in 0..drivers.len() {
        if let Some(head) = head_of(line) {
            if head.keyword == b"driver".as_slice() {
                names.push(head.name.text)?;
            }
        }
        if line.behind() >= drivers.len() {
            return Ok(names);
        }
        line = Line::from(drivers, line.behind(), line.number.saturating_add(1));
    }
    Ok(names)
}
