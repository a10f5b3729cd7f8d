//! Refusals of text files of the bus.

use crate::alike::nearest;
use crate::blobs::of_file;
use crate::bus_forms::{Slip, TextKind, slip_in};
use crate::bus_lines::{Line, Word, earlier_line, head_of, line_numbered};
use crate::device_paths::{add_of_blob, add_paths, paths_in_plan, unknown_path};
use crate::diagnosis::{Diagnosis, Location, Note, Subject, copied};
use crate::escaping::character_len;
use crate::natures::nature_of_no_text;
use crate::suppliers::add_devices;
use bus_plan::is_line_byte;
use std::alloc::{AllocError, Global};

/// Where the devices are that lines name by their paths.
#[derive(Clone, Copy)]
pub enum Devices<'a> {
    /// In the plan in a file of this name.
    Plan { file: &'a [u8], bytes: &'a [u8] },
    Blob(&'a [u8]),
    /// Nowhere: no line names any.
    None,
}

/// A text file of the bus, by its name.
#[derive(Clone, Copy)]
pub struct BusText<'a> {
    pub kind: TextKind,
    pub file: &'a [u8],
    pub bytes: &'a [u8],
    pub devices: Devices<'a>,
}

/// Bytes of a line that are meant.
#[derive(Clone, Copy)]
pub(crate) struct Marked {
    pub start: usize,
    pub len: usize,
}

impl<'a> BusText<'a> {
    /// Bytes of a line.
    pub(crate) fn location(
        &self,
        alloc: Global,
        line: Line<'a>,
        marked: Marked,
    ) -> Result<Location, AllocError> {
        location_in(alloc, self.file, line, marked)
    }

    /// A line as a whole.
    pub(crate) fn of_line(
        &self,
        alloc: Global,
        line: Line<'a>,
        number: u8,
    ) -> Result<Diagnosis, AllocError> {
        let marked = Marked {
            start: 0,
            len: line.shown().len(),
        };
        self.of_marked(alloc, line, marked, number)
    }

    fn of_marked(
        &self,
        alloc: Global,
        line: Line<'a>,
        marked: Marked,
        number: u8,
    ) -> Result<Diagnosis, AllocError> {
        Ok(Diagnosis {
            number,
            location: self.location(alloc, line, marked)?,
            kind: Subject::Nothing,
            subject: Vec::new(alloc),
            notes: Vec::new(alloc),
        })
    }

    // A word of a line, as the subject.
    fn of_word(
        &self,
        alloc: Global,
        line: Line<'a>,
        word: Word<'a>,
        kind: Subject,
        number: u8,
    ) -> Result<Diagnosis, AllocError> {
        let mut diagnosis = self.of_marked(alloc, line, marked_by(word), number)?;
        diagnosis.kind = kind;
        diagnosis.subject = copied(alloc, word.text)?;
        Ok(diagnosis)
    }

    // ---- 50

    // A line that has no lawful form.
    fn of_bad_line(&self, alloc: Global, line: Line<'a>) -> Result<Diagnosis, AllocError> {
        if let Some(at) = bad_byte(self.bytes, line) {
            return self.of_byte(alloc, line, at);
        }
        let words = line.words(alloc)?;
        match slip_in(alloc, self.kind, words.as_slice())? {
            Some(slip) => self.of_slip(alloc, line, words.as_slice(), slip),
            None => self.of_unknown_form(alloc, line),
        }
    }

    fn of_unknown_form(&self, alloc: Global, line: Line<'a>) -> Result<Diagnosis, AllocError> {
        let mut diagnosis = self.of_line(alloc, line, 50)?;
        if self.kind == TextKind::Reference {
            let words = "a line is a `compatible`, a tab and a property";
            diagnosis.notes.push(Note::Words(words))?;
        }
        Ok(diagnosis)
    }

    // A byte that can't stand in a line.
    fn of_byte(
        &self,
        alloc: Global,
        line: Line<'a>,
        start: usize,
    ) -> Result<Diagnosis, AllocError> {
        let rest = line.text.get(start..).unwrap_or(&[]);
        let len = character_len(rest);
        let mut diagnosis = self.of_marked(alloc, line, Marked { start, len }, 50)?;
        diagnosis.kind = Subject::Character;
        let words = match nature_of_no_text(self.bytes) {
            Some(words) if line.number == 1 => words,
            _ if rest.first().copied() == Some(b'\r') => {
                "a carriage return stands right before a line's end, and only one"
            }
            _ => "a line has tabs and the characters from space to tilde",
        };
        diagnosis.notes.push(Note::Words(words))?;
        Ok(diagnosis)
    }

    fn of_slip(
        &self,
        alloc: Global,
        line: Line<'a>,
        words: &[Word<'a>],
        slip: Slip,
    ) -> Result<Diagnosis, AllocError> {
        let mut diagnosis = match words.get(slip.word) {
            Some(word) => self.of_word(alloc, line, *word, Subject::Word, 50)?,
            None => self.of_end(alloc, line, words)?,
        };
        if let Some(word) = words.get(slip.word) {
            add_choice(alloc, &mut diagnosis.notes, word.text, slip.choices)?;
        }
        diagnosis.notes.push(Note::Words(slip.form))?;
        Ok(diagnosis)
    }

    // Where a line ends, and more must follow.
    fn of_end(
        &self,
        alloc: Global,
        line: Line<'a>,
        words: &[Word<'a>],
    ) -> Result<Diagnosis, AllocError> {
        let start = match words.last() {
            Some(word) => word.end(),
            None => 0,
        };
        let mut diagnosis = self.of_marked(alloc, line, Marked { start, len: 1 }, 50)?;
        diagnosis.kind = Subject::End;
        Ok(diagnosis)
    }

    // ---- 51 and 52

    // A line that is about the same as one before.
    fn of_repeated(
        &self,
        alloc: Global,
        line: Line<'a>,
        number: u8,
    ) -> Result<Diagnosis, AllocError> {
        let (Some(head), Some(earlier)) = (head_of(line), earlier_line(self.bytes, line.number))
        else {
            return self.of_line(alloc, line, number);
        };
        let mut diagnosis = self.of_word(alloc, line, head.name, Subject::Name, number)?;
        let there = self.location(alloc, earlier.line, marked_by(earlier.head.name))?;
        diagnosis.notes.push(Note::Earlier(there))?;
        Ok(diagnosis)
    }

    // ---- 53

    // A line with a path that no device has.
    fn of_unknown(&self, alloc: Global, line: Line<'a>) -> Result<Diagnosis, AllocError> {
        match self.devices {
            Devices::None => self.of_line(alloc, line, 53),
            Devices::Blob(blob) => self.of_no_device(alloc, line, blob),
            Devices::Plan { bytes, .. } => self.of_no_planned(alloc, line, bytes),
        }
    }

    // A driver's line names no device of a blob.
    fn of_no_device(
        &self,
        alloc: Global,
        line: Line<'a>,
        blob: &[u8],
    ) -> Result<Diagnosis, AllocError> {
        let Some(head) = head_of(line) else {
            return self.of_line(alloc, line, 53);
        };
        let mut diagnosis = self.of_word(alloc, line, head.name, Subject::Path, 53)?;
        add_of_blob(alloc, &mut diagnosis.notes, head.name.text, blob)?;
        Ok(diagnosis)
    }

    // A line names no device of a plan.
    fn of_no_planned(
        &self,
        alloc: Global,
        line: Line<'a>,
        plan: &[u8],
    ) -> Result<Diagnosis, AllocError> {
        let paths = paths_in_plan(alloc, plan)?;
        let words = line.words(alloc)?;
        let Some(word) = unknown_path(words.as_slice(), paths.as_slice()) else {
            return self.of_line(alloc, line, 53);
        };
        let mut diagnosis = self.of_word(alloc, line, word, Subject::Path, 53)?;
        add_paths(alloc, &mut diagnosis.notes, word.text, paths.as_slice())?;
        Ok(diagnosis)
    }
}

/// The bytes of a word.
pub(crate) fn marked_by(word: Word<'_>) -> Marked {
    Marked {
        start: word.start,
        len: word.text.len(),
    }
}

/// Bytes of a line of a file.
pub(crate) fn location_in(
    alloc: Global,
    file: &[u8],
    line: Line<'_>,
    marked: Marked,
) -> Result<Location, AllocError> {
    Ok(Location::Text {
        file: copied(alloc, file)?,
        line: line.number,
        column: marked.start.saturating_add(1),
        text: copied(alloc, line.shown())?,
        marked: marked.len,
    })
}

// The first byte that can't stand in a line. A carriage return that a line feed follows isn't of the line.
fn bad_byte(text: &[u8], line: Line<'_>) -> Option<usize> {
    let is_ended = line.start.saturating_add(line.text.len()) < text.len();
    let bytes = if is_ended { line.shown() } else { line.text };
    bytes.iter().position(|b| !is_line_byte(*b))
}

// The choice that a word is spelled like.
fn add_choice(
    alloc: Global,
    notes: &mut Vec<Note>,
    word: &[u8],
    choices: &[&'static str],
) -> Result<(), AllocError> {
    let mut names = Vec::new(alloc);
    for choice in choices {
        names.push((*choice).as_bytes())?;
    }
    let alike = nearest(alloc, word, names.as_slice())?;
    if let Some(first) = alike.first() {
        notes.push(Note::Meant(copied(alloc, first.as_slice())?))?;
    }
    Ok(())
}

// A plan of too many devices.
fn of_devices(alloc: Global, text: BusText<'_>) -> Result<Diagnosis, AllocError> {
    let mut diagnosis = of_file(alloc, text.file, 56)?;
    let paths = paths_in_plan(alloc, text.bytes)?;
    add_devices(&mut diagnosis.notes, paths.len())?;
    Ok(diagnosis)
}

/// What is refused of a text file by this number, in a line where it tells one.
pub fn diagnose_text(
    alloc: Global,
    text: BusText<'_>,
    number: u8,
    line: Option<usize>,
) -> Result<Diagnosis, AllocError> {
    let Some(line) = line else {
        return match number {
            56 => of_devices(alloc, text),
            _ => of_file(alloc, text.file, number),
        };
    };
    let line = line_numbered(text.bytes, line);
    match number {
        50 => text.of_bad_line(alloc, line),
        51 | 52 => text.of_repeated(alloc, line, number),
        53 => text.of_unknown(alloc, line),
        _ => text.of_line(alloc, line, number),
    }
}
