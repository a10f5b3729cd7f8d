//! The text of a diagnosis.

use crate::diagnosis::{Diagnosis, Location, Note};
use crate::escaping::{push_blank, push_mark, push_shown};
use crate::sentences::push_sentence;
use std::alloc::{AllocError, Global};

/// How much of a line is shown before the mark, and how much in all.
const BEFORE: usize = 80;

const SHOWN: usize = 160;

/// The lines of a refusal: its own first line, and what the diagnosis says, each ended.
pub fn text_of(alloc: Global, first: &str, diagnosis: &Diagnosis) -> Result<String, AllocError> {
    let mut out = format!(in alloc; "{first}\n")?;
    push_front(&mut out, &diagnosis.location)?;
    push_sentence(&mut out, diagnosis)?;
    out.push_str("\n")?;
    let width = push_excerpt(alloc, &mut out, &diagnosis.location)?;
    for note in &diagnosis.notes {
        push_spaces(&mut out, width)?;
        out.push_str("= ")?;
        push_note(&mut out, note)?;
        out.push_str("\n")?;
    }
    Ok(out)
}

// A location as text: nothing where it is nowhere.
fn push_location(out: &mut String, location: &Location) -> Result<(), AllocError> {
    match location {
        Location::Nowhere => {}
        Location::File { file } => push_shown(out, file.as_slice())?,
        Location::Text {
            file,
            line,
            column,
            ..
        } => {
            push_shown(out, file.as_slice())?;
            write!(out, ":{line}:{column}")?;
        }
        Location::Offset { file, offset } => {
            push_shown(out, file.as_slice())?;
            write!(out, ":0x{offset:x}")?;
        }
    }
    Ok(())
}

// The location in front of a sentence.
fn push_front(out: &mut String, location: &Location) -> Result<(), AllocError> {
    if matches!(location, Location::Nowhere) {
        return Ok(());
    }
    push_location(out, location)?;
    out.push_str(": ")
}

fn push_spaces(out: &mut String, count: usize) -> Result<(), AllocError> {
    for _ in 0..count {
        out.push_str(" ")?;
    }
    Ok(())
}

// The line with a mark under what is meant, and how wide its number is, with a blank.
fn push_excerpt(alloc: Global, out: &mut String, location: &Location) -> Result<usize, AllocError> {
    let Location::Text {
        line,
        column,
        text,
        marked,
        ..
    } = location
    else {
        return Ok(1);
    };
    let number = format!(in alloc; "{line}")?;
    let width = number.len().saturating_add(1);
    let begin = (*column).saturating_sub(1);
    let from = if begin > BEFORE { begin - BEFORE } else { 0 };
    let text = text.as_slice();
    let shown = text.get(from..).unwrap_or(&[]);
    let shown = shown.get(..SHOWN).unwrap_or(shown);
    let before = shown.get(..begin.saturating_sub(from)).unwrap_or(shown);
    let behind = shown.get(before.len()..).unwrap_or(&[]);
    let marked = behind.get(..*marked).unwrap_or(behind);
    push_spaces(out, width)?;
    out.push_str("|\n")?;
    out.push_str(number.as_str())?;
    out.push_str(" | ")?;
    push_shown(out, shown)?;
    out.push_str("\n")?;
    push_spaces(out, width)?;
    out.push_str("| ")?;
    push_blank(out, before)?;
    push_mark(out, marked)?;
    out.push_str("\n")?;
    Ok(width)
}

/// Writes a note without an end.
pub(crate) fn push_note(out: &mut String, note: &Note) -> Result<(), AllocError> {
    match note {
        Note::In { path, property } => push_around(out, path, property),
        Note::Alike { what, names } => push_alike(out, *what, names),
        Note::Earlier(location) => push_there(out, "the other one stands at ", location),
        Note::Deleted(location) => push_there(out, "it is deleted at ", location),
        Note::Unclosed(location) => push_there(
            out,
            "the bracket isn't closed that stands at ",
            location,
        ),
        Note::Indented { opened, before } => {
            push_there(out, "by its indentation the body that begins at ", opened)?;
            push_there(out, " should end before ", before)
        }
        Note::Meant(word) => {
            push_quoted(out, "did you mean ", word)?;
            out.push_str("?")
        }
        Note::Fixup(entry) => push_quoted(out, "its entry in __fixups__ is ", entry),
        Note::Stands(line) => {
            out.push_str("before it: ")?;
            push_shown(out, line.as_slice())
        }
        Note::Needs { device, supplier } => {
            push_shown(out, device.as_slice())?;
            out.push_str(" needs ")?;
            push_shown(out, supplier.as_slice())
        }
        Note::Cells { path, name, count } => push_cells(out, path, *name, *count),
        Note::Node { words, path } => {
            out.push_str(*words)?;
            push_shown(out, path.as_slice())
        }
        Note::Words(words) => out.push_str(*words),
        Note::Said(words) => push_shown(out, words.as_slice()),
        _ => push_number(out, note),
    }
}

// A note that tells a number.
fn push_number(out: &mut String, note: &Note) -> Result<(), AllocError> {
    match note {
        Note::Wanted { wanted, found } => {
            out.push_str("wanted is ")?;
            out.push_str(*wanted)?;
            match found {
                Some(word) => write!(out, ", and 0x{word:08x} stands there"),
                None => Ok(()),
            }
        }
        Note::Site(offset) => write!(out, "its entry is the offset {offset}"),
        Note::Phandle(phandle) => write!(out, "the phandle is 0x{phandle:x}"),
        Note::Target(phandle) => write!(out, "the target is phandle 0x{phandle:x}"),
        Note::Shift(shift) => write!(out, "phandles of the overlay are raised by 0x{shift:x}"),
        Note::Count { devices, most } => {
            write!(
                out,
                "there are {devices} devices; a plan has at most {most}"
            )
        }
        Note::Entry { entry, phandle } => write!(out, "entry {entry} is phandle 0x{phandle:x}"),
        Note::Length(length) => write!(out, "the value has {length} bytes"),
        Note::Left(cells) => write!(out, "cells behind it: {cells}"),
        _ => Ok(()),
    }
}

fn push_around(
    out: &mut String,
    path: &Vec<u8>,
    property: &Option<Vec<u8>>,
) -> Result<(), AllocError> {
    out.push_str("in ")?;
    push_shown(out, path.as_slice())?;
    match property {
        Some(name) => {
            out.push_str(", property ")?;
            push_shown(out, name.as_slice())
        }
        None => Ok(()),
    }
}

fn push_alike(out: &mut String, what: &str, names: &Vec<Vec<u8>>) -> Result<(), AllocError> {
    out.push_str(what)?;
    for (i, name) in names.iter().enumerate() {
        if i > 0 {
            out.push_str(", ")?;
        }
        push_shown(out, name.as_slice())?;
    }
    Ok(())
}

fn push_quoted(out: &mut String, words: &str, text: &Vec<u8>) -> Result<(), AllocError> {
    out.push_str(words)?;
    out.push_str("`")?;
    push_shown(out, text.as_slice())?;
    out.push_str("`")
}

// The node that an entry names, and how many cells it wants.
fn push_cells(
    out: &mut String,
    path: &Vec<u8>,
    name: &[u8],
    count: Option<u32>,
) -> Result<(), AllocError> {
    out.push_str("that is ")?;
    push_shown(out, path.as_slice())?;
    match count {
        Some(count) => {
            out.push_str(", whose ")?;
            push_shown(out, name)?;
            write!(out, " is {count}")
        }
        None => {
            out.push_str(", which has no ")?;
            push_shown(out, name)?;
            out.push_str(" of 4 bytes")
        }
    }
}

// A location within a note.
fn push_there(out: &mut String, words: &str, location: &Location) -> Result<(), AllocError> {
    out.push_str(words)?;
    push_location(out, location)
}
