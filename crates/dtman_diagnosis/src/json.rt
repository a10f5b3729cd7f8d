//! A refusal as an object of JSON (RFC 8259).

use crate::diagnosis::{Diagnosis, Location, Note};
use crate::escaping::{Piece, first_piece};
use crate::sentences::push_sentence;
use crate::text::push_note;
use std::alloc::{AllocError, Global};

/// The line of a refusal of this name: an object, with the line feed behind it. The line is that of the fault, which is told where the
/// diagnosis has none.
pub fn json_of(
    alloc: Global,
    name: &str,
    line: Option<usize>,
    diagnosis: &Diagnosis,
) -> Result<String, AllocError> {
    let mut out = String::from_str(alloc, "{")?;
    push_location(&mut out, line, &diagnosis.location)?;
    let number = diagnosis.number;
    write!(out, "\"severity\":\"error\",\"number\":{number},\"name\":")?;
    push_text(&mut out, name.as_bytes())?;
    push_around(&mut out, diagnosis.notes.as_slice())?;
    push_words(alloc, &mut out, diagnosis)?;
    out.push_str("}\n")?;
    Ok(out)
}

// The file and the place in it, each with a comma behind.
fn push_location(
    out: &mut String,
    line: Option<usize>,
    location: &Location,
) -> Result<(), AllocError> {
    match location {
        Location::Nowhere => push_line(out, line),
        Location::File { file } => {
            push_file(out, file)?;
            push_line(out, line)
        }
        Location::Text {
            file,
            line,
            column,
            marked,
            ..
        } => {
            push_file(out, file)?;
            let end = (*column).saturating_add(*marked);
            write!(out, "\"line\":{line},\"column\":{column},\"end\":{end},")
        }
        Location::Offset { file, offset } => {
            push_file(out, file)?;
            write!(out, "\"offset\":{offset},")
        }
    }
}

fn push_file(out: &mut String, file: &Vec<u8>) -> Result<(), AllocError> {
    out.push_str("\"file\":")?;
    push_text(out, file.as_slice())?;
    out.push_str(",")
}

fn push_line(out: &mut String, line: Option<usize>) -> Result<(), AllocError> {
    match line {
        Some(line) => write!(out, "\"line\":{line},"),
        None => Ok(()),
    }
}

// The node and the property in which it stands, each with a comma in front.
fn push_around(out: &mut String, notes: &[Note]) -> Result<(), AllocError> {
    let Some(Note::In { path, property }) = notes.iter().find(|note| is_around(note)) else {
        return Ok(());
    };
    out.push_str(",\"path\":")?;
    push_text(out, path.as_slice())?;
    if let Some(name) = property {
        out.push_str(",\"property\":")?;
        push_text(out, name.as_slice())?;
    }
    Ok(())
}

fn is_around(note: &Note) -> bool {
    matches!(note, Note::In { .. })
}

// The sentence, and the other notes as a list, where there are any.
fn push_words(alloc: Global, out: &mut String, diagnosis: &Diagnosis) -> Result<(), AllocError> {
    let mut sentence = String::new(alloc);
    push_sentence(&mut sentence, diagnosis)?;
    out.push_str(",\"message\":")?;
    push_text(out, sentence.as_bytes())?;
    let mut between = ",\"notes\":[";
    for note in &diagnosis.notes {
        if !is_around(note) {
            out.push_str(between)?;
            push_noted(alloc, out, note)?;
            between = ",";
        }
    }
    if between == "," {
        out.push_str("]")?;
    }
    Ok(())
}

fn push_noted(alloc: Global, out: &mut String, note: &Note) -> Result<(), AllocError> {
    let mut words = String::new(alloc);
    push_note(&mut words, note)?;
    push_text(out, words.as_bytes())
}

// Writes bytes as a string of JSON: what is no character as `\xNN`, as in text.
fn push_text(out: &mut String, bytes: &[u8]) -> Result<(), AllocError> {
    out.push_str("\"")?;
    let mut left = bytes;
    for _ in 0..bytes.len() {
        let Some((piece, len)) = first_piece(left) else {
            break;
        };
        match piece {
            Piece::Character("\"") => out.push_str("\\\"")?,
            Piece::Character("\\") => out.push_str("\\\\")?,
            Piece::Character("\t") => out.push_str("\\t")?,
            Piece::Character(character) => out.push_str(character)?,
            Piece::Byte(byte) => write!(out, "\\\\x{byte:02x}")?,
        }
        left = left.get(len..).unwrap_or(&[]);
    }
    out.push_str("\"")
}
