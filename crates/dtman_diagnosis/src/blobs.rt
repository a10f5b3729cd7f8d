//! Refusals of blobs.

use crate::blob_texts::{wanted_in_structure, wanted_text};
use crate::blob_words::{BlobWord, word_behind};
use crate::diagnosis::{Diagnosis, Location, Note, Subject, copied};
use crate::natures::nature_of_no_blob;
use crate::node_path::path_around;
use dt_blob::{BlobError, ReadError};
use std::alloc::{AllocError, Global};

/// A diagnosis of a location with nothing more to say.
pub(crate) fn of_location(alloc: Global, location: Location, number: u8) -> Diagnosis {
    Diagnosis {
        number,
        location,
        kind: Subject::Nothing,
        subject: Vec::new(alloc),
        notes: Vec::new(alloc),
    }
}

/// A diagnosis of a file as a whole.
pub(crate) fn of_file(alloc: Global, file: &[u8], number: u8) -> Result<Diagnosis, AllocError> {
    let file = copied(alloc, file)?;
    Ok(of_location(alloc, Location::File { file }, number))
}

/// A diagnosis of a file as a whole, and words.
pub(crate) fn of_file_with(
    alloc: Global,
    file: &[u8],
    number: u8,
    words: &'static str,
) -> Result<Diagnosis, AllocError> {
    let mut diagnosis = of_file(alloc, file, number)?;
    diagnosis.notes.push(Note::Words(words))?;
    Ok(diagnosis)
}

/// What is refused of the blob in the file of this name by this number, 30 to 38: the word of it that is refused, where one is.
pub fn diagnose_blob(
    alloc: Global,
    file: &[u8],
    blob: &[u8],
    number: u8,
    refused: Option<ReadError>,
) -> Result<Diagnosis, AllocError> {
    match refused {
        Some(refused) => of_refused(alloc, file, blob, refused),
        None if number == 38 => of_file_with(alloc, file, number, "its text would have more"),
        None => of_file(alloc, file, number),
    }
}

/// What is refused of the blob in the file of this name.
pub(crate) fn of_refused(
    alloc: Global,
    file: &[u8],
    blob: &[u8],
    refused: ReadError,
) -> Result<Diagnosis, AllocError> {
    let number = refused.kind.number();
    // a location says nothing of what is too long
    if number == 38 {
        return of_file_with(alloc, file, number, "the file has more");
    }
    let word = word_behind(blob, refused.at);
    Ok(Diagnosis {
        number,
        location: Location::Offset {
            file: copied(alloc, file)?,
            offset: word.offset,
        },
        kind: Subject::Nothing,
        subject: Vec::new(alloc),
        notes: notes_of(alloc, blob, refused, word)?,
    })
}

fn notes_of(
    alloc: Global,
    blob: &[u8],
    refused: ReadError,
    word: BlobWord,
) -> Result<Vec<Note>, AllocError> {
    let mut notes = Vec::new(alloc);
    notes.push(Note::Wanted {
        wanted: wanted_text(refused.wanted),
        found: word.found,
    })?;
    if wanted_in_structure(refused.wanted).is_some() {
        notes.push(Note::In {
            path: path_around(alloc, blob, word.offset)?,
            property: None,
        })?;
    }
    add_nature(&mut notes, blob, refused.kind)?;
    Ok(notes)
}

// What a file is that doesn't begin as a blob.
fn add_nature(notes: &mut Vec<Note>, blob: &[u8], kind: BlobError) -> Result<(), AllocError> {
    if matches!(kind, BlobError::Truncated | BlobError::BadMagic) {
        if let Some(words) = nature_of_no_blob(blob) {
            notes.push(Note::Words(words))?;
        }
    }
    Ok(())
}
