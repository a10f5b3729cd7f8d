//! Refusals of overlays.

use crate::blobs::{of_file, of_location, of_refused};
use crate::diagnosis::{Diagnosis, Location, Note, copied};
use crate::overlay_notes::{OverlayNotes, kind_of};
use dt_blob::{ReadError, read};
use dt_overlay::OverlayError;
use dt_tree::Tree;
use std::alloc::{AllocError, Global};

/// What an overlay's refusal is of.
#[derive(Clone, Copy, Debug)]
pub enum OverlayCulprit {
    /// A word of the base, which is no tree.
    Base(ReadError),
    /// A word of the overlay, which is none.
    Applied(ReadError),
    /// A place of the overlay, where both are trees.
    Place(OverlayError),
}

/// What `overlay` refuses by this number of the blobs in the files of these names.
pub fn diagnose_overlay(
    alloc: Global,
    base_file: &[u8],
    base: &[u8],
    overlay_file: &[u8],
    overlay: &[u8],
    number: u8,
    culprit: Option<OverlayCulprit>,
) -> Result<Diagnosis, AllocError> {
    match culprit {
        Some(OverlayCulprit::Base(refused)) => of_refused(alloc, base_file, base, refused),
        Some(OverlayCulprit::Applied(refused)) => of_refused(alloc, overlay_file, overlay, refused),
        Some(OverlayCulprit::Place(error)) => of_both(alloc, base, overlay_file, overlay, error),
        None => of_result(alloc, number),
    }
}

// What is refused of the blob that both make.
fn of_result(alloc: Global, number: u8) -> Result<Diagnosis, AllocError> {
    let mut diagnosis = of_location(alloc, Location::Nowhere, number);
    if number == 38 {
        let words = "the tree that the overlay makes would have more";
        diagnosis.notes.push(Note::Words(words))?;
    }
    Ok(diagnosis)
}

// What is refused of an overlay on a base, once both are trees.
fn of_both(
    alloc: Global,
    base: &[u8],
    file: &[u8],
    overlay: &[u8],
    error: OverlayError,
) -> Result<Diagnosis, AllocError> {
    let Ok(base) = read(alloc, base) else {
        return of_file(alloc, file, error.number());
    };
    match read(alloc, overlay) {
        Ok(overlay) => of_trees(alloc, &base, file, &overlay, error),
        Err(_) => of_file(alloc, file, error.number()),
    }
}

fn of_trees(
    alloc: Global,
    base: &Tree,
    file: &[u8],
    overlay: &Tree,
    error: OverlayError,
) -> Result<Diagnosis, AllocError> {
    let mut said = OverlayNotes {
        alloc,
        base,
        overlay,
        subject: Vec::new(alloc),
        notes: Vec::new(alloc),
    };
    said.add(error)?;
    Ok(Diagnosis {
        number: error.number(),
        location: Location::File {
            file: copied(alloc, file)?,
        },
        kind: kind_of(error),
        subject: said.subject,
        notes: said.notes,
    })
}
