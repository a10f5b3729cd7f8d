//! Paths of devices, and those that are like one that no device has.

use crate::alike::nearest_paths;
use crate::bus_lines::{Word, first_word};
use crate::device_rows::device_paths;
use crate::diagnosis::{Diagnosis, Location, Note, Subject, copied};
use dt_blob::read;
use dt_tree::{Path, Tree};
use std::alloc::{AllocError, Global};

/// Tells paths that are like one that isn't there.
pub(crate) fn add_paths(
    alloc: Global,
    notes: &mut Vec<Note>,
    path: &[u8],
    paths: &[&[u8]],
) -> Result<(), AllocError> {
    let names = nearest_paths(alloc, path, paths)?;
    if !names.is_empty() {
        let what = "paths that are like it: ";
        notes.push(Note::Alike { what, names })?;
    }
    Ok(())
}

// Lists as slices.
fn slices_of<'a>(alloc: Global, owned: &'a [Vec<u8>]) -> Result<Vec<&'a [u8]>, AllocError> {
    let mut slices = Vec::with_capacity(alloc, owned.len())?;
    for bytes in owned {
        slices.push(bytes.as_slice())?;
    }
    Ok(slices)
}

/// The paths of a plan's devices, each the first word of a line.
pub(crate) fn paths_in_plan<'a>(
    alloc: Global,
    plan: &'a [u8],
) -> Result<Vec<&'a [u8]>, AllocError> {
    let mut paths = Vec::new(alloc);
    for line in plan.split(|b| *b == b'\n') {
        if let Some(word) = first_word(line) {
            if word.text.first().copied() == Some(b'/') {
                paths.push(word.text)?;
            }
        }
    }
    Ok(paths)
}

/// The first path of a line that is none of these.
pub(crate) fn unknown_path<'a>(words: &[Word<'a>], paths: &[&[u8]]) -> Option<Word<'a>> {
    words
        .iter()
        .find(|word| word.text.first().copied() == Some(b'/') && !is_among(word.text, paths))
        .copied()
}

fn is_among(path: &[u8], paths: &[&[u8]]) -> bool {
    paths.iter().any(|other| *other == path)
}

/// What is refused of a path that is asked for, by 53: no device of the blob has it.
pub fn diagnose_device(alloc: Global, path: &[u8], blob: &[u8]) -> Result<Diagnosis, AllocError> {
    let mut diagnosis = Diagnosis {
        number: 53,
        location: Location::Nowhere,
        kind: Subject::Path,
        subject: copied(alloc, path)?,
        notes: Vec::new(alloc),
    };
    add_of_blob(alloc, &mut diagnosis.notes, path, blob)?;
    Ok(diagnosis)
}

/// Tells of a path that no device of a blob has.
pub(crate) fn add_of_blob(
    alloc: Global,
    notes: &mut Vec<Note>,
    path: &[u8],
    blob: &[u8],
) -> Result<(), AllocError> {
    match read(alloc, blob) {
        Ok(tree) => add_of_tree(alloc, notes, path, &tree),
        Err(_) => Ok(()),
    }
}

// That a node is there and is no device, or which devices' paths are like this.
fn add_of_tree(
    alloc: Global,
    notes: &mut Vec<Note>,
    path: &[u8],
    tree: &Tree,
) -> Result<(), AllocError> {
    if has_node(alloc, tree, path) {
        notes.push(Note::Words("the node there has no `compatible`, so it is no device"))?;
        return Ok(());
    }
    let owned = device_paths(alloc, tree)?;
    let paths = slices_of(alloc, owned.as_slice())?;
    add_paths(alloc, notes, path, paths.as_slice())
}

fn has_node(alloc: Global, tree: &Tree, path: &[u8]) -> bool {
    match Path::parse(alloc, path) {
        Ok(path) => tree.find(&path).is_some(),
        Err(_) => false,
    }
}
