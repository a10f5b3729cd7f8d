//! Nodes and properties of a blob that are asked for and aren't there.

use crate::alike::nearest;
use crate::blobs::of_file;
use crate::diagnosis::{Diagnosis, Note, Subject, copied};
use dt_blob::read;
use dt_tree::{Node, Tree};
use std::alloc::{AllocError, Global};

/// What is refused of a path, or of a property of the node there, by 53: the blob in the file of this name hasn't it.
pub fn diagnose_node(
    alloc: Global,
    file: &[u8],
    blob: &[u8],
    path: &[u8],
    property: Option<&[u8]>,
) -> Result<Diagnosis, AllocError> {
    let mut diagnosis = of_file(alloc, file, 53)?;
    diagnosis.kind = Subject::Node;
    diagnosis.subject = copied(alloc, path)?;
    if let Ok(tree) = read(alloc, blob) {
        add_missing(alloc, &mut diagnosis, &tree, path, property)?;
    }
    Ok(diagnosis)
}

/// The last node of a path that is there, and the name of the first that isn't.
#[derive(Clone, Copy)]
struct Reach<'t, 'p> {
    node: &'t Node,
    missing: Option<&'p [u8]>,
}

fn reach_of<'t, 'p>(tree: &'t Tree, path: &'p [u8]) -> Reach<'t, 'p> {
    let mut node = tree.root();
    for name in path.split(|b| *b == b'/') {
        if name.is_empty() {
            continue;
        }
        match node.child(name) {
            Some(child) => node = child,
            None => {
                return Reach {
                    node,
                    missing: Some(name),
                };
            }
        }
    }
    Reach {
        node,
        missing: None,
    }
}

fn add_missing(
    alloc: Global,
    diagnosis: &mut Diagnosis,
    tree: &Tree,
    path: &[u8],
    property: Option<&[u8]>,
) -> Result<(), AllocError> {
    let found = reach_of(tree, path);
    if path.first().copied() != Some(b'/') {
        diagnosis
            .notes
            .push(Note::Words("a path begins with a slash"))?;
        return Ok(());
    }
    match (found.missing, property) {
        (Some(name), _) => add_children(alloc, &mut diagnosis.notes, found.node, name),
        (None, Some(name)) => {
            diagnosis.kind = Subject::Property;
            diagnosis.subject = copied(alloc, name)?;
            diagnosis.notes.push(Note::In {
                path: copied(alloc, path)?,
                property: None,
            })?;
            add_properties(alloc, &mut diagnosis.notes, found.node, name)
        }
        (None, None) => Ok(()),
    }
}

// The children of a node that are spelled like a name.
fn add_children(
    alloc: Global,
    notes: &mut Vec<Note>,
    node: &Node,
    name: &[u8],
) -> Result<(), AllocError> {
    let mut there = Vec::new(alloc);
    for child in node.children() {
        there.push(child.name_bytes())?;
    }
    let names = nearest(alloc, name, there.as_slice())?;
    add_names(notes, "nodes there that are spelled alike: ", names)
}

// The properties of a node that are spelled like a name.
fn add_properties(
    alloc: Global,
    notes: &mut Vec<Note>,
    node: &Node,
    name: &[u8],
) -> Result<(), AllocError> {
    let mut there = Vec::new(alloc);
    for property in node.properties() {
        there.push(property.name.as_bytes())?;
    }
    let names = nearest(alloc, name, there.as_slice())?;
    add_names(notes, "properties there that are spelled alike: ", names)
}

fn add_names(
    notes: &mut Vec<Note>,
    what: &'static str,
    names: Vec<Vec<u8>>,
) -> Result<(), AllocError> {
    if !names.is_empty() {
        notes.push(Note::Alike { what, names })?;
    }
    Ok(())
}
