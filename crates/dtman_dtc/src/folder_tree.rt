//! The tree that a folder holds (`-I fs`), as Linux shows its own in /proc/device-tree: a folder is a node, a file a property.

use crate::reports::{Failure, Wrong};
use dt_blob::{BlobError, write};
use dt_tree::{Bytes, MAX_DEPTH, Name, Node, Property, Tree, TreeError};
use dtman_host::{Entry, EntryKind, Host, Surroundings};
use std::alloc::{AllocError, AllocFailed, Global};

/// Why a folder holds no tree.
#[derive(Clone, Copy, Debug, PartialEq, Eq)]
enum FolderError {
    NoMemory,
    Unread,
    /// Folders are nested deeper than nodes may be.
    TooDeep,
    /// A name that no node or property can have.
    BadName,
}

impl From<AllocError> for FolderError {
    fn from(_error: AllocError) -> Self {
        FolderError::NoMemory
    }
}

impl<T: Drop> From<AllocFailed<T>> for FolderError {
    fn from(_error: AllocFailed<T>) -> Self {
        FolderError::NoMemory
    }
}

impl From<TreeError> for FolderError {
    fn from(error: TreeError) -> Self {
        match error {
            TreeError::NoMemory => FolderError::NoMemory,
            TreeError::TooDeep => FolderError::TooDeep,
            _ => FolderError::BadName,
        }
    }
}

// The path of what is in a folder.
fn path_in(alloc: Global, folder: &str, name: &str) -> Result<String, AllocError> {
    let folder = folder.strip_suffix("/").unwrap_or(folder);
    format!(in alloc; "{folder}/{name}")
}

// A file's property; none where the file can't be read, which is told.
fn property_of<S: Surroundings, E: Eprint, T>(
    host: &mut Host<'_, S, E, T>,
    folder: &str,
    name: &str,
) -> Result<Option<Property>, FolderError> {
    let path = path_in(host.alloc, folder, name)?;
    let Ok(value) = host.blob(path.as_str()) else {
        let warning = format!(in host.alloc; "WARNING: Cannot open {path}\n")?;
        host.tell(warning.as_bytes());
        return Ok(None);
    };
    Ok(Some(Property {
        name: Name::new(host.alloc, name.as_bytes())?,
        value: Bytes::from_vec(value),
    }))
}

fn properties_of<S: Surroundings, E: Eprint, T>(
    host: &mut Host<'_, S, E, T>,
    folder: &str,
    entries: &[Entry],
) -> Result<Vec<Property>, FolderError> {
    let mut properties = Vec::new(host.alloc);
    for entry in entries {
        if entry.kind == EntryKind::File {
            if let Some(property) = property_of(host, folder, entry.name.as_str())? {
                properties.push(property)?;
            }
        }
    }
    Ok(properties)
}

// The node that a folder is, with so many levels at most below it.
fn node_of<S: Surroundings, E: Eprint, T>(
    host: &mut Host<'_, S, E, T>,
    folder: &str,
    name: Option<Name>,
    room: usize,
) -> Result<Node, FolderError> {
    let Ok(entries) = host.surroundings.entries(host.alloc, folder) else {
        return Err(FolderError::Unread);
    };
    let properties = properties_of(host, folder, entries.as_slice())?;
    let mut children = Vec::new(host.alloc);
    for entry in &entries {
        if entry.kind == EntryKind::Folder {
            if room == 0 {
                return Err(FolderError::TooDeep);
            }
            let path = path_in(host.alloc, folder, entry.name.as_str())?;
            let name = Name::new(host.alloc, entry.name.as_bytes())?;
            children.push(node_of(host, path.as_str(), Some(name), room - 1)?)?;
        }
    }
    Ok(Node::new(host.alloc, name, properties, children)?)
}

// The first node of this name below the root.
fn child_of<'a>(root: &'a Node, name: &[u8]) -> Option<&'a Node> {
    for child in root.children() {
        if child.name_bytes() == name {
            return Some(child);
        }
    }
    None
}

fn first_reg(root: &Node) -> Option<&[u8]> {
    let first = child_of(root, b"cpus")?.children().first()?;
    Some(first.value(b"reg")?.as_slice())
}

// The processor that boots: the `reg` of the first node in /cpus where that is one cell, else 0.
fn boot_processor(root: &Node) -> u32 {
    match first_reg(root) {
        Some([a, b, c, d]) => u32::from_be_bytes([*a, *b, *c, *d]),
        _ => 0,
    }
}

/// The blob of the tree that a folder holds. The processor that boots is the first below /cpus.
pub(crate) fn folder_blob<'a, S: Surroundings, E: Eprint, T>(
    host: &mut Host<'_, S, E, T>,
    folder: &'a str,
) -> Result<Vec<u8>, Failure<'a>> {
    let root = match node_of(host, folder, None, MAX_DEPTH) {
        Ok(root) => root,
        Err(error) => return Err(untold(host, folder, error)),
    };
    let processor = boot_processor(&root);
    let Ok(tree) = Tree::new(Vec::new(host.alloc), processor, root) else {
        return Err(Failure::NoInput(folder));
    };
    let Ok(hasher) = host.seed() else {
        return Err(Failure::NoSeed);
    };
    match write(host.alloc, hasher, &tree) {
        Ok(blob) => Ok(blob),
        Err(BlobError::TooLarge) => Err(Failure::TooLong),
        Err(_) => Err(Failure::NoMemory),
    }
}

// Says what of a folder is no tree.
fn untold<'a, S: Surroundings, E: Eprint, T>(
    host: &mut Host<'_, S, E, T>,
    folder: &'a str,
    error: FolderError,
) -> Failure<'a> {
    let why = match error {
        FolderError::NoMemory => return Failure::NoMemory,
        FolderError::Unread => return Failure::NoInput(folder),
        FolderError::TooDeep => "folders are nested over 64 deep",
        FolderError::BadName => "a file has a name that no property or node can have",
    };
    match format!(in host.alloc; "Error: {folder}: {why}\n") {
        Ok(line) => host.tell(line.as_bytes()),
        Err(_) => return Failure::NoMemory,
    }
    Failure::Said(Wrong::Text)
}
