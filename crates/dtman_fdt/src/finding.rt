//! Nodes by paths as libfdt takes them: a name without its unit address, and an alias in front.

use dt_tree::{Node, Tree};
use std::alloc::{AllocError, Global};

/// A node and its path: each name behind a slash, of the root nothing.
#[derive(Drop)]
pub struct Found<'t> {
    pub node: &'t Node,
    pub path: Vec<u8>,
}

/// What a path leads to.
#[derive(Drop)]
pub enum Lookup<'t> {
    Node(Found<'t>),
    /// No node has it.
    Missing,
    /// It begins with no slash and no alias.
    BadPath,
}

// The name is the one that is asked for, or that with a unit address where none is asked for.
fn is_like(name: &[u8], asked: &[u8]) -> bool {
    match name.strip_prefix(asked) {
        None => false,
        Some([]) => true,
        Some([first, ..]) => *first == b'@' && !asked.contains(&b'@'),
    }
}

/// The first child of a name, or of one with a unit address where none is asked for.
pub fn child_like<'t>(node: &'t Node, asked: &[u8]) -> Option<&'t Node> {
    for child in node.children() {
        if is_like(child.name_bytes(), asked) {
            return Some(child);
        }
    }
    None
}

fn add_name(path: &mut Vec<u8>, name: &[u8]) -> Result<(), AllocError> {
    path.push(b'/')?;
    path.extend_from_slice(name)
}

// Goes down the names between slashes.
fn descend<'t>(from: Found<'t>, names: &[u8]) -> Result<Option<Found<'t>>, AllocError> {
    let Found { mut node, mut path } = from;
    for name in names.split(|byte| *byte == b'/') {
        if name.is_empty() {
            continue;
        }
        match child_like(node, name) {
            None => return Ok(None),
            Some(child) => {
                add_name(&mut path, child.name_bytes())?;
                node = child;
            }
        }
    }
    Ok(Some(Found { node, path }))
}

fn root(alloc: Global, tree: &Tree) -> Found<'_> {
    Found {
        node: tree.root(),
        path: Vec::new(alloc),
    }
}

// The path that an alias stands for.
fn alias<'t>(tree: &'t Tree, name: &[u8]) -> Option<&'t [u8]> {
    let aliases = child_like(tree.root(), b"aliases")?;
    let value = aliases.value(name)?.as_slice();
    let path = value.strip_suffix(b"\0".as_slice())?;
    if path.starts_with(b"/".as_slice()) {
        Some(path)
    } else {
        None
    }
}

// The first name of a path, and the names behind it.
fn split_first(path: &[u8]) -> (&[u8], &[u8]) {
    match path.iter().position(|byte| *byte == b'/') {
        Some(place) => path.split_at(place),
        None => (path, &[]),
    }
}

fn looked_up(found: Option<Found<'_>>) -> Lookup<'_> {
    match found {
        Some(found) => Lookup::Node(found),
        None => Lookup::Missing,
    }
}

/// The node at a path: from the root behind a slash, or else from the node that its first name is an alias of.
pub fn find<'t>(alloc: Global, tree: &'t Tree, path: &[u8]) -> Result<Lookup<'t>, AllocError> {
    if path.starts_with(b"/".as_slice()) {
        return Ok(looked_up(descend(root(alloc, tree), path)?));
    }
    let (name, rest) = split_first(path);
    let Some(stands_for) = alias(tree, name) else {
        return Ok(Lookup::BadPath);
    };
    match descend(root(alloc, tree), stands_for)? {
        None => Ok(Lookup::Missing),
        Some(found) => Ok(looked_up(descend(found, rest)?)),
    }
}
