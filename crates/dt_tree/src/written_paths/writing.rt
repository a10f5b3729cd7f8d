//! A node's path as text.

use crate::MAX_DEPTH;
use crate::written_paths::nodes::Parents;
use std::alloc::{AllocError, Global};

/// The path of a node as text. Below a node that has no other above it, and is no root, it begins with that node's name.
pub fn path_of<'t, N: Parents<'t>>(
    alloc: Global,
    nodes: &N,
    node: usize,
) -> Result<Vec<u8>, AllocError> {
    let mut names = Vec::new(alloc);
    let mut below = node;
    for _ in 0..MAX_DEPTH + 2 {
        let Some(link) = nodes.link(below) else {
            break;
        };
        names.push(link.name)?;
        if link.parent == below {
            break;
        }
        below = link.parent;
    }
    joined(alloc, names.as_slice())
}

// Names from the last to the first, each behind a slash but the last.
fn joined(alloc: Global, names: &[&[u8]]) -> Result<Vec<u8>, AllocError> {
    let mut path = Vec::new(alloc);
    for (i, name) in names.iter().rev().enumerate() {
        if i > 0 {
            path.push(b'/')?;
        }
        path.extend_from_slice(*name)?;
    }
    if path.is_empty() {
        path.push(b'/')?;
    }
    Ok(path)
}
