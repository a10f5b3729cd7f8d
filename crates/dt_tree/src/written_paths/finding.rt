//! The node at a path.

use crate::MAX_DEPTH;
use crate::written_paths::nodes::Children;

/// The node at a path, if it is there.
pub fn at_path<'t, N: Children<'t>>(nodes: &N, path: &'t [u8]) -> Option<usize> {
    let mut node = 0;
    let mut left = path;
    for _ in 0..MAX_DEPTH + 2 {
        let (name, rest) = first_name(left)?;
        if name.is_empty() {
            return Some(node);
        }
        node = nodes.child(node, name)?;
        left = rest;
    }
    None
}

// The name behind the slash in front, and what follows it.
fn first_name(path: &[u8]) -> Option<(&[u8], &[u8])> {
    let rest = match path {
        [b'/', rest @ ..] => rest,
        _ => path,
    };
    match rest.iter().position(|c| *c == b'/') {
        Some(i) => Some((rest.get(..i)?, rest.get(i..)?)),
        None => Some((rest, rest.get(rest.len()..)?)),
    }
}
