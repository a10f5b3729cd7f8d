//! Paths of nodes, through the labels of bodies that extend them.

use crate::library::shelf::Library;
use dt_outline::{Node, NodeKind};
use std::alloc::AllocError;

/// The most bodies whose paths are put together.
const MAX_STEPS: usize = 4096;

/// A node of a text.
#[derive(Clone, Copy)]
struct Body {
    source: usize,
    node: usize,
}

fn node_of(library: &Library, body: Body) -> Option<&Node> {
    library.get(body.source)?.outline.nodes.get(body.node)
}

/// The node that a label names in one of these texts.
fn labelled(library: &Library, scope: &[usize], label: &[u8]) -> Option<Body> {
    for number in scope {
        let Some(source) = library.get(*number) else {
            continue;
        };
        for found in &source.outline.labels {
            if let Some(node) = found.node {
                if source.bytes(found.name) == label {
                    return Some(Body {
                        source: *number,
                        node,
                    });
                }
            }
        }
    }
    None
}

/// The name of a node, as it is written.
fn name_of(library: &Library, body: Body) -> &[u8] {
    match (library.get(body.source), node_of(library, body)) {
        (Some(source), Some(node)) => source.bytes(node.name),
        _ => b"",
    }
}

/// The node that a body without one around it extends.
fn extended(library: &Library, scope: &[usize], body: Body) -> Option<Body> {
    match name_of(library, body) {
        [b'&', label @ ..] => labelled(library, scope, label),
        _ => None,
    }
}

/// The bodies that lead to one, the innermost first.
fn way_to(
    library: &Library,
    scope: &[usize],
    way: &mut Vec<Body>,
    body: Body,
) -> Result<(), AllocError> {
    let mut next = Some(body);
    for _ in 0..MAX_STEPS {
        let Some(body) = next else {
            break;
        };
        let Some(node) = node_of(library, body) else {
            break;
        };
        if node.kind == NodeKind::Extension {
            next = extended(library, scope, body);
            if next.is_none() {
                way.push(body)?;
            }
        } else {
            way.push(body)?;
            next = node.parent.map(|parent| Body {
                source: body.source,
                node: parent,
            });
        }
    }
    Ok(())
}

/// The name of a body in a path: of `&{/soc}` the path, of `&label` all of it.
fn shown(name: &[u8]) -> &[u8] {
    match name {
        [b'&', b'{', path @ .., b'}'] => path,
        _ => name,
    }
}

/// Puts the path of a node.
pub(crate) fn push_path(
    library: &Library,
    scope: &[usize],
    way: &mut Vec<u8>,
    source: usize,
    node: usize,
) -> Result<(), AllocError> {
    let mut bodies = Vec::new(*way.allocator());
    way_to(library, scope, &mut bodies, Body { source, node })?;
    let start = way.len();
    for body in bodies.as_slice().iter().rev() {
        let name = name_of(library, *body);
        if name == b"/".as_slice() {
            continue;
        }
        if !name.starts_with(b"&") {
            way.push(b'/')?;
        }
        way.extend_from_slice(shown(name))?;
    }
    if way.len() == start {
        way.push(b'/')?;
    }
    Ok(())
}
