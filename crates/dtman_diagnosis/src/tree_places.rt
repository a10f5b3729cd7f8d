//! Nodes and properties of a tree by their numbers, in the order in which it is read: a node, its properties, its children.

use dt_tree::{Node, Property, Tree};
use std::alloc::{AllocError, Global};

/// A node of a tree, and the text of its path.
#[derive(Drop)]
pub(crate) struct NodePlace<'t> {
    pub node: &'t Node,
    pub path: Vec<u8>,
}

/// A property of a tree, and the node that has it.
#[derive(Drop)]
pub(crate) struct PropertyPlace<'t> {
    pub owner: NodePlace<'t>,
    pub property: &'t Property,
}

/// What is looked for among a node and all below it.
#[derive(Clone, Copy)]
enum Wanted {
    Node(usize),
    Property(usize),
}

/// The node of a number, from 0, the root.
pub(crate) fn node_at<'t>(
    alloc: Global,
    tree: &'t Tree,
    number: usize,
) -> Result<Option<NodePlace<'t>>, AllocError> {
    let mut wanted = Wanted::Node(number);
    find_in(alloc, tree, &mut wanted)
}

/// The property of a number, from 0.
pub(crate) fn property_at<'t>(
    alloc: Global,
    tree: &'t Tree,
    number: usize,
) -> Result<Option<PropertyPlace<'t>>, AllocError> {
    let mut wanted = Wanted::Property(number);
    let Some(owner) = find_in(alloc, tree, &mut wanted)? else {
        return Ok(None);
    };
    let Wanted::Property(place) = wanted else {
        return Ok(None);
    };
    match owner.node.properties().get(place) {
        Some(property) => Ok(Some(PropertyPlace { owner, property })),
        None => Ok(None),
    }
}

fn find_in<'t>(
    alloc: Global,
    tree: &'t Tree,
    wanted: &mut Wanted,
) -> Result<Option<NodePlace<'t>>, AllocError> {
    let mut path = Vec::new(alloc);
    let Some(node) = find_below(tree.root(), wanted, &mut path)? else {
        return Ok(None);
    };
    if path.is_empty() {
        path.push(b'/')?;
    }
    Ok(Some(NodePlace { node, path }))
}

// The node at which it stands. What is wanted is then counted from there, and the path leads there.
fn find_below<'t>(
    node: &'t Node,
    wanted: &mut Wanted,
    path: &mut Vec<u8>,
) -> Result<Option<&'t Node>, AllocError> {
    let Some(left) = left_behind(*wanted, node) else {
        return Ok(Some(node));
    };
    *wanted = left;
    for child in node.children() {
        let above = path.len();
        path.push(b'/')?;
        path.extend_from_slice(child.name_bytes())?;
        if let Some(found) = find_below(child, wanted, path)? {
            return Ok(Some(found));
        }
        path.truncate(above);
    }
    Ok(None)
}

// What is wanted of the nodes behind one, where it doesn't stand there.
fn left_behind(wanted: Wanted, node: &Node) -> Option<Wanted> {
    match wanted {
        Wanted::Node(number) => Some(Wanted::Node(number.checked_sub(1)?)),
        Wanted::Property(number) => {
            let count = node.properties().len();
            if number < count {
                return None;
            }
            Some(Wanted::Property(number.saturating_sub(count)))
        }
    }
}
