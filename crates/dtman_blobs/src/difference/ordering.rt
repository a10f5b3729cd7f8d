//! The order of what two trees both have.
ghost use Rattle.std.specs.Prelude.{◌≡◌, ◌+◌, length, IfOk, OnOk};
ghost use Rattle.std.specs.Cmp.Lexicographic.{pointwise};
ghost use Rattle.std.specs.Str.{bytes_eq};
ghost use Rattle.dtman_blobs.specs.Difference.SameOrder.{TellsOrder};
ghost use Rattle.dtman_blobs.specs.Difference.Private.Orders.{node_moves, own_moves, shared_properties};
ghost use Rattle.dtman_blobs.specs.Difference.Private.Sights.{moves_of, shared_children};
ghost use Rattle.dtman_blobs.specs.Difference.Private.Views.{now_of};

use crate::difference::by_name::{nodes_by_name, values_by_name};
use crate::difference::comparing::is_own_phandle;
use crate::difference::naming::path_below;
use dt_tree::{Node, Tree};
use std::alloc::{AllocError, Global};

/// What a node has in an order.
#[derive(Clone, Copy, Debug, PartialEq, Eq)]
pub enum Kind {
    Properties,
    Children,
}

/// Names that both trees have in the node at a path, where the one has them in another order than the other.
#[derive(Drop)]
pub struct Reordered<'t> {
    /// Each name behind a slash, of the root nothing.
    pub path: Vec<u8>,
    pub kind: Kind,
    pub first: Vec<&'t [u8]>,
    pub second: Vec<&'t [u8]>,
}

// The properties that count and that the other node has, too.
fn shared_properties<'t>(
    alloc: Global,
    ours: &'t Node,
    theirs: &Node,
) -> Result<Vec<&'t [u8]>, AllocError>
    ensures { IfOk result (λ names. now_of names.items ≡ shared_properties theirs.now.properties ours.now.properties) }
{
    theirs.check();
    let values = values_by_name(alloc, theirs.properties())?;
    let mut names = Vec::new(alloc);
    for property in ours.properties() {
        let name = property.name.as_bytes();
        if is_own_phandle(name) {
            continue;
        }
        if values.contains_key(name) {
            names.push(name)?;
        }
    }
    Ok(names)
}

// The children that the other node has, too.
fn shared_children<'t>(
    alloc: Global,
    ours: &'t Node,
    theirs: &Node,
) -> Result<Vec<&'t [u8]>, AllocError>
    ensures { IfOk result (λ names. now_of names.items ≡ shared_children theirs.now ours.now) }
{
    theirs.check();
    let others = nodes_by_name(alloc, theirs.children())?;
    let mut names = Vec::new(alloc);
    for node in ours.children() {
        let name = node.name_bytes();
        if others.contains_key(name) {
            names.push(name)?;
        }
    }
    Ok(names)
}

fn are_same_names(first: &[&[u8]], second: &[&[u8]]) -> bool
    ensures { result ≡ pointwise bytes_eq (now_of first.now) (now_of second.now) }
{
    first == second
}

fn tell_if_moved<'t>(
    alloc: Global,
    found: &mut Vec<Reordered<'t>>,
    path: &[u8],
    kind: Kind,
    first: Vec<&'t [u8]>,
    second: Vec<&'t [u8]>,
) -> Result<(), AllocError>
    ensures { OnOk result (length found.new.items ≡ length found.old.items + moves_of first.entry second.entry) }
{
    if are_same_names(first.as_slice(), second.as_slice()) {
        return Ok(());
    }
    let path = Vec::from_slice(alloc, path)?;
    found.push(Reordered {
        path,
        kind,
        first,
        second,
    })?;
    Ok(())
}

// What stands in another order in the one node than in the other.
fn add_own<'t>(
    alloc: Global,
    found: &mut Vec<Reordered<'t>>,
    path: &[u8],
    first: &'t Node,
    second: &'t Node,
) -> Result<(), AllocError>
    ensures { OnOk result (length found.new.items ≡ length found.old.items + own_moves first.now second.now) }
{
    let ours = shared_properties(alloc, first, second)?;
    let theirs = shared_properties(alloc, second, first)?;
    tell_if_moved(alloc, found, path, Kind::Properties, ours, theirs)?;
    let ours = shared_children(alloc, first, second)?;
    let theirs = shared_children(alloc, second, first)?;
    tell_if_moved(alloc, found, path, Kind::Children, ours, theirs)
}

// The same, and below them those of one path.
fn add_node<'t>(
    alloc: Global,
    found: &mut Vec<Reordered<'t>>,
    path: &[u8],
    first: &'t Node,
    second: &'t Node,
) -> Result<(), AllocError>
    ensures { OnOk result (length found.new.items ≡ length found.old.items + node_moves first.now second.now) }
{
    add_own(alloc, found, path, first, second)?;
    second.check();
    let others = nodes_by_name(alloc, second.children())?;
    for child in first.children() {
        if let Some(other) = others.get(child.name_bytes()) {
            let below = path_below(alloc, path, child.name_bytes())?;
            add_node(alloc, found, below.as_slice(), child, *other)?;
        }
    }
    Ok(())
}

/// What stands in another order in the one tree than in the other, of what both have. Of one board, nothing exactly where the two are in
/// one order.
pub fn compare_order<'t>(
    alloc: Global,
    first: &'t Tree,
    second: &'t Tree,
) -> Result<Vec<Reordered<'t>>, AllocError>
    ensures { IfOk result (λ found. TellsOrder first.now second.now (length found.items)) }
{
    first.check();
    second.check();
    let mut found = Vec::new(alloc);
    add_node(alloc, &mut found, b"", first.root(), second.root())?;
    Ok(found)
}
