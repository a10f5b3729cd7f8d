//! A tree as rows.
ghost use Rattle.std.specs.Prelude.{◌≡◌, true, IfOk, OnOk};
ghost use Rattle.dt_source.specs.TreeMeaning.Edits.{empty};
ghost use Rattle.dt_source.specs.TreeMeaning.Paths.{Path};
ghost use Rattle.dt_live.specs.ByRow.{KeepsRows, has_all_rows};
ghost use Rattle.dt_live.specs.Rows.{HasSameNodes, IsLiveTree, IsKept, IsNode, is_standing, node_path, state_of};
ghost use Rattle.dt_live.specs.Flattened.{IsFlattened, lists};
ghost use Rattle.dt_live.specs.Private.Flattening.{with_properties, with_tree};

use crate::live_tree::LiveTree;
use dt_tree::{Node, Property, Tree};
use std::alloc::{AllocError, Global};
use std::hash::RandomState;

/// The tree as the one body that defines all rows.
const STAMP: usize = 1;

/// No text has a definition of theirs.
const NOWHERE: u32 = 0;

/// The nodes and the properties of a tree as rows, each node before those below it, with names and values lent from the tree.
/// A node costs constant time, and so does a property.
pub fn flatten<'t>(
    alloc: Global,
    hasher: RandomState,
    tree: &'t Tree,
) -> Result<LiveTree<'t, &'t [u8]>, AllocError>
    ensures { IfOk result (λ live. IsFlattened live tree.now.root) }
{
    let mut live = LiveTree::new(alloc, hasher);
    match fill(&mut live, tree) {
        Ok(()) => Ok(live),
        Err(error) => Err(error),
    }
}

// Fills an empty live tree with the rows of a tree.
fn fill<'t>(live: &mut LiveTree<'t, &'t [u8]>, tree: &'t Tree) -> Result<(), AllocError>
    requires sound { IsLiveTree live.old }
    requires empty { state_of live.old ≡ empty }
    requires rows { has_all_rows live.old ≡ true }
    ensures { OnOk result (IsFlattened live.new tree.now.root) }
{
    let root = tree.root();
    root.check();
    flatten_node(live, 0, root)?;
    Ok(())
}

// Puts the properties of a node behind all others.
fn flatten_properties<'t>(
    live: &mut LiveTree<'t, &'t [u8]>,
    node: usize,
    properties: &'t [Property],
) -> Result<(), AllocError>
    requires sound { IsLiveTree live.old }
    requires known { IsNode live.old node }
    requires stands { is_standing live.old node ≡ true }
    ensures sound { OnOk result (IsLiveTree live.new) }
    ensures kept { OnOk result (HasSameNodes live.old live.new) }
    ensures rows { OnOk result (KeepsRows live.old live.new) }
    ensures labels { OnOk result ((state_of live.new).labels ≡ (state_of live.old).labels) }
    ensures lists { OnOk result (lists live.new ≡ with_properties live.old node properties.now) }
{
    for property in properties {
        let name = property.name.as_bytes();
        live.set_property(node, name, property.value.as_slice(), STAMP)?;
    }
    Ok(())
}

// Puts the properties of a node, and the nodes below it with theirs, behind all others.
fn flatten_node<'t>(
    live: &mut LiveTree<'t, &'t [u8]>,
    number: usize,
    node: &'t Node,
) -> Result<(), AllocError>
    requires sound { IsLiveTree live.old }
    requires known { IsNode live.old number }
    requires stands { is_standing live.old number ≡ true }
    ensures sound { OnOk result (IsLiveTree live.new) }
    ensures kept { OnOk result ((p : Path) → IsKept p live.old live.new) }
    ensures rows { OnOk result (KeepsRows live.old live.new) }
    ensures labels { OnOk result ((state_of live.new).labels ≡ (state_of live.old).labels) }
    ensures lists { OnOk result (lists live.new ≡ with_tree (node_path live.old number) node.now (lists live.old)) }
{
    flatten_properties(live, number, node.properties())?;
    for child in node.children() {
        let (below, _) = live.define_child(number, child.name_bytes(), STAMP, NOWHERE)?;
        flatten_node(live, below, child)?;
    }
    Ok(())
}
