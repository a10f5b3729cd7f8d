//! The nodes and the properties of one fragment, put below its target.
ghost use Rattle.std.specs.Prelude.{◌≡◌, ◌+◌, ◌||◌, IfOk, OnOk, is_some, length, nat_lt, slice_index_or, true};
ghost use Rattle.dt_live.specs.ByRow.{KeepsRows};
ghost use Rattle.dt_live.specs.Rows.{HasSameNodes, IsLiveTree, IsNode, is_standing, node_path, state_of};
ghost use Rattle.dt_live.specs.Flattened.{lists};
ghost use Rattle.dt_overlay.specs.Private.Merging.{AreByNode, AreKept, ArePartNodes, DefinesPart, IsFirst, IsPart, IsPartOf, MergesPart, NotesBaseNodes, SetsPart, has_clash, is_clash, is_deep, part_at};

use crate::fixup::{Clash, OverlayError, PatchedOverlay};
use dt_live::{LiveTree, PropertyRow};
use dt_tree::MAX_DEPTH;
use std::alloc::AllocError;

/// What overlays add, as the one body that defines all rows.
const STAMP: usize = 1;

/// Defines the nodes below the node `body` of the overlay, below the base node of `body`, and notes the base node of each. Answers the
/// node behind them, and the first of them that lies too deep.
pub(crate) fn define_nodes<'s, 't>(
    live: &mut LiveTree<'s, &'s [u8]>,
    patched: &'s PatchedOverlay<'t>,
    body: usize,
    base_nodes: &mut [usize],
) -> Result<(usize, Option<usize>), AllocError>
    requires body { IsNode patched.now.live body }
    requires top { length (node_path patched.now.live body) ≡ 2 }
    requires room { length base_nodes.old ≡ length patched.now.live.nodes.items + 1 }
    requires sound { IsLiveTree live.old }
    requires target { IsNode live.old (slice_index_or base_nodes.old body 0) }
    requires stands { is_standing live.old (slice_index_or base_nodes.old body 0) ≡ true }
    ensures sound { OnOk result (IsLiveTree live.new) }
    ensures kept { OnOk result (AreKept live.old live.new) }
    ensures rows { OnOk result (KeepsRows live.old live.new) }
    ensures labels { OnOk result ((state_of live.new).labels ≡ (state_of live.old).labels) }
    ensures nodes { OnOk result (DefinesPart patched.now body base_nodes.old live.old live.new) }
    ensures properties { OnOk result ((lists live.new).properties ≡ (lists live.old).properties) }
    ensures part { IfOk result (λ x. IsPart patched.now.live.nodes.items body x.0) }
    ensures deep { IfOk result (λ x. is_some x.1 ≡ is_deep (part_at patched.now body base_nodes.old live.old)) }
    ensures base_nodes { NotesBaseNodes patched.now.live body live.old base_nodes.old live.new base_nodes.new result }
{
    patched.check();
    let nodes = patched.nodes();
    let mut deep = None;
    for node in body + 1..nodes.len() + 1 {
        let row = nodes[node - 1];
        if row.parent < body {
            return Ok((node, deep));
        }
        let (base_node, _) = live.define_child(base_nodes[row.parent], row.name, STAMP, row.at)?;
        base_nodes[node] = base_node;
        deep = first_deep(deep, node, live.depth(base_node));
    }
    Ok((nodes.len() + 1, deep))
}

// The first node that lies too deep, of one found so far and of one at a depth.
fn first_deep(deep: Option<usize>, node: usize, depth: usize) -> Option<usize>
    ensures { is_some result ≡ (is_some deep || nat_lt 64 depth) }
{
    if deep.is_some() {
        return deep;
    }
    if depth > MAX_DEPTH { Some(node) } else { None }
}

/// The row of the first property of a node or of one behind it.
pub(crate) fn first_property(rows: &[PropertyRow<'_, &[u8]>], node: usize) -> usize
    requires ordered { AreByNode rows.now }
    ensures { IsFirst rows.now node result }
{
    rows.partition_point(|row| row.node < node)
}

/// The rows of a fragment's part: its nodes from `body` up to `end`, and their properties from `first` up to `last`.
#[derive(Clone, Copy)]
pub(crate) struct Part {
    pub(crate) body: usize,
    pub(crate) end: usize,
    pub(crate) first: usize,
    pub(crate) last: usize,
}

// Whether the name is `phandle`, and the node has such a property.
fn is_clash<'s>(live: &LiveTree<'s, &'s [u8]>, node: usize, name: &'s [u8]) -> bool
    requires sound { IsLiveTree live.now }
    requires stands { is_standing live.now node ≡ true }
    ensures { result ≡ is_clash live.now node name.now }
{
    if name == b"phandle".as_slice() {
        return live.property(node, name).is_some();
    }
    false
}

/// The first property `phandle` of the part that would stand over one that is there, by its row.
pub(crate) fn find_clash<'s, 't>(
    live: &LiveTree<'s, &'s [u8]>,
    patched: &'s PatchedOverlay<'t>,
    part: Part,
    base_nodes: &[usize],
) -> Option<usize>
    requires part { IsPartOf patched.now.live part }
    requires room { length base_nodes.now ≡ length patched.now.live.nodes.items + 1 }
    requires sound { IsLiveTree live.now }
    requires base_nodes { ArePartNodes patched.now.live live.now part base_nodes.now }
    ensures { is_some result ≡ has_clash live.now (part_at patched.now part.body base_nodes.now live.now) }
{
    patched.check();
    let rows = patched.properties();
    for at in part.first..part.last {
        let row = rows[at];
        if is_clash(live, base_nodes[row.node], row.name) {
            return Some(at);
        }
    }
    None
}

/// Sets the properties of the part at the base nodes of theirs.
pub(crate) fn set_properties<'s, 't>(
    live: &mut LiveTree<'s, &'s [u8]>,
    patched: &'s PatchedOverlay<'t>,
    part: Part,
    base_nodes: &[usize],
) -> Result<(), AllocError>
    requires part { IsPartOf patched.now.live part }
    requires room { length base_nodes.now ≡ length patched.now.live.nodes.items + 1 }
    requires sound { IsLiveTree live.old }
    requires base_nodes { ArePartNodes patched.now.live live.old part base_nodes.now }
    ensures sound { OnOk result (IsLiveTree live.new) }
    ensures kept { OnOk result (HasSameNodes live.old live.new) }
    ensures rows { OnOk result (KeepsRows live.old live.new) }
    ensures labels { OnOk result ((state_of live.new).labels ≡ (state_of live.old).labels) }
    ensures properties { OnOk result (SetsPart patched.now part.body base_nodes.now live.old live.new) }
{
    patched.check();
    let rows = patched.properties();
    for at in part.first..part.last {
        let row = rows[at];
        live.set_property(base_nodes[row.node], row.name, patched.value(at), STAMP)?;
    }
    Ok(())
}

/// Merges what stands below the node `body` of the overlay into a node of the live tree. There is room for the base node of each node.
pub(crate) fn merge_part<'s, 't>(
    live: &mut LiveTree<'s, &'s [u8]>,
    patched: &'s PatchedOverlay<'t>,
    target: usize,
    body: usize,
    base_nodes: &mut [usize],
) -> Result<(), OverlayError>
    requires body { IsNode patched.now.live body }
    requires top { length (node_path patched.now.live body) ≡ 2 }
    requires room { length base_nodes.old ≡ length patched.now.live.nodes.items + 1 }
    requires sound { IsLiveTree live.old }
    requires target { IsNode live.old target }
    requires stands { is_standing live.old target ≡ true }
    ensures sound { OnOk result (IsLiveTree live.new) }
    ensures kept { OnOk result (AreKept live.old live.new) }
    ensures rows { OnOk result (KeepsRows live.old live.new) }
    ensures labels { OnOk result ((state_of live.new).labels ≡ (state_of live.old).labels) }
    ensures merged { MergesPart patched.now body target live.old live.new result }
{
    patched.check();
    base_nodes[body] = target;
    let (end, deep) = define_nodes(live, patched, body, base_nodes)?;
    let rows = patched.properties();
    let part = Part {
        body,
        end,
        first: first_property(rows, body),
        last: first_property(rows, end),
    };
    if let Some(property) = find_clash(live, patched, part, base_nodes) {
        return Err(OverlayError::PhandleClash(Clash::Second { property, target }));
    }
    if let Some(node) = deep {
        return Err(OverlayError::TooDeep { node, target });
    }
    set_properties(live, patched, part, base_nodes)?;
    Ok(())
}
