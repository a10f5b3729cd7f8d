//! Where the text has the nodes and the properties of the tree that is made of a draft.
ghost use Rattle.std.specs.Prelude.{◌≡◌, ◌+◌, ◌<◌, ◌≤◌, ◌++◌, ℕ, All, IfOk, List, OnOk, Option, length, map, slice_index_or};
ghost use Rattle.dt_live.specs.Rows.{node_path};
ghost use Rattle.dt_live.specs.Making.Places.{totals};
ghost use Rattle.dt_source.specs.TreeMeaning.Paths.{Path};
ghost use Rattle.dt_source.specs.TreeMeaning.Fixups.{label_found};
ghost use Rattle.dt_build.specs.Resolve.Targets.{IsKnown};
ghost use Rattle.dt_build.specs.Private.Made.{all_phandles};
ghost use Rattle.dt_build.specs.Places.{count_of, first_root, node_place};
ghost use Rattle.dt_build.specs.Private.Places.{ArePlaces, AreReferences, offsets_of};
ghost use Rattle.dt_build.specs.Private.Ready.{IsReady};
ghost use Rattle.dt_build.specs.Private.Values.{found_of, founds_of};

use crate::draft::Draft;
use crate::fixup_sites::offset_behind;
use crate::resolve::{target_at, target_count, targets_behind};
use dt_live::making::Places;
use dt_live::{NodeProperty, NodeRow};
use dt_source::{Item, Part, Value};
use std::alloc::{AllocError, Global};

// ---- nodes
// No text has it.
const NOWHERE: u32 = 0;

/// Where the slash of the first `/ {` stands, in bytes; 0 where there is none.
pub(crate) fn first_root(items: &[Item<'_>]) -> u32
    ensures { result ≡ first_root items.now }
{
    for item in items {
        if let Item::Root { at, body: _ } = item {
            return *at;
        }
    }
    NOWHERE
}

fn node_place(nodes: &[NodeRow<'_>], root: u32, node: usize) -> u32
    requires { node ≤ length nodes.now }
    ensures { result ≡ node_place nodes.now root node }
{
    if node == 0 {
        return root;
    }
    nodes[node - 1].at
}

// Of each node in preorder.
fn node_places(
    alloc: Global,
    nodes: &[NodeRow<'_>],
    root: u32,
    order: &[usize],
) -> Result<Vec<u32>, AllocError>
    requires { All (λ n. n ≤ length nodes.now) order.now }
    ensures { IfOk result (λ places. places.items ≡ map (node_place nodes.now root) order.now) }
{
    let mut places = Vec::with_capacity(alloc, order.len())?;
    for node in order {
        places.push(node_place(nodes, root, *node))?;
    }
    Ok(places)
}

// ---- properties
// Of each property in the order of the walk.
fn property_places(
    alloc: Global,
    properties: &[NodeProperty<'_, &Value<'_>>],
) -> Result<Vec<u32>, AllocError>
    ensures { IfOk result (λ places. places.items ≡ map (λ x. x.value.now.at) properties.now) }
{
    let mut places = Vec::with_capacity(alloc, properties.len())?;
    for property in properties {
        places.push(property.value.at)?;
    }
    Ok(places)
}

// A text of less than 4 GiB has no more.
fn sum(one: u32, other: u32) -> Result<u32, AllocError>
    ensures { IfOk result (λ both. both ≡ one + other) }
{
    match one.checked_add(other) {
        Some(both) => Ok(both),
        None => Err(AllocError),
    }
}

// How many properties each node has.
fn counts(
    alloc: Global,
    nodes: usize,
    properties: &[NodeProperty<'_, &Value<'_>>],
) -> Result<Vec<u32>, AllocError>
    requires { All (λ x. x.node < nodes) properties.now }
    ensures count { IfOk result (λ counts. length counts.items ≡ nodes) }
    ensures counts { IfOk result (λ counts. (n : ℕ) → n < nodes
        → slice_index_or counts.items n 0 ≡ count_of properties.now n) }
{
    let mut counts = vec![in alloc; 0; nodes]?;
    for property in properties {
        let before = counts[property.node];
        counts[property.node] = sum(before, 1)?;
    }
    Ok(counts)
}

// How many the nodes before each in preorder have, and how many all have.
fn starts(alloc: Global, counts: &[u32], order: &[usize]) -> Result<Vec<u32>, AllocError>
    requires { All (λ n. n < length counts.now) order.now }
    ensures { IfOk result (λ starts. starts.items ≡ totals 0 (map (λ n. slice_index_or counts.now n 0) order.now)) }
{
    let mut starts = Vec::with_capacity(alloc, order.len().saturating_add(1))?;
    let mut start = 0;
    for node in order {
        starts.push(start)?;
        start = sum(start, counts[*node])?;
    }
    starts.push(start)?;
    Ok(starts)
}

// ---- references
/// The references in the values of properties: how many the properties before each have, and how many all have; and of each how many
/// bytes of its value stand before it.
#[derive(Drop)]
pub(crate) struct References {
    pub(crate) starts: Vec<u32>,
    pub(crate) offsets: Vec<u32>,
}

// A number of bytes or references. No blob has a value of 4 GiB.
fn short(number: usize) -> Result<u32, AllocError>
    ensures { IfOk result (λ short. short ≡ number) }
{
    match u32::try_from(number) {
        Ok(short) => Ok(short),
        Err(_) => Err(AllocError),
    }
}

// Puts the offset of a part behind the others, where it is a reference's cell.
fn put_reference(offsets: &mut Vec<u32>, part: &Part<'_>, offset: usize) -> Result<(), AllocError>
    ensures { OnOk result ((path : ℕ → Path) (target : Option ℕ)
        → offsets.new.items ≡ offsets.old.items ++ map (λ _. offset) (label_found (found_of path part.now target))) }
{
    match part {
        Part::Phandle(_) => {
            offsets.push(short(offset)?)?;
            Ok(())
        }
        Part::Bytes(_) | Part::Path(_) | Part::File(_) => Ok(()),
    }
}

// Puts those of a value behind the others.
fn put_references(
    offsets: &mut Vec<u32>,
    draft: &Draft<'_, '_>,
    parts: &[Part<'_>],
    targets: &[Option<usize>],
) -> Result<(), AllocError>
    requires ready { IsReady draft.now }
    requires known { All (IsKnown draft.now.live) targets.now }
    ensures { OnOk result (offsets.new.items ≡ offsets.old.items
        ++ offsets_of (all_phandles draft.now) 0 (founds_of (node_path draft.now.live) parts.now targets.now)) }
{
    let mut used = 0;
    let mut offset = 0;
    for part in parts {
        put_reference(offsets, part, offset)?;
        let target = target_at(targets, used);
        offset = offset_behind(draft, part, target, offset)?;
        used += target_count(part);
    }
    Ok(())
}

// Those of all properties, in the order of the walk.
fn all_references(alloc: Global, draft: &Draft<'_, '_>) -> Result<References, AllocError>
    requires { IsReady draft.now }
    ensures { IfOk result (λ references. AreReferences draft.now references) }
{
    let properties = draft.in_preorder.properties.as_slice();
    let mut starts = Vec::with_capacity(alloc, properties.len().saturating_add(1))?;
    let mut offsets = Vec::with_capacity(alloc, draft.targets.len())?;
    let mut targets = draft.targets.as_slice();
    for property in properties {
        starts.push(short(offsets.len())?)?;
        let parts = property.value.parts.as_slice();
        put_references(&mut offsets, draft, parts, targets)?;
        targets = targets_behind(parts, targets);
    }
    starts.push(short(offsets.len())?)?;
    Ok(References { starts, offsets })
}

/// Where the text has the tree of a draft: its nodes in preorder, its root at the given offset, and their properties in the order of
/// the walk. What is made behind them, phandles, symbols and fixups, has no place.
pub(crate) fn places_of(
    alloc: Global,
    draft: &Draft<'_, '_>,
    root: u32,
) -> Result<Places, AllocError>
    requires { IsReady draft.now }
    ensures { IfOk result (λ places. ArePlaces draft.now root places) }
{
    let found = draft.in_preorder.properties.as_slice();
    let order = draft.in_preorder.nodes.as_slice();
    let rows = draft.live.nodes();
    let nodes = node_places(alloc, rows, root, order)?;
    let counts = counts(alloc, rows.len() + 1, found)?;
    let starts = starts(alloc, counts.as_slice(), order)?;
    let properties = property_places(alloc, found)?;
    let references = all_references(alloc, draft)?;
    Ok(Places {
        nodes,
        starts,
        properties,
        reference_starts: references.starts,
        references: references.offsets,
    })
}
