//! The fragments of an overlay, and the nodes of the base that they target.
ghost use Rattle.std.specs.Prelude.{◌≡◌, ◌<◌, IfOk, OnOk, length, option_map};
ghost use Rattle.dt_live.specs.Rows.{IsNode, node_path};
ghost use Rattle.dt_live.specs.Flattened.{IsWhole, lists};
ghost use Rattle.dt_source.specs.OverlayMeaning.Applied.{standing};
ghost use Rattle.dt_source.specs.OverlayMeaning.Texts.{ended_path};
ghost use Rattle.dt_overlay.specs.Private.Fragments.{AreItsFragments, ArePhandles, IsBodyAt, IsTarget, NotesFirst, node_by, target_of};

use crate::fixup::{PatchedOverlay, TargetFault, ended_path, row_phandle};
use dt_live::LiveTree;
use dt_tree::cell_in;
use std::alloc::{AllocError, Global};
use std::collections::BTreeMap;

/// A fragment: its node and its `__overlay__` by their rows in the overlay, and the base's node that it targets, where there is one.
#[derive(Clone, Copy)]
pub(crate) struct Fragment {
    pub(crate) node: usize,
    pub(crate) body: usize,
    pub(crate) target: Option<usize>,
}

/// The fragments of an overlay, in order. Each look-up of a target goes through a map that is made once.
pub(crate) fn find_fragments<'t>(
    alloc: Global,
    base: &LiveTree<'t, &'t [u8]>,
    patched: &PatchedOverlay<'t>,
) -> Result<Vec<Fragment>, AllocError>
    requires base { IsWhole base.now }
    ensures { IfOk result (λ list. AreItsFragments base.now patched.now list.items) }
{
    patched.check();
    let phandles = phandle_nodes(alloc, base)?;
    let mut list = Vec::new(alloc);
    for row in 0..patched.nodes().len() {
        if let Some(body) = fragment_body(patched.live(), row) {
            let node = row + 1;
            let target = find_target(base, patched, &phandles, node);
            list.push(Fragment { node, body, target })?;
        }
    }
    Ok(list)
}

// The `__overlay__` of a row's node, where that is a fragment.
pub(crate) fn fragment_body<'t>(over: &LiveTree<'t, &'t [u8]>, row: usize) -> Option<usize>
    requires whole { IsWhole over.now }
    requires known { row < length over.now.nodes.items }
    ensures { IsBodyAt over.now row result }
{
    if over.nodes()[row].parent != 0 {
        return None;
    }
    over.child(row + 1, b"__overlay__".as_slice())
}

// The first node of each phandle.
fn phandle_nodes<'t>(
    alloc: Global,
    base: &LiveTree<'t, &'t [u8]>,
) -> Result<BTreeMap<u32, usize>, AllocError>
    requires { IsWhole base.now }
    ensures { IfOk result (λ found. ArePhandles base.now found) }
{
    let mut found = BTreeMap::new(alloc);
    for row in 0..base.properties().len() {
        if let Some(number) = row_phandle(base, row) {
            put_first(&mut found, number, base.properties()[row].node)?;
        }
    }
    Ok(found)
}

// Notes a node for a number that has none.
fn put_first(found: &mut BTreeMap<u32, usize>, number: u32, node: usize) -> Result<(), AllocError>
    ensures { OnOk result (NotesFirst number node found.old found.new) }
{
    if !found.contains_key(&number) {
        found.insert(number, node)?;
    }
    Ok(())
}

// The base's node that a fragment targets.
fn find_target<'t>(
    base: &LiveTree<'t, &'t [u8]>,
    patched: &PatchedOverlay<'t>,
    phandles: &BTreeMap<u32, usize>,
    fragment: usize,
) -> Option<usize>
    requires base { IsWhole base.now }
    requires phandles { ArePhandles base.now phandles.now }
    requires known { IsNode patched.now.live fragment }
    ensures target { option_map (node_path base.now) result ≡ target_of base.now patched.now fragment }
    ensures known { IsTarget base.now result }
{
    patched.check();
    match patched.property(fragment, b"target".as_slice()) {
        Some(row) => by_phandle(phandles, patched.value(row)),
        None => match patched.property(fragment, b"target-path".as_slice()) {
            Some(row) => by_path(base, patched.value(row)),
            None => None,
        },
    }
}

fn by_phandle(phandles: &BTreeMap<u32, usize>, value: &[u8]) -> Option<usize>
    ensures { result ≡ node_by phandles.now value.now }
{
    match cell_in(value) {
        None => None,
        Some(phandle) => phandles.get(&phandle).copied(),
    }
}

fn by_path<'t>(base: &LiveTree<'t, &'t [u8]>, value: &'t [u8]) -> Option<usize>
    requires { IsWhole base.now }
    ensures target { option_map (node_path base.now) result ≡ standing (lists base.now) (ended_path value.now) }
    ensures known { IsTarget base.now result }
{
    let Some(path) = ended_path(value) else {
        return None;
    };
    base.at_path(path)
}

/// Why the fragment of a node has no target, by its properties as they are after the fixups.
pub(crate) fn target_fault(patched: &PatchedOverlay<'_>, fragment: usize) -> TargetFault
    requires known { IsNode patched.now.live fragment }
{
    patched.check();
    if let Some(row) = patched.property(fragment, b"target".as_slice()) {
        return match cell_in(patched.value(row)) {
            None => TargetFault::NoCell,
            Some(phandle) => TargetFault::NoPhandle(phandle),
        };
    }
    match patched.property(fragment, b"target-path".as_slice()) {
        None => TargetFault::NoProperty,
        Some(row) => match ended_path(patched.value(row)) {
            None => TargetFault::NoPath,
            Some(_) => TargetFault::NoNode,
        },
    }
}
