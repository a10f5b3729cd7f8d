//! Local fixups: the sites of an overlay's own phandles.
ghost use Rattle.std.specs.Prelude.{◌≡◌, ◌<◌, length};
ghost use Rattle.dt_overlay.specs.Fixup.Private.FixedNodes.{IsFixedNodeOf, IsLocalFixup, row_node};
ghost use Rattle.dt_overlay.specs.Fixup.Private.Walk.{IsStep, local_step, property_step, site_step, sites_step};

use crate::fixup::error::OverlayError;
use crate::fixup::fixed_nodes::{FixedNode, all_fixed_nodes};
use crate::fixup::patched_overlay::{PatchedOverlay, lent};
use crate::fixup::place::{FixupEntry, ValuePlace};
use crate::fixup::raising::raised;
use crate::fixup::reason::EntryFault;
use crate::fixup::sites::take_site;
use dt_tree::cell_at;
use std::alloc::Global;

/// A property below `/__local_fixups__`: its row, its node and name, and what the local fixups of that node are of.
#[derive(Clone, Copy)]
pub(crate) struct LocalFixup<'t> {
    pub row: usize,
    pub node: usize,
    pub name: &'t [u8],
    pub fixed_node: FixedNode,
}

impl LocalFixup<'_> {
    /// The entry that begins at a byte of its value.
    fn entry(&self, byte: usize) -> FixupEntry {
        FixupEntry::Cell(ValuePlace {
            property: self.row,
            byte,
        })
    }
}

/// Raises the phandle at the site that a local fixup's entry names.
fn raise_site<'t>(
    patched: &mut PatchedOverlay<'t>,
    fixup: LocalFixup<'t>,
    entry: FixupEntry,
    offset: usize,
    shift: usize,
) -> Result<(), OverlayError>
    requires fixup { IsLocalFixup patched.old.live fixup }
    ensures live { patched.new.live ≡ patched.old.live }
    ensures step { IsStep (site_step shift patched.old fixup.entry offset) patched.old patched.new result }
{
    patched.check();
    let FixedNode::Node(node) = fixup.fixed_node else {
        let fault = EntryFault::NoNode;
        return Err(OverlayError::BadFixup { entry, fault });
    };
    let row = take_site(patched, node, fixup.name, offset, entry)?;
    patched.check();
    let place = ValuePlace {
        property: row,
        byte: offset,
    };
    let number = match raised(patched.number_at(row, offset), shift, place) {
        Ok(number) => number,
        Err(error) => return Err(error),
    };
    patched.write(row, offset, number)?;
    Ok(())
}

/// Raises the phandles at the sites that the value of a local fixup names.
fn raise_value<'t>(
    patched: &mut PatchedOverlay<'t>,
    fixup: LocalFixup<'t>,
    value: &[u8],
    shift: usize,
) -> Result<(), OverlayError>
    requires fixup { IsLocalFixup patched.old.live fixup }
    ensures live { patched.new.live ≡ patched.old.live }
    ensures step { IsStep (sites_step shift patched.old fixup.entry value.now) patched.old patched.new result }
{
    let count = value.len() / 4;
    if count * 4 != value.len() {
        return Err(OverlayError::BadFixup {
            entry: fixup.entry(0),
            fault: EntryFault::NoCells,
        });
    }
    for k in 0..count {
        let offset = cell_at(value, k * 4) as usize;
        let entry = fixup.entry(k * 4);
        if let Err(error) = raise_site(patched, fixup, entry, offset, shift) {
            return Err(error);
        }
    }
    Ok(())
}

/// Raises what a property's local fixup names, where it is one.
fn raise_local_fixup<'t>(
    patched: &mut PatchedOverlay<'t>,
    fixed_node: FixedNode,
    row: usize,
    shift: usize,
) -> Result<(), OverlayError>
    requires known { row < length patched.old.live.properties.items }
    requires fixed_node { IsFixedNodeOf patched.old.live (row_node patched.old.live row) fixed_node }
    ensures live { patched.new.live ≡ patched.old.live }
    ensures step { IsStep (property_step shift patched.old.live row) patched.old patched.new result }
{
    let property = patched.properties()[row];
    if let FixedNode::NotLocal = fixed_node {
        return Ok(());
    }
    let value = lent(property.value);
    let fixup = LocalFixup {
        row,
        node: property.node,
        name: property.name,
        fixed_node,
    };
    raise_value(patched, fixup, value, shift)
}

/// Raises the phandles at the sites that the local fixups name, in order of these.
pub(crate) fn raise_local<'t>(
    alloc: Global,
    patched: &mut PatchedOverlay<'t>,
    shift: usize,
) -> Result<(), OverlayError>
    ensures live { patched.new.live ≡ patched.old.live }
    ensures step { IsStep (local_step shift patched.old.live) patched.old patched.new result }
{
    patched.check();
    let fixed_nodes = all_fixed_nodes(alloc, patched.live())?;
    for row in 0..patched.properties().len() {
        let node = patched.properties()[row].node;
        if let Err(error) = raise_local_fixup(patched, fixed_nodes[node], row, shift) {
            return Err(error);
        }
    }
    Ok(())
}
