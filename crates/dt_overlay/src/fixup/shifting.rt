//! An overlay above its base.
ghost use Rattle.std.specs.Prelude.{◌≡◌, ℕ, IfOk, None, length, replicate, true};
ghost use Rattle.dt_live.specs.Flattened.{IsOrdered, IsWhole, lists};
ghost use Rattle.dt_source.specs.OverlayMeaning.Shifted.{fragments};
ghost use Rattle.dt_overlay.specs.Fixup.OverlayFault.{Gives, Leaves};
ghost use Rattle.dt_overlay.specs.Fixup.PatchedOverlay.{change_at, patched_lists, shifted_rows};
ghost use Rattle.dt_overlay.specs.Fixup.Private.Fragments.{HasSome, are_some};

use crate::fixup::error::OverlayError;
use crate::fixup::fixups::resolve_fixups;
use crate::fixup::fragments::has_fragment;
use crate::fixup::local::raise_local;
use crate::fixup::patched_overlay::{Change, PatchedOverlay};
use crate::fixup::phandle::greatest_phandle;
use crate::fixup::raising::raise;
use dt_live::LiveTree;
use std::alloc::Global;

// Makes no change of a property yet, where the overlay has a fragment.
fn open_changes<'t>(
    alloc: Global,
    over: &LiveTree<'t, &'t [u8]>,
) -> Result<Vec<Option<Change>>, OverlayError>
    requires whole { IsWhole over.now }
    requires ordered { IsOrdered over.now }
    ensures none { IfOk result (λ changes. changes.items ≡ replicate (length over.now.properties.items) None) }
    ensures some { HasSome (lists over.now) result }
{
    if !has_fragment(over) {
        return Err(OverlayError::NotOverlay);
    }
    let count = over.properties().len();
    let mut changes = Vec::with_capacity(alloc, count)?;
    for _row in 0..count {
        changes.push(None)?;
    }
    Ok(changes)
}

// Changes the values of an overlay that has none changed yet.
fn shift_values<'t>(
    alloc: Global,
    base: &LiveTree<'t, &'t [u8]>,
    patched: &mut PatchedOverlay<'t>,
) -> Result<(), OverlayError>
    requires base { IsWhole base.now }
    requires unchanged { (k : ℕ) → change_at patched.old k ≡ None }
    requires some { are_some (fragments (lists patched.old.live)) ≡ true }
    ensures live { patched.new.live ≡ patched.old.live }
    ensures shifted { Leaves (shifted_rows base.now patched.old.live) (patched_lists patched.new) result }
{
    let rise = greatest_phandle(base) as usize + 1;
    if let Err(error) = raise(alloc, patched, rise) {
        return Err(error);
    }
    if let Err(error) = raise_local(alloc, patched, rise) {
        return Err(error);
    }
    if let Err(error) = resolve_fixups(alloc, base, patched) {
        return Err(error);
    }
    Ok(())
}

/// The overlay with its phandles and local fixup sites raised above the base's greatest phandle, and with the phandles of the base's
/// nodes at the sites of its fixups.
pub fn shift<'t>(
    alloc: Global,
    base: &LiveTree<'t, &'t [u8]>,
    over: LiveTree<'t, &'t [u8]>,
) -> Result<PatchedOverlay<'t>, OverlayError>
    requires base { IsWhole base.now }
    requires over { IsWhole over }
    requires ordered { IsOrdered over }
    ensures patched { Gives (shifted_rows base.now over.entry) patched_lists result }
    ensures live { IfOk result (λ patched. patched.live ≡ over.entry) }
{
    let changes = match open_changes(alloc, &over) {
        Ok(changes) => changes,
        Err(error) => return Err(error),
    };
    let mut patched = PatchedOverlay::new(over, changes);
    if let Err(error) = shift_values(alloc, base, &mut patched) {
        return Err(error);
    }
    Ok(patched)
}
