//! An overlay's phandles, raised above those of its base.
ghost use Rattle.std.specs.Prelude.{◌≡◌, ◌<◌, ◌==◌, ◌||◌, ℕ, None, false, is_none, is_some, length, IfOk, OnOk};
ghost use Rattle.std.specs.Int.{to_be_bytes, w32};
ghost use Rattle.dt_live.specs.ByRow.{row_property};
ghost use Rattle.dt_live.specs.Flattened.{IsWhole, lists};
ghost use Rattle.dt_tree.specs.Steps.{each};
ghost use Rattle.dt_source.specs.OverlayMeaning.Shifted as meaning;
ghost use Rattle.dt_source.specs.OverlayMeaning.Shifted.{differ, phandles, raised_phandle, with_phandles};
ghost use Rattle.dt_overlay.specs.Fixup.OverlayFault.{Gives};
ghost use Rattle.dt_overlay.specs.Fixup.PatchedOverlay.{change_at, value_at};
ghost use Rattle.dt_overlay.specs.Fixup.Private.Marks.{KeepsMarks};
ghost use Rattle.dt_overlay.specs.Fixup.Private.Rows.{DoesToAll, KeepsOthers, RaisesRow, is_met};
ghost use Rattle.dt_overlay.specs.Fixup.Private.Steps.{is_marked};

use crate::fixup::error::OverlayError;
use crate::fixup::patched_overlay::PatchedOverlay;
use crate::fixup::phandle::row_phandle;
use crate::fixup::place::ValuePlace;
use crate::fixup::reason::Clash;
use dt_live::LiveTree;
use std::alloc::{AllocError, Global};
use std::collections::BTreeMap;

/// The number at a place that is raised, where it still is a phandle.
pub(crate) fn raised(number: u32, shift: usize, place: ValuePlace) -> Result<u32, OverlayError>
    ensures { Gives (meaning.raised shift number) (to_be_bytes w32) result }
{
    if shift >= (u32::MAX - number) as usize {
        return Err(OverlayError::PhandleOverflow {
            place,
            phandle: number,
            shift,
        });
    }
    Ok(number + shift as u32)
}

// Raises the phandle that a property gives, where it gives one.
fn raise_property(
    patched: &mut PatchedOverlay<'_>,
    property: usize,
    shift: usize,
) -> Result<(), OverlayError>
    requires known { property < length patched.old.live.properties.items }
    requires fresh { value_at patched.old property ≡ (row_property patched.old.live property).value }
    ensures live { patched.new.live ≡ patched.old.live }
    ensures marks { OnOk result (KeepsMarks patched.old patched.new) }
    ensures others { OnOk result (KeepsOthers property patched.old patched.new) }
    ensures raised { RaisesRow shift property patched.old patched.new result }
{
    let number = match row_phandle(patched.live(), property) {
        Some(number) => number,
        None => return Ok(()),
    };
    let place = ValuePlace { property, byte: 0 };
    let number = match raised(number, shift, place) {
        Ok(number) => number,
        Err(error) => return Err(error),
    };
    patched.write(property, 0, number)?;
    Ok(())
}

// Adds the phandle of a property, and answers the one that has it, where one was met.
fn meet(
    met: &mut BTreeMap<u32, usize>,
    number: u32,
    property: usize,
) -> Result<Option<usize>, AllocError>
    ensures new { IfOk result (λ other. is_some other ≡ is_met met.old number) }
    ensures met { OnOk result ((n : ℕ) → is_met met.new n ≡ ((number == n) || is_met met.old n)) }
{
    Ok(met.insert(number, property)?)
}

// Two properties that give one phandle, where there are some.
fn find_same<'t>(alloc: Global, live: &LiveTree<'t, &'t [u8]>) -> Result<Option<Clash>, AllocError>
    requires { IsWhole live.now }
    ensures { IfOk result (λ found. is_none found ≡ differ (phandles (lists live.now).properties)) }
{
    let mut met = BTreeMap::new(alloc);
    for property in 0..live.properties().len() {
        if let Some(number) = row_phandle(live, property) {
            if let Some(other) = meet(&mut met, number, property)? {
                return Ok(Some(Clash::Same { property, other }));
            }
        }
    }
    Ok(None)
}

// Raises all phandles, whether or not two of them are one.
fn raise_properties(patched: &mut PatchedOverlay<'_>, shift: usize) -> Result<(), OverlayError>
    requires unchanged { (k : ℕ) → change_at patched.old k ≡ None }
    ensures live { patched.new.live ≡ patched.old.live }
    ensures unmarked { OnOk result ((k i : ℕ) → is_marked (change_at patched.new k) i ≡ false) }
    ensures raised { DoesToAll (each (raised_phandle shift)) patched.old patched.new result }
{
    patched.check();
    for property in 0..patched.properties().len() {
        if let Err(error) = raise_property(patched, property, shift) {
            return Err(error);
        }
    }
    Ok(())
}

/// Raises each phandle of an overlay, before any other change.
pub(crate) fn raise(
    alloc: Global,
    patched: &mut PatchedOverlay<'_>,
    shift: usize,
) -> Result<(), OverlayError>
    requires unchanged { (k : ℕ) → change_at patched.old k ≡ None }
    ensures live { patched.new.live ≡ patched.old.live }
    ensures unmarked { OnOk result ((k i : ℕ) → is_marked (change_at patched.new k) i ≡ false) }
    ensures phandles { DoesToAll (with_phandles shift) patched.old patched.new result }
{
    raise_properties(patched, shift)?;
    if let Some(clash) = find_same(alloc, patched.live())? {
        return Err(OverlayError::PhandleClash(clash));
    }
    Ok(())
}
