//! Reserved memory, added to a blob or taken from it.
ghost use Rattle.std.specs.Prelude.{◌≡◌, ◌+◌, ◌<◌, ◌==◌, IfOk, MatchResult, None, Some, OnErr, OnOk, false, length, true};
ghost use Rattle.dt_tree.specs.TreeData.{TreeData};
ghost use Rattle.dt_blob.specs.Holds.{Holds};
ghost use Rattle.dt_patch.specs.View.Reserved.{reserved_size};
ghost use Rattle.dt_patch.specs.Order.{is_ordered};
ghost use Rattle.dt_patch.specs.Private.Reservations.{AreListed, IsList, IsPairGap, pairs_wanted};
ghost use Rattle.dt_patch.specs.Reserving.{reserve_fault, unreserve_fault, with_reservation, without_reservation};

use crate::bytes::put_long;
use crate::error::PatchError;
use crate::layout::{Layout, layout_of, ordered_structure, reserves_at};
use crate::splicing::{Gap, Span, fill};
use crate::view::{View, held_is_shown};
use dt_blob::BlobError;

/// The bytes of an address and a size.
const PAIR_SIZE: usize = 16;

/// The reserved memory of a blob whose blocks stand in order: where it begins, and how many bytes it has with the pair at its end.
#[derive(Clone, Copy)]
pub(crate) struct ReserveList {
    pub(crate) layout: Layout,
    pub(crate) at: usize,
    pub(crate) size: usize,
}

/// Where the reserved memory stands.
pub(crate) fn list_of(blob: &[u8]) -> Result<ReserveList, PatchError>
    ensures list { IfOk result (λ l. IsList blob.now l) }
    ensures fault { (tree : TreeData) → Holds blob.now tree
        → MatchResult result (λ _. is_ordered blob.now (reserved_size tree.reserves) ≡ true)
        (λ e. (e ≡ PatchError.Unordered) × (is_ordered blob.now (reserved_size tree.reserves) ≡ false)) }
{
    held_is_shown();
    let view = match View::over(blob) {
        Ok(view) => view,
        Err(error) => return Err(PatchError::Blob(error)),
    };
    let Some(size) = view.reserved_size() else {
        return Err(PatchError::Blob(BlobError::BadLayout));
    };
    ordered_structure(blob, size)?;
    Ok(ReserveList {
        layout: layout_of(blob),
        at: reserves_at(blob),
        size,
    })
}

/// The gap for bytes that take the place of a part of the list. Fails with `Short`.
fn gap_in(list: &ReserveList, part: Span, size: usize, room: usize) -> Result<Gap, PatchError>
    requires { AreListed list.now part size room }
    ensures { MatchResult result (λ g. IsPairGap list.now part size room g)
        (λ e. (e ≡ PatchError.Short (pairs_wanted list.now part size)) × (room < pairs_wanted list.now part size)) }
{
    let layout = list.layout;
    let old = part.next - part.at;
    let end = layout.strings_at + layout.strings_size;
    let needed = end - old + size;
    if room < needed {
        return Err(PatchError::Short(needed));
    }
    Ok(Gap {
        at: list.at + part.at,
        next: list.at + part.next,
        end,
        layout: Layout {
            size: layout.size.max(needed),
            structure_at: layout.structure_at - old + size,
            structure_size: layout.structure_size,
            strings_at: layout.strings_at - old + size,
            strings_size: layout.strings_size,
        },
    })
}

/// Whether a size ends the list for readers that look at sizes alone, as libfdt does.
fn ends_list(size: u64) -> bool
    ensures { result ≡ (size == 0) }
{
    size == 0
}

/// Adds an address and a size to the reserved memory, behind those that are there, in the caller's buffer. All else of the tree that the
/// blob holds is as it was (Devicetree Specification v0.4, section 5.3). The buffer may have room behind the blob; what stands behind the
/// last reservation is moved once.
///
/// Fails with `Blob`, the header's first fault, or with `EndPair` (a size of 0), `Unordered` or `Short`, the first of these; the blob is
/// then as it was.
/// `Short` tells how many bytes the buffer wants. Bytes that hold no tree are changed somehow, or refused so.
pub fn add_reservation(blob: &mut [u8], address: u64, size: u64) -> Result<(), PatchError>
    // A tree that was held is held with the reservation.
    ensures held { OnOk result ((tree : TreeData) → Holds blob.old tree
        → Holds blob.new (with_reservation (address, size) tree)) }
    // Of bytes that hold a tree each refusal has its reason, and each reason is told.
    ensures fault { (tree : TreeData) → Holds blob.old tree
        → MatchResult result (λ _. reserve_fault blob.old tree (address, size) ≡ None)
        (λ e. reserve_fault blob.old tree (address, size) ≡ Some e) }
    ensures refused { OnErr result (blob.new ≡ blob.old) }
    ensures size { length blob.new ≡ length blob.old }
{
    if ends_list(size) {
        return Err(PatchError::EndPair);
    }
    let list = list_of(blob)?;
    let place = list.size.saturating_sub(PAIR_SIZE);
    let part = Span {
        at: place,
        next: place,
    };
    let gap = gap_in(&list, part, PAIR_SIZE, blob.len())?;
    let mut pair = [0; PAIR_SIZE];
    put_long(&mut pair, 0, address);
    put_long(&mut pair, 8, size);
    fill(blob, &gap, &pair);
    Ok(())
}

/// Takes the reservation at a place, counted from 0, out of the reserved memory, in place. All else of the tree that the blob holds is as
/// it was. What stands behind the reservation is moved once.
///
/// Fails with `Blob`, the header's first fault, or with `Unordered` or `NoReservation`, the first of these; the blob is then as it was.
/// Bytes that hold no tree are changed somehow, or refused so.
pub fn delete_reservation(blob: &mut [u8], index: usize) -> Result<(), PatchError>
    // A tree that was held is held without the reservation.
    ensures held { OnOk result ((tree : TreeData) → Holds blob.old tree
        → Holds blob.new (without_reservation index tree)) }
    // Of bytes that hold a tree each refusal has its reason, and each reason is told.
    ensures fault { (tree : TreeData) → Holds blob.old tree
        → MatchResult result (λ _. unreserve_fault blob.old tree index ≡ None)
        (λ e. unreserve_fault blob.old tree index ≡ Some e) }
    ensures refused { OnErr result (blob.new ≡ blob.old) }
    ensures size { length blob.new ≡ length blob.old }
{
    let list = list_of(blob)?;
    let count = (list.size / PAIR_SIZE).saturating_sub(1);
    if index >= count {
        return Err(PatchError::NoReservation);
    }
    let at = index * PAIR_SIZE;
    let part = Span {
        at,
        next: at + PAIR_SIZE,
    };
    let gap = gap_in(&list, part, 0, blob.len())?;
    fill(blob, &gap, &[]);
    Ok(())
}
