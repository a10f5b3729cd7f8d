//! Properties set in place.
ghost use Rattle.std.specs.Prelude.{◌≡◌, ◌+◌, ◌≤◌, ◌<◌, ◌^◌, MatchResult, None, Some, OnErr, OnOk, length};
ghost use Rattle.dt_tree.specs.Path.{path_names};
ghost use Rattle.dt_tree.specs.TreeData.{TreeData};
ghost use Rattle.dt_blob.specs.Holds.{Holds};
ghost use Rattle.dt_patch.specs.Private.Naming.{bytes_added, count_added};
ghost use Rattle.dt_patch.specs.Private.Places.{put_at};
ghost use Rattle.dt_patch.specs.Setting.{HoldsWith, change_fault, property_size, set_fault};

use crate::bytes::{put, put_property};
use crate::error::PatchError;
use crate::layout::lay;
use crate::placing::value_place;
use crate::planning::set_plan;
use crate::splicing::{gap_of, shift};

/// Sets the property of this name of the node at a path to a value of the same length, in place: nothing moves. All else of the tree
/// that the blob holds is as it was (Devicetree Specification v0.4, section 5.4.1). A few words of the header are tested, and the
/// structure block is read up to the property.
///
/// Fails with `Blob`, the header's first fault, or with `BadPath`, `NoNode`, `NoProperty`, `OtherLength` or `Unordered`, the first of
/// these; the blob is then as it was. Bytes that hold no tree are changed at one value at most, or refused so.
pub fn set_in_place(
    blob: &mut [u8],
    path: &[u8],
    name: &[u8],
    value: &[u8],
) -> Result<(), PatchError>
    // A tree that was held is held with the property.
    ensures held { OnOk result ((tree : TreeData) → Holds blob.old tree
        → HoldsWith blob.new tree (path_names path.now) name.now value.now) }
    // Of bytes that hold a tree each refusal has its reason, and each reason is told.
    ensures fault { (tree : TreeData) → Holds blob.old tree
        → MatchResult result (λ _. set_fault blob.old tree path.now name.now (length value.now) ≡ None)
        (λ e. set_fault blob.old tree path.now name.now (length value.now) ≡ Some e) }
    ensures refused { OnErr result (blob.new ≡ blob.old) }
    ensures size { length blob.new ≡ length blob.old }
{
    let at = value_place(blob, path, name, value.len())?;
    blob[at..at + value.len()].copy_from_slice(value);
    Ok(())
}

/// The size in bytes of a property whose value has so many.
fn property_size(len: usize) -> usize
    requires { len < 2 ^ 63 }
    ensures { result ≡ property_size len }
{
    12 + (len + 3) / 4 * 4
}

/// How many bytes a name adds to the strings, where it doesn't stand there.
fn added_size(name: &[u8], place: Option<usize>) -> usize
    requires { length name.now ≤ 255 }
    ensures { result ≡ count_added place name.now }
{
    match place {
        None => name.len() + 1,
        Some(_) => 0,
    }
}

/// Puts a name and a zero byte at a place, unless it stands in the strings.
fn put_name(blob: &mut [u8], at: usize, name: &[u8], place: Option<usize>)
    requires { at + count_added place name.now ≤ length blob.old }
    ensures { blob.new ≡ put_at blob.old at (bytes_added place name.now) }
{
    if place.is_none() {
        put(blob, at, name);
        put(blob, at + name.len(), &[0]);
    }
}

/// Sets the property of this name of the node at a path, in the caller's buffer: in its place, or behind the last of the node where it
/// is new. All else of the tree that the blob holds is as it was (Devicetree Specification v0.4, section 5.4.1). The buffer may have
/// room behind the blob; what stands behind the property is moved once, and a name that is new goes to the end of the strings.
///
/// Fails with `Blob`, the header's first fault, or with `BadPath`, `NoNode`, `BadName`, `Unordered` or `Short`, the first of these; the
/// blob is then as it was. `Short` tells how many bytes the buffer wants. Bytes that hold no tree are changed somehow, or refused so.
pub fn set(blob: &mut [u8], path: &[u8], name: &[u8], value: &[u8]) -> Result<(), PatchError>
    // A tree that was held is held with the property.
    ensures held { OnOk result ((tree : TreeData) → Holds blob.old tree
        → HoldsWith blob.new tree (path_names path.now) name.now value.now) }
    // Of bytes that hold a tree each refusal has its reason, and each reason is told.
    ensures fault { (tree : TreeData) → Holds blob.old tree
        → MatchResult result (λ _. change_fault blob.old tree path.now name.now (length value.now) ≡ None)
        (λ e. change_fault blob.old tree path.now name.now (length value.now) ≡ Some e) }
    ensures refused { OnErr result (blob.new ≡ blob.old) }
    ensures size { length blob.new ≡ length blob.old }
{
    let set = set_plan(blob, path, name)?;
    let size = property_size(value.len());
    let added = added_size(name, set.name);
    let gap = gap_of(&set.plan, size, added, blob.len())?;
    let place = set.name.unwrap_or(set.plan.layout.strings_size);
    shift(blob, gap.next, gap.end, gap.at + size);
    put_property(blob, gap.at, place as u32, value);
    put_name(
        blob,
        gap.layout.strings_at + set.plan.layout.strings_size,
        name,
        set.name,
    );
    lay(blob, &gap.layout);
    Ok(())
}
