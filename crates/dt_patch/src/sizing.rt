//! The size that a blob's header tells, set to what there is and to what is used.
ghost use Rattle.std.specs.Prelude.{◌≡◌, MatchResult, None, OnErr, OnOk, Some, length};
ghost use Rattle.dt_tree.specs.TreeData.{TreeData};
ghost use Rattle.dt_blob.specs.Holds.{Holds};
ghost use Rattle.dt_patch.specs.Setting.{used_size};
ghost use Rattle.dt_patch.specs.Sizing.{size_fault, with_size};

use crate::bytes::put_word;
use crate::error::PatchError;
use crate::reserving::list_of;

/// Makes the header of the blob at the front of a buffer tell the buffer's size: what stands behind the blob is then its room
/// (Devicetree Specification v0.4, section 5.2, `totalsize`). No block is moved.
///
/// Fails with `Blob`, the header's first fault, or with `Unordered`; the blob is then as it was.
pub fn grow(buffer: &mut [u8]) -> Result<(), PatchError>
    // A tree that was held is held.
    ensures held { OnOk result ((tree : TreeData) → Holds buffer.old tree → Holds buffer.new tree) }
    // No other byte is another.
    ensures told { OnOk result (buffer.new ≡ with_size (length buffer.old) buffer.old) }
    // Of bytes that hold a tree each refusal has its reason, and each reason is told.
    ensures fault { (tree : TreeData) → Holds buffer.old tree
        → MatchResult result (λ _. size_fault buffer.old tree ≡ None) (λ e. size_fault buffer.old tree ≡ Some e) }
    ensures refused { OnErr result (buffer.new ≡ buffer.old) }
{
    list_of(buffer)?;
    let size = buffer.len() as u32;
    put_word(buffer, 4, size);
    Ok(())
}

/// Makes the header of a blob tell no room behind the strings. No block is moved.
///
/// Fails with `Blob`, the header's first fault, or with `Unordered`; the blob is then as it was.
pub fn trim(blob: &mut [u8]) -> Result<(), PatchError>
    // A tree that was held is held.
    ensures held { OnOk result ((tree : TreeData) → Holds blob.old tree → Holds blob.new tree) }
    // No other byte is another.
    ensures told { OnOk result (blob.new ≡ with_size (used_size blob.old) blob.old) }
    // Of bytes that hold a tree each refusal has its reason, and each reason is told.
    ensures fault { (tree : TreeData) → Holds blob.old tree
        → MatchResult result (λ _. size_fault blob.old tree ≡ None) (λ e. size_fault blob.old tree ≡ Some e) }
    ensures refused { OnErr result (blob.new ≡ blob.old) }
{
    let list = list_of(blob)?;
    let end = list.layout.strings_at + list.layout.strings_size;
    put_word(blob, 4, end as u32);
    Ok(())
}
