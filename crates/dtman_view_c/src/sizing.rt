//! The size that a blob's header tells, set to what there is and to what is used.
ghost use Rattle.std.specs.Prelude.{◌≡◌, ◌⊎◌, length};
ghost use Rattle.dt_blob.specs.Holds.{Holds};
ghost use Rattle.dt_patch.specs.Setting.{used_size};
ghost use Rattle.dt_patch.specs.Sizing.{size_fault, with_size};
ghost use Rattle.dt_tree.specs.TreeData.{TreeData};
ghost use Rattle.dtman_view_c.specs.Told.{done, edited};

use crate::told::{ViewTold, done, unchanged};
use dt_patch::{grow, trim};

/// Makes the header of the blob at the front of a buffer tell the buffer's size: what is behind the blob is then its room.
#[unsafe(no_mangle)]
pub extern "C" fn dtman_edit_grow(buffer: &mut [u8]) -> ViewTold
    ensures held { result ≡ done 0 → (tree : TreeData) → Holds buffer.old tree → Holds buffer.new tree }
    ensures told { result ≡ done 0 → buffer.new ≡ with_size (length buffer.old) buffer.old }
    ensures fault { (tree : TreeData) → Holds buffer.old tree → result ≡ edited (size_fault buffer.old tree) }
    ensures refused { (result ≡ done 0) ⊎ (buffer.new ≡ buffer.old) }
{
    match grow(buffer) {
        Ok(()) => done(0),
        Err(error) => unchanged(error),
    }
}

/// Makes the header of a blob tell no room behind the strings.
#[unsafe(no_mangle)]
pub extern "C" fn dtman_edit_trim(blob: &mut [u8]) -> ViewTold
    ensures held { result ≡ done 0 → (tree : TreeData) → Holds blob.old tree → Holds blob.new tree }
    ensures told { result ≡ done 0 → blob.new ≡ with_size (used_size blob.old) blob.old }
    ensures fault { (tree : TreeData) → Holds blob.old tree → result ≡ edited (size_fault blob.old tree) }
    ensures refused { (result ≡ done 0) ⊎ (blob.new ≡ blob.old) }
{
    match trim(blob) {
        Ok(()) => done(0),
        Err(error) => unchanged(error),
    }
}
