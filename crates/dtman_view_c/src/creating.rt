//! The blob of a root alone.
ghost use Rattle.std.specs.Prelude.{◌≡◌, ◌⊎◌, length};
ghost use Rattle.dt_blob.specs.Holds.{Holds};
ghost use Rattle.dt_patch.specs.Creating.{empty_blob, empty_fault, empty_tree};
ghost use Rattle.dtman_view_c.specs.Told.{done, edited};

use crate::told::{ViewTold, done, unchanged};
use dt_patch::create_empty;

/// Makes a buffer the blob of a root alone.
#[unsafe(no_mangle)]
pub extern "C" fn dtman_edit_create(buffer: &mut [u8]) -> ViewTold
    ensures made { result ≡ done 0 → buffer.new ≡ empty_blob (length buffer.old) }
    ensures held { result ≡ done 0 → Holds buffer.new empty_tree }
    ensures fault { result ≡ edited (empty_fault (length buffer.old)) }
    ensures refused { (result ≡ done 0) ⊎ (buffer.new ≡ buffer.old) }
{
    match create_empty(buffer) {
        Ok(()) => done(0),
        Err(error) => unchanged(error),
    }
}
