//! An overlay applied to a base, from bytes to bytes.
ghost use Rattle.std.specs.Prelude.{◌≡◌, Some, IfOk, IfErr};
ghost use Rattle.dt_tree.specs.TreeData.{TreeData};
ghost use Rattle.dt_blob.specs.declared.error.BlobError.{BlobError};
ghost use Rattle.dt_blob.specs.HeaderWords.{header_fault};
ghost use Rattle.dt_blob.specs.Holds.{Holds};
ghost use Rattle.dtman_engine.specs.Fault.{Tells, fault_value};
ghost use Rattle.dtman_engine.specs.Culprit.{IsOfNoBlob, PlacesOver};
ghost use Rattle.dtman_engine.specs.BlobFaults.{blob_fault};
ghost use Rattle.dtman_engine.specs.Overlay.{Applies, IsBadOver, IsOverlaid, IsOverlayRefusal, IsToldOver};

use crate::compiling::tree_blob;
use crate::culprit::BlobRole;
use crate::fault::Fault;
use crate::limits::MAX_BLOB_LEN;
use crate::reading::tree_of;
use dt_blob::BlobError;
use dt_overlay::apply_within;
use dt_tree::Tree;
use std::alloc::Global;
use std::hash::RandomState;

/// The blob of the tree that an overlay's blob makes of a base's.
///
/// The base's fault comes first, then the overlay's, then that of the two together, then a blob that is too long: sizes are counted
/// before any value is made.
pub fn overlay_bytes(
    alloc: Global,
    hasher: RandomState,
    base: &[u8],
    overlay: &[u8],
) -> Result<Vec<u8>, Fault>
    // What is answered is the blob of one held tree with the other applied.
    ensures answer { IfOk result (λ blob. IsOverlaid base.now overlay.now blob.items) }
    // Trees that the bytes hold are answered for, or why they make no blob.
    ensures held { (b o : TreeData) → Holds base.now b → Holds overlay.now o → Applies b o result }
    // Each refusal has its reason in the bytes.
    ensures refused { IfErr result (λ fault. IsOverlayRefusal base.now overlay.now (fault_value fault)) }
    // A fault of the base's header comes before all else.
    ensures header { (e : BlobError) → header_fault base.now ≡ Some e → Tells result (blob_fault e) }
    // Behind a base that is held, one of the overlay's header comes, unless memory runs out for the base.
    ensures overlay_header { (e : BlobError) → IsBadOver base.now overlay.now e → IsToldOver e result }
    // The word is told at which the base is refused or, where that is held, the overlay.
    ensures word { IfErr result (PlacesOver base.now overlay.now) }
{
    let base = tree_of(alloc, BlobRole::Base, base)?;
    let overlay = tree_of(alloc, BlobRole::Applied, overlay)?;
    applied_blob(alloc, hasher, &base, &overlay)
}

fn applied_blob(
    alloc: Global,
    hasher: RandomState,
    base: &Tree,
    overlay: &Tree,
) -> Result<Vec<u8>, Fault>
    ensures applied { Applies base.now overlay.now result }
    ensures word { IfErr result (λ fault. IsOfNoBlob fault.culprit) }
{
    match apply_within(alloc, hasher, base, overlay, MAX_BLOB_LEN) {
        Err(error) => Err(Fault::from(error)),
        Ok(None) => Err(Fault::from(BlobError::TooLarge)),
        Ok(Some(tree)) => {
            tree.check();
            tree_blob(alloc, hasher, &tree)
        }
    }
}
