//! A blob laid out anew, from bytes to bytes.
ghost use Rattle.std.specs.Prelude.{◌≡◌, Some, IfOk, IfErr};
ghost use Rattle.dt_tree.specs.TreeData.{TreeData};
ghost use Rattle.dt_blob.specs.declared.error.BlobError.{BlobError};
ghost use Rattle.dt_blob.specs.HeaderWords.{header_fault};
ghost use Rattle.dt_blob.specs.Holds.{Holds};
ghost use Rattle.dtman_engine.specs.declared.culprit.BlobRole.TheVariants.{Sole};
ghost use Rattle.dtman_engine.specs.Culprit.{Places};
ghost use Rattle.dtman_engine.specs.BlobFaults.{blob_fault};
ghost use Rattle.dtman_engine.specs.Copy.{CopiesTree, IsCopy, IsCopyRefusal};
ghost use Rattle.dtman_engine.specs.Fault.{Tells, fault_value};

use crate::compiling::tree_blob;
use crate::culprit::BlobRole;
use crate::fault::Fault;
use crate::reading::tree_of;
use std::alloc::Global;
use std::hash::RandomState;

/// The blob of the tree that a blob holds: of version 17, in the order of chapter 5 of the Devicetree Specification, without gaps
/// or words that say nothing.
pub fn copy_bytes(alloc: Global, hasher: RandomState, blob: &[u8]) -> Result<Vec<u8>, Fault>
    // What is answered is the blob of a tree that the bytes hold.
    ensures answer { IfOk result (λ copy. IsCopy blob.now copy.items) }
    // A tree that the bytes hold is answered for, or why it has no copy.
    ensures held { (tree : TreeData) → Holds blob.now tree → CopiesTree tree result }
    // Each refusal has its reason in the bytes.
    ensures refused { IfErr result (λ fault. IsCopyRefusal blob.now (fault_value fault)) }
    // A fault of the header comes before all else.
    ensures header { (e : BlobError) → header_fault blob.now ≡ Some e → Tells result (blob_fault e) }
    // The word of the bytes at which they are refused is told.
    ensures word { IfErr result (Places Sole blob.now) }
{
    let tree = tree_of(alloc, BlobRole::Sole, blob)?;
    tree_blob(alloc, hasher, &tree)
}
