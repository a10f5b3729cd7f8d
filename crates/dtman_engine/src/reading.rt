//! The blobs that an engine was given, each read in its role.
ghost use Rattle.std.specs.Prelude.{◌≡◌, ◌↔◌, Some, IfErr, IfOk, MatchResult};
ghost use Rattle.dt_tree.specs.TreeData.{TreeData};
ghost use Rattle.dt_blob.specs.declared.error.BlobError.{BlobError};
ghost use Rattle.dt_blob.specs.declared.error.BlobError.TheVariants.{Truncated, BadMagic, BadVersion};
ghost use Rattle.dt_blob.specs.HeaderWords.{header_fault};
ghost use Rattle.dt_blob.specs.Holds.{Holds};
ghost use Rattle.dtman_engine.specs.BlobFaults.{blob_fault};
ghost use Rattle.dtman_engine.specs.Culprit.{Places};
ghost use Rattle.dtman_engine.specs.Dump.{IsUnread};
ghost use Rattle.dtman_engine.specs.Fault.{Tells, fault_value, no_memory};

use crate::culprit::BlobRole;
use crate::fault::Fault;
use dt_blob::read;
use dt_tree::Tree;
use std::alloc::Global;

/// The tree of the blob in this role, or why its bytes hold none, with the word at which they are refused (30 to 39).
pub fn tree_of(alloc: Global, role: BlobRole, blob: &[u8]) -> Result<Tree, Fault>
    // What is read is held.
    ensures found { IfOk result (λ tree. Holds blob.now tree) }
    // What is held is read, unless memory runs out.
    ensures only { (tree : TreeData) → Holds blob.now tree → MatchResult result (λ found. found ≡ tree)
        (λ fault. fault_value fault ≡ no_memory) }
    // Each refusal has its reason in the bytes.
    ensures refused { IfErr result (λ fault. IsUnread blob.now (fault_value fault)) }
    // A fault of the header comes before all else, and these come from nothing else.
    ensures header { (e : BlobError) → header_fault blob.now ≡ Some e → Tells result (blob_fault e) }
    ensures truncated { Tells result (blob_fault Truncated) ↔ (header_fault blob.now ≡ Some Truncated) }
    ensures bad_magic { Tells result (blob_fault BadMagic) ↔ (header_fault blob.now ≡ Some BadMagic) }
    ensures bad_version { Tells result (blob_fault BadVersion) ↔ (header_fault blob.now ≡ Some BadVersion) }
    // It tells the word.
    ensures word { IfErr result (Places role blob.now) }
{
    match read(alloc, blob) {
        Ok(tree) => Ok(tree),
        Err(refused) => Err(Fault::of_blob(role, refused)),
    }
}
