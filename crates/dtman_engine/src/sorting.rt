//! A blob in order of its names, from bytes to bytes.
ghost use Rattle.std.specs.Prelude.{◌≡◌, Some, IfOk, IfErr};
ghost use Rattle.dt_tree.specs.TreeData.{TreeData};
ghost use Rattle.dt_blob.specs.declared.error.BlobError.{BlobError};
ghost use Rattle.dt_blob.specs.HeaderWords.{header_fault};
ghost use Rattle.dt_blob.specs.Holds.{Holds};
ghost use Rattle.dtman_engine.specs.declared.culprit.BlobRole.TheVariants.{Sole};
ghost use Rattle.dtman_engine.specs.Culprit.{IsOfNoBlob, Places};
ghost use Rattle.dtman_engine.specs.BlobFaults.{blob_fault};
ghost use Rattle.dtman_engine.specs.Fault.{Tells, fault_value};
ghost use Rattle.dtman_engine.specs.Sort.{IsSort, IsSortRefusal, SortsTree};

use crate::compiling::tree_blob;
use crate::culprit::BlobRole;
use crate::fault::Fault;
use crate::reading::tree_of;
use dt_tree::Tree;
use dt_tree::sort::sort;
use std::alloc::Global;
use std::hash::RandomState;

/// The blob of the tree that a blob holds, in order of its names: reservations by address and size, properties and children by the
/// bytes of their names. It is what dtc's option `-s` does.
pub fn sort_bytes(alloc: Global, hasher: RandomState, blob: &[u8]) -> Result<Vec<u8>, Fault>
    // What is answered is the blob of a tree that the bytes hold, in order.
    ensures answer { IfOk result (λ sorted. IsSort blob.now sorted.items) }
    // A tree that the bytes hold is answered for, or why it isn't sorted.
    ensures held { (tree : TreeData) → Holds blob.now tree → SortsTree tree result }
    // Each refusal has its reason in the bytes.
    ensures refused { IfErr result (λ fault. IsSortRefusal blob.now (fault_value fault)) }
    // A fault of the header comes before all else.
    ensures header { (e : BlobError) → header_fault blob.now ≡ Some e → Tells result (blob_fault e) }
    // The word of the bytes at which they are refused is told.
    ensures word { IfErr result (Places Sole blob.now) }
{
    let tree = tree_of(alloc, BlobRole::Sole, blob)?;
    sorted_blob(alloc, hasher, tree)
}

fn sorted_blob(alloc: Global, hasher: RandomState, tree: Tree) -> Result<Vec<u8>, Fault>
    ensures made { SortsTree tree result }
    ensures word { IfErr result (λ fault. IsOfNoBlob fault.culprit) }
{
    match sort(alloc, tree) {
        Ok(sorted) => {
            sorted.check();
            tree_blob(alloc, hasher, &sorted)
        }
        Err(_) => Err(Fault::no_memory()),
    }
}
