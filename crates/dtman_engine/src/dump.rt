//! A blob printed as a canonical source, from bytes to bytes.
ghost use Rattle.std.specs.Prelude.{◌≡◌, ◌↔◌, Some, IfOk, IfErr};
ghost use Rattle.dt_tree.specs.TreeData.{TreeData};
ghost use Rattle.dt_blob.specs.declared.error.BlobError.TheVariants.{Truncated, BadMagic, BadVersion, BadLayout, TooLarge};
ghost use Rattle.dt_blob.specs.HeaderWords.{header_fault};
ghost use Rattle.dt_blob.specs.Holds.{Holds};
ghost use Rattle.dtman_engine.specs.declared.culprit.BlobRole.TheVariants.{Sole};
ghost use Rattle.dtman_engine.specs.Culprit.{Places};
ghost use Rattle.dtman_engine.specs.Dump.{IsDump, IsRefusal, PrintsTree, TooLong};
ghost use Rattle.dtman_engine.specs.Fault.{Tells, fault_value};
ghost use Rattle.dtman_engine.specs.BlobFaults.{blob_fault};

use crate::culprit::BlobRole;
use crate::fault::Fault;
use crate::reading::tree_of;
use dt_blob::source_text;
use std::alloc::Global;

/// The canonical source of the tree that a blob holds.
pub fn dump_bytes(alloc: Global, blob: &[u8]) -> Result<Vec<u8>, Fault>
    // What is printed is a tree that the bytes hold.
    ensures answer { IfOk result (λ text. IsDump blob.now text.items) }
    // A tree that the bytes hold is printed, unless memory runs out or its text is too long.
    ensures held { (tree : TreeData) → Holds blob.now tree → PrintsTree tree result }
    // Each refusal is one of the reader or of the printer, and has its reason in the bytes.
    ensures refused { IfErr result (λ fault. IsRefusal blob.now (fault_value fault)) }
    // These come exactly where the header has that fault first.
    ensures truncated { Tells result (blob_fault Truncated) ↔ (header_fault blob.now ≡ Some Truncated) }
    ensures bad_magic { Tells result (blob_fault BadMagic) ↔ (header_fault blob.now ≡ Some BadMagic) }
    ensures bad_version { Tells result (blob_fault BadVersion) ↔ (header_fault blob.now ≡ Some BadVersion) }
    // A header that is laid out badly; else the list of reservations has no end, by `refused`.
    ensures bad_layout { header_fault blob.now ≡ Some BadLayout → Tells result (blob_fault BadLayout) }
    // Too many bytes come in, or would go out.
    ensures too_large { header_fault blob.now ≡ Some TooLarge → Tells result (blob_fault TooLarge) }
    ensures too_long { IfErr result (λ fault. fault_value fault ≡ blob_fault TooLarge → TooLong blob.now) }
    // The word of the bytes at which they are refused is told.
    ensures word { IfErr result (Places Sole blob.now) }
{
    let tree = tree_of(alloc, BlobRole::Sole, blob)?;
    match source_text(alloc, &tree) {
        Ok(text) => Ok(text),
        Err(error) => Err(Fault::from(error)),
    }
}
