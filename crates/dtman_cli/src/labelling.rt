//! A blob as a source with its labels.
ghost use Rattle.std.specs.Prelude.{◌≡◌, IfErr, IfOk, IfSome, IsTrue};
ghost use Rattle.dtman_engine.specs.Dump.{IsRefusal};
ghost use Rattle.dtman_engine.specs.Fault.{fault_value};
ghost use Rattle.dtman_cli.specs.Labelled.{CompilesAgain, IsLabelled};

use dt_blob::BlobError;
use dtman_blobs::labelled_text;
use dtman_engine::{Fault, compile_bytes, copy_bytes, dump_bytes};
use std::alloc::Global;
use std::hash::RandomState;

/// The source of the tree that a blob holds: with the labels that its `__symbols__` has before their nodes, and in place of phandles and
/// paths, where that compiles to the tree again; else the canonical one. A tree that boots on another processor than 0 has no other.
pub fn labelled_bytes(alloc: Global, hasher: RandomState, blob: &[u8]) -> Result<Vec<u8>, Fault>
    ensures answer { IfOk result (λ text. IsLabelled blob.now text.items) }
    ensures refused { IfErr result (λ fault. IsRefusal blob.now (fault_value fault)) }
{
    match again(alloc, hasher, blob)? {
        Some(text) => Ok(text),
        None => dump_bytes(alloc, blob),
    }
}

// The source with labels, where it compiles to the tree again.
fn again(alloc: Global, hasher: RandomState, blob: &[u8]) -> Result<Option<Vec<u8>>, Fault>
    ensures found { IfOk result (λ found. IfSome found (λ text. CompilesAgain blob.now text.items)) }
    ensures refused { IfErr result (λ fault. IsRefusal blob.now (fault_value fault)) }
{
    let text = match labelled_text(alloc, hasher, blob) {
        Ok(text) => text,
        Err(BlobError::NoMemory) => return Err(Fault::from(BlobError::NoMemory)),
        Err(_) => return Ok(None),
    };
    if compiles_to(alloc, hasher, blob, text.as_slice())? {
        Ok(Some(text))
    } else {
        Ok(None)
    }
}

fn compiles_to(alloc: Global, hasher: RandomState, blob: &[u8], text: &[u8]) -> Result<bool, Fault>
    ensures again { IfOk result (λ again. IsTrue again → CompilesAgain blob.now text.now) }
    ensures refused { IfErr result (λ fault. IsRefusal blob.now (fault_value fault)) }
{
    let made = match compile_bytes(alloc, hasher, text, false) {
        Ok(made) => made,
        Err(fault) if fault.number == 0 => return Err(Fault::from(BlobError::NoMemory)),
        Err(_) => return Ok(false),
    };
    let copy = match copy_bytes(alloc, hasher, blob) {
        Ok(copy) => copy,
        Err(fault) if fault.number == 0 => return Err(Fault::from(BlobError::NoMemory)),
        Err(_) => return Ok(false),
    };
    Ok(made.as_slice() == copy.as_slice())
}
