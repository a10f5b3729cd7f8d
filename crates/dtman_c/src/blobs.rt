//! Blobs: made of sources, applied to each other, printed.
ghost use Rattle.dtman_c.specs.Crossing.{IsGiven, OrNoMemory};
ghost use Rattle.dtman_c.specs.Engines.{IsCompileAnswer, IsDumpAnswer, IsOverlayAnswer};

use crate::answer::{Answer, give};
use crate::seed::hasher_of;
use dtman_engine::{compile_bytes, dump_bytes, overlay_bytes};
use std::alloc::Global;

/// The blob of the tree that a source means.
#[unsafe(no_mangle)]
pub extern "C" fn dtman_compile(
    alloc: Global,
    source: &[u8],
    symbols: bool,
    seed: u64,
    out: &mut [u8],
) -> Answer
    ensures { IsGiven (OrNoMemory (IsCompileAnswer symbols source.now)) out.old out.new result }
{
    match hasher_of(seed) {
        Ok(hasher) => give(compile_bytes(alloc, hasher, source, symbols), out),
        Err(fault) => give(Err(fault), out),
    }
}

/// The blob of the tree that an overlay's blob makes of a base's.
#[unsafe(no_mangle)]
pub extern "C" fn dtman_overlay(
    alloc: Global,
    base: &[u8],
    overlay: &[u8],
    seed: u64,
    out: &mut [u8],
) -> Answer
    ensures { IsGiven (OrNoMemory (IsOverlayAnswer base.now overlay.now)) out.old out.new result }
{
    match hasher_of(seed) {
        Ok(hasher) => give(overlay_bytes(alloc, hasher, base, overlay), out),
        Err(fault) => give(Err(fault), out),
    }
}

/// The canonical source of the tree that a blob holds.
#[unsafe(no_mangle)]
pub extern "C" fn dtman_dump(alloc: Global, blob: &[u8], out: &mut [u8]) -> Answer
    ensures { IsGiven (IsDumpAnswer blob.now) out.old out.new result }
{
    give(dump_bytes(alloc, blob), out)
}
