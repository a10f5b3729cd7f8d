//! What an engine answers, as the tables tell it.

use dtman_engine::{Fault, dump_bytes};
use std::alloc::Global;
use std::process::Abort;

/// What the program would print for an answer: the answer, or the line that tells the refusal.
pub(crate) fn printed(rt: &impl Abort, alloc: Global, answer: Result<Vec<u8>, Fault>) -> Vec<u8> {
    match answer {
        Ok(bytes) => bytes,
        Err(fault) => {
            let line = format!(in alloc; "{fault}").expect(rt, "memory");
            line.into_bytes()
        }
    }
}

/// A blob as its canonical source without the first two lines; a refusal's line, which is no blob, stays as it is.
pub(crate) fn as_source(rt: &impl Abort, alloc: Global, printed: Vec<u8>) -> Vec<u8> {
    match dump_bytes(alloc, printed.as_slice()) {
        Ok(text) => Vec::from_slice(alloc, &text.as_slice()[11..]).expect(rt, "memory"),
        Err(_) => printed,
    }
}
