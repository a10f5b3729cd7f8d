//! What the engines answer, as the tables tell it, and an overlay that many of them try.

use dtman_engine::{Fault, compile_bytes};
use std::alloc::Global;
use std::hash::RandomState;
use std::process::Abort;

/// What the program would print for an answer: the answer, or the line that tells the refusal.
pub(crate) fn printed(rt: &impl Abort, alloc: Global, answer: Result<Vec<u8>, Fault>) -> Vec<u8> {
    match answer {
        Ok(bytes) => bytes,
        Err(fault) => {
            let line = format!(in alloc; "{fault}").expect(rt, "memory");
            line.into_bytes()
        }
    }
}

/// The blob of a source, or the line that tells why there is none.
pub(crate) fn compiled(
    rt: &impl Abort,
    alloc: Global,
    hasher: RandomState,
    source: &str,
    symbols: bool,
) -> Vec<u8> {
    let answer = compile_bytes(alloc, hasher, source.as_bytes(), symbols);
    printed(rt, alloc, answer)
}

pub(crate) const BASE: &str = "/dts-v1/; / { ocp: ocp { }; };";

/// An overlay whose one fragment has 62 nodes one below the other, the deepest that a blob can have there.
pub(crate) fn deep_overlay(rt: &impl Abort, alloc: Global, target: &str) -> String {
    let mut nodes = String::new(alloc);
    let mut ends = String::new(alloc);
    for _ in 0..62u8 {
        nodes.push_str("n { ").expect(rt, "memory");
        ends.push_str("}; ").expect(rt, "memory");
    }
    let source = format!(in alloc;
        "/dts-v1/; / {{ fragment@0 {{ target-path = \"{target}\"; __overlay__ {{ {nodes}{ends}}}; }}; }};"
    );
    source.expect(rt, "memory")
}
