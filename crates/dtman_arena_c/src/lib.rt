//! The ledger of an arena, as calls from C: which parts of the caller's memory are handed out.
//!
//! `install/arena.c` makes an allocator of it, which `install/dtman_arena.h` declares. What is trusted of both stands in docs/promises.md.
#![tactic(auto)]

mod blocks;
pub mod laws;
mod marks;
