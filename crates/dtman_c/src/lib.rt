//! The engines as calls from C: each from the caller's bytes to bytes in the caller's buffer.
//!
//! `install/dtman.h` declares them. What is trusted of the caller stands there and in docs/promises.md.
#![tactic(auto)]

mod answer;
mod blobs;
mod board;
mod bus;
mod dtc;
mod naming;
mod seed;
