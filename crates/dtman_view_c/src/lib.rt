//! The view of a blob as calls from C, which take no memory.
//!
//! `install/dtman_view.h` declares them. What is trusted of the caller stands there and in docs/promises.md.
#![tactic(auto)]

mod creating;
mod editing;
mod finding;
mod nopping;
mod opening;
mod parts;
mod raw;
mod regions;
mod setting;
mod sizing;
mod stepping;
mod told;
mod values;
mod walking;
