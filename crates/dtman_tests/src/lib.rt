//! The worked rows of the commands, as tables: what a row gives is what the definitions say of it, worked by hand.
//!
//! The tests stand here, above the crates of the program, so that no crate is proved a second time for them. Rooms: `engine`, the
//! program and what its answers tell; `dialect`, dtc's command line; `blob`, what is asked of blobs.
#![tactic(auto)]

pub mod blob;
pub mod dialect;
pub mod engine;
#[cfg(test)]
mod runs;
#[cfg(test)]
mod shelf;
