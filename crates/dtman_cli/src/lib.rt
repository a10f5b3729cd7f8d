//! The program `dtman`: what it does by the words of a command line, over any files and any standard output.
#![tactic(auto)]

mod blobs;
mod boots;
mod check_texts;
mod checks;
mod explaining;
mod failing;
mod json;
mod labelling;
mod nodes;
mod performing;
mod preprocessing;
mod questions;
mod running;
mod tools;
mod trees;

pub use labelling::labelled_bytes;
pub use running::{run, run_words};
