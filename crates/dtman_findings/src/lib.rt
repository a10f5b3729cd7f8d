//! What is refused of a source as its author writes it, as an editor shows it: through the C preprocessor, with all that it takes in.
//!
//! Rooms: `shelves`, the files of an editor as each pass asks for them; `compiler`, the passes one after the other; `sites`, where a
//! refusal is and of which word; `sentences`, what is told.
#![tactic(auto)]

mod compiler;
mod sentences;
mod shelves;
mod sites;

pub use compiler::Compiler;
