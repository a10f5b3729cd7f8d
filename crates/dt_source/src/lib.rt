//! Devicetree sources: what a text says, or why it says nothing; and what that means.
//!
//! The Devicetree Specification v0.4, chapter 6, is their grammar. Rooms, of definitions with their laws: `tree_meaning`, the tree
//! that a source means; `overlay_meaning`, what an overlay makes of a tree.
#![tactic(auto)]

mod body;
mod cell;
mod cells;
mod error;
mod file_parts;
mod filling;
mod labels;
mod lawful;
mod marks;
mod order;
pub mod overlay_meaning;
mod parser;
mod parts;
mod pieces;
mod place;
mod reading;
mod references;
mod refusals;
mod room;
mod source;
mod spelling;
mod string;
mod tree;
pub mod tree_meaning;

pub use body::MAX_BODY_DEPTH;
pub use dt_text::lexeme::Binary;
pub use error::{SourceError, SourceErrorKind};
pub use labels::Labels;
pub use lawful::{bodies_are_lists, says_lawful};
pub use order::faults_are_in_order;
pub use parser::{MAX_TEXT_LEN as MAX_SOURCE_LEN, one_source, parse};
pub use place::{Place, place_at};
pub use spelling::reads_sources;
pub use tree::{FilePart, Item, Part, Reference, Source, Statement, Value};
