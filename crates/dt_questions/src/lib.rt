//! What is asked of a devicetree: nodes by aliases, and by their strings, properties and values; who names a node; the memory map.
//!
//! An answer is a text, a line each, ended by a line feed; what its lines are is defined in `specs/`.
#![tactic(auto)]

mod addresses;
mod alias;
mod entries;
mod explained;
mod find;
mod line;
mod map;
mod mention;
mod mentions;
mod nodes;
mod numbers;
mod paths;
mod question;
mod regions;
mod rows;
mod shape;
mod who;
mod words;

pub use alias::{PathFault, path_by};
pub use find::find_lines;
pub use map::map_lines;
pub use question::Question;
pub use who::{WhoFault, who_lines};
