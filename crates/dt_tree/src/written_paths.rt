//! Paths in the tables that traces keep: of the nodes of a source, of an overlay, of a plan's tree.

mod finding;
mod nodes;
mod writing;

pub use finding::at_path;
pub use nodes::{Children, Link, Parents};
pub use writing::path_of;
