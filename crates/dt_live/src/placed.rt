//! The tree while a source in dtc's language edits it: what is removed keeps its place.

mod error;
mod label_order;
mod labelled;
mod labels;
mod labels_once;
mod labels_shown;
mod looks;
mod marks;
mod nodes;
mod paths;
mod place;
mod placed_tree;
mod properties;
mod shown;
mod standing;
mod table;

pub use error::{PlaceError, StandError};
pub use nodes::MadeNode;
pub use place::Place;
pub use placed_tree::PlacedTree;
pub use shown::Shown;
pub use table::{Entry, Table};
