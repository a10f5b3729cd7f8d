//! Devicetrees: names, paths, nodes and trees.
//!
//! The names, the depth of nodes and the properties follow the Devicetree Specification v0.4, chapter 2. Rooms: `key`, names as keys
//! of maps; `phandle_properties`, the properties that hold phandles; `sort`, a tree in order of its names; `written_paths`, paths in the tables that traces keep.
#![tactic(auto)]

mod bytes;
mod cells;
mod error;
mod few;
mod finding;
pub mod key;
mod laws;
mod limits;
mod making;
mod name;
mod node;
mod path;
mod phandle;
pub mod phandle_properties;
mod property;
mod reserved;
mod slices;
pub mod sort;
mod tree;
pub mod written_paths;

pub use bytes::Bytes;
pub use cells::{cell_at, cell_in};
pub use error::TreeError;
pub use laws::{
    map_of_a_tree, path_texts_and_names, paths_in_preorder, preorder_of_a_tree, same_map_same_tree,
};
pub use limits::{MAX_DEPTH, MAX_NAME_LEN};
pub use name::{Name, copy_name, is_name, lawful_name};
pub use node::Node;
pub use path::{Path, is_path};
pub use phandle::phandle_in;
pub use property::Property;
pub use reserved::is_reserved_name;
pub use slices::behind;
pub use tree::Tree;
