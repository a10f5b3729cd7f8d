//! The live tree: rows of nodes, properties and labels in order of definition, with single edits, the preorder of its nodes, and the
//! flattening of a tree into such rows.
//!
//! What an edit and the order mean is said by `dt_source::tree_meaning`: the Devicetree Specification v0.4, section 6.3. Rooms:
//! `placed`, the same while a source in dtc's language edits it; `builder`, a tree out of its nodes in order; `making`, a tree out of
//! these rows.
#![tactic(auto)]

pub mod builder;
mod children;
mod flattening;
mod following;
mod index;
mod keyed;
mod labels;
mod laws;
mod live_tree;
pub mod making;
mod path_text;
mod paths;
pub mod placed;
mod preorder;
mod properties;
mod reserved;
mod rows;

pub use flattening::flatten;
pub use index::{Index, IndexEntry};
pub use labels::LabelError;
pub use laws::{
    child_look_up, lawful_names, property_look_up, rows_of_a_flattened_tree, run_below,
    run_by_parents, whole_by_rows,
};
pub use live_tree::{LabelRow, LiveTree, NodeRow, PropertyRow};
pub use path_text::{append_names, append_path, is_root_child, names_size, path_size};
pub use preorder::{NodeProperty, Preorder, preorder_of};
pub use reserved::is_reserved;
