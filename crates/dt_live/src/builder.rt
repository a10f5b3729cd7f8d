//! A tree out of its nodes, given one after the other in the order in which a tree is read.
//!
//! A node stands before all below it, and a child with all below it before the next child. Each node is made once.

mod laws;
mod node_builder;
mod tree_builder;

pub use laws::{map_of_lists, order_of_siblings, walk_of_nodes};
pub use tree_builder::TreeBuilder;
