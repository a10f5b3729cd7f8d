//! A tree out of a live tree's rows, each node made once, in preorder, and where a text has its nodes and properties. What its values
//! are made of, the caller says.

mod making;
mod places;
mod values;

pub use making::make_nodes;
pub use places::Places;
pub use values::Values;
