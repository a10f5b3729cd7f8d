//! The tables that stand in an unpacked image.

mod entry;
mod finding;
mod table;

pub use finding::tables_in;
pub use table::Table;
