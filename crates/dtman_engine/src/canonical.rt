//! The canonical source of a tree means that tree.
//!
//! Functions that do nothing, whose contracts are the laws. `source_text` of `dt_blob` prints the source, `parse` of `dt_source`
//! reads it, and `dt_source::tree_meaning` says what it means.

mod laws;

pub use laws::{canonical_meaning, canonical_parse, canonical_source, held_bytes};
