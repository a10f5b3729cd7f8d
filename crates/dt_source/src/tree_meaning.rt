//! What a source means: the definitions of the edits, of phandles, symbols and fixups, and of the resolved tree.
//!
//! The definitions stand in `specs/TreeMeaning/` and follow the Devicetree Specification v0.4, chapter 6, and dtc's dt-object-internal.

mod dtc_laws;
mod dtc_rows;
mod laws;
mod rows;

pub use dtc_laws::{dtc_trees, languages_alike};
pub use dtc_rows::worked_rows_of_dtc;
pub use laws::{nodes_at_places, properties_at_places};
pub use rows::worked_rows;
