//! What an overlay makes of a tree: the definitions of *Shifted overlay* and *Overlay result*.
//!
//! The definitions stand in `specs/OverlayMeaning/` and follow dtc's dt-object-internal, sections 2 and 3.

mod rows;

pub use rows::worked_rows;
