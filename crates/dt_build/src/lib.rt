//! Trees out of devicetree sources: edits, phandles, references, symbols and a plugin's fixups.
//!
//! The Devicetree Specification v0.4, chapter 6 and section 2.3.3, and `dt_source::tree_meaning` say what a source means. Rooms:
//! `edit`, its statements, done to a live tree; `resolve`, the phandles and references of what stands then.
#![tactic(auto)]

mod building;
mod digits;
mod draft;
mod dtc_building;
mod dtc_draft;
pub mod edit;
mod fixup_sites;
mod fixups;
mod fixups_by_label;
mod local_depth;
mod local_nodes;
mod local_properties;
mod making;
mod node_names;
mod node_phandles;
mod places;
pub mod resolve;
mod sizes;
mod source_values;
mod symbols;
mod value;

pub use crate::resolve::{BuildError, BuildErrorKind};
pub use building::{build, build_within};
pub use dtc_building::{Built, build_dtc_within};
