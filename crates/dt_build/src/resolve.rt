//! The edits, the phandles and the references of a source, before its tree is made.
//!
//! The Devicetree Specification v0.4, chapter 6 and section 2.3.3, and `dt_source::tree_meaning` say what a source means.

mod asking;
mod error;
mod gathered;
mod given_by_both;
mod gone;
mod labelled;
mod laws;
mod leaving;
mod names;
mod node_phandles;
mod parts;
mod phandle;
mod prepared;
mod references;
mod resolving;
mod symbol_numbers;
mod wanted;

pub use asking::asks_for_own;
pub use error::{BuildError, BuildErrorKind};
pub use gathered::{Gathered, gather};
pub use laws::phandles_in_order;
pub use node_phandles::{Given, NodePhandle};
pub use parts::{target_at, target_count, targets_behind};
pub use prepared::{Prepared, prepare};
pub use references::Targets;
pub use resolving::Resolution;
pub use wanted::nodes_with_phandles;
