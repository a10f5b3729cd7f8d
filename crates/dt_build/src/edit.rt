//! The items and statements of a source, done to a live tree in the order of the text.
//!
//! The Devicetree Specification v0.4, sections 6.3 and 6.4, says what they mean.

mod adding;
mod body;
mod boot_processor;
mod dtc_body;
mod dtc_child;
mod dtc_fragment;
mod dtc_items;
mod dtc_named;
mod dtc_targets;
mod error;
mod fragments;
mod items;
mod made;
mod standing;
mod targets;

pub use error::{EditError, EditErrorKind};
pub use fragments::{Fragments, fragments_of};
pub use items::edit_items;
pub use standing::{Standing, edit_dtc};
pub use targets::target_of;
