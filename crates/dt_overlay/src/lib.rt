//! Overlays, applied to trees.
//!
//! dtc's dt-object-internal, section 3, and `dt_source::overlay_meaning` say what is made. Room: `fixup`, an overlay with its phandles
//! above those of a base, and with its fixups resolved.
#![tactic(auto)]

mod applying;
pub mod fixup;
mod fragments;
mod laws;
mod making;
mod merging;
mod part;
mod symbol_sizes;
mod symbol_target;
mod symbols;

pub use crate::fixup::{
    Clash, EntryFault, FixupEntry, OverlayError, SymbolFault, TargetFault, ValuePlace,
};
pub use applying::{apply, apply_within};
pub use laws::{refusal_is_of_a_fragment, result_is_union, shifted_by_places};
