//! Overlays with their phandles above those of a base, and with their fixups resolved.
//!
//! dtc's dt-object-internal, sections 2 and 3, and `dt_source::overlay_meaning` say what is done.

mod change;
mod error;
mod fixed_nodes;
mod fixups;
mod fragments;
mod local;
mod patched_overlay;
mod phandle;
mod place;
mod raising;
mod reading;
mod reason;
mod shifting;
mod sites;
mod symbols;
mod taken_sites;
mod texts;
mod writing;

pub use error::OverlayError;
pub use patched_overlay::{Change, PatchedOverlay};
pub use phandle::row_phandle;
pub use place::{FixupEntry, ValuePlace};
pub use reason::{Clash, EntryFault, SymbolFault, TargetFault};
pub use shifting::shift;
pub use texts::ended_path;
