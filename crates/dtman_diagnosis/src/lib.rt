//! What a refusal is of and where: a diagnosis as data, and its text.
//!
//! It is made once a refusal is there, from the files and the fault; what is answered for without one never comes here.
#![tactic(auto)]

mod advice;
mod alike;
mod blob_texts;
mod blob_words;
mod blobs;
mod bodies;
mod brackets;
mod bus_forms;
mod bus_lines;
mod bus_texts;
mod device_paths;
mod device_rows;
mod diagnosis;
mod escaping;
mod events;
mod examples;
mod fragments;
mod further;
mod hints;
mod json;
mod marks;
mod meetings;
mod mending;
mod natures;
mod node_path;
mod nodes;
mod origins;
mod overlay_notes;
mod overlays;
mod phandles;
mod refused;
mod sentences;
mod sites;
mod sources;
mod suppliers;
mod text;
mod tree_places;

pub use alike::nearest;
pub use blobs::diagnose_blob;
pub use bus_forms::TextKind;
pub use bus_lines::driver_names;
pub use bus_texts::{BusText, Devices, diagnose_text};
pub use device_paths::diagnose_device;
pub use diagnosis::{Diagnosis, Location, Note, Subject, copied};
pub use events::{before_event, diagnose_event};
pub use examples::example_of;
pub use further::{Found, MAX_FURTHER, Recompiler, SourceText, further_faults};
pub use json::json_of;
pub use nodes::diagnose_node;
pub use overlays::{OverlayCulprit, diagnose_overlay};
pub use refused::Refused;
pub use sources::{diagnose_draft, diagnose_dtc, diagnose_source, dtc_span, refused_span};
pub use suppliers::diagnose_plan;
pub use text::text_of;
