//! Trees as sources in the layout that dtc prints (`-O dts`).
//!
//! Rooms: `layout`, a tree by itself; `source_layout`, one with the labels of the source that it was made of, its values as they were written
//! (`markers`, `marked_value`);
//! `untrue`, the nodes of a blob that make no tree (`tokens`).
#![tactic(auto)]

mod layout;
mod marked_value;
mod markers;
mod source_layout;
mod tokens;
mod untrue;

pub use layout::{Texts, layout_bytes};
pub use source_layout::{Compiled, source_text};
pub use tokens::{aligned, bytes_at, text_at, word_at};
pub use untrue::{name_around, untrue_text};
