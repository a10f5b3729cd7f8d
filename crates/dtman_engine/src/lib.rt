//! The engines: each from the bytes of files to the bytes of an answer, or to the first fault.
//!
//! Room, of laws alone: `canonical`, the canonical source of a tree means that tree.
#![tactic(auto)]

pub mod canonical;
mod channel;
mod compiling;
mod compiling_dtc;
mod copying;
mod culprit;
mod dump;
mod explaining;
mod fault;
mod laws;
mod limits;
mod memory;
mod overlaying;
mod planning;
mod probing;
mod reading;
mod replay;
mod replay_run;
mod sorting;
mod streams;
mod transfer;

pub use channel::{Channel, Failed};
pub use compiling::{compile_bytes, tree_blob};
pub use compiling_dtc::{Compiled, DtcOptions, compile_dtc};
pub use copying::copy_bytes;
pub use culprit::{BlobRole, Culprit, Unread};
pub use dump::dump_bytes;
pub use explaining::{Explanation, explain};
pub use fault::{Fault, Position};
pub use laws::{blobs_come_back, limits_stand, one_answer};
pub use limits::{MAX_BLOB_LEN, MAX_SOURCE_LEN, MAX_TEXT_LEN};
pub use memory::Memory;
pub use overlaying::overlay_bytes;
pub use planning::{plan_bytes, planned};
pub use probing::probe_bytes;
pub use reading::tree_of;
pub use replay::replay_bytes;
pub use replay_run::replay_run_bytes;
pub use sorting::sort_bytes;
pub use streams::{FileChannel, InputChannel, OutputChannel};
pub use transfer::{WriteFault, read_all, read_within, write_out};
