//! What the commands `diff`, `get`, `set`, `ls` and `dump --labels` answer, from the bytes of blobs to text, and what dtc's options make of a
//! blob.
//!
//! Room: `difference`, two trees compared by paths.
#![tactic(auto)]

mod asking;
mod diff_text;
pub mod difference;
mod diffing;
mod labelled;
mod order_lines;
mod saying;
mod showing;
mod source_lines;
mod value_type;
mod widening;

pub use asking::{AskError, list_text, node_text, set_bytes, value_line};
pub use diffing::{DiffError, Sameness, Titles, diff_bytes};
pub use labelled::{Labels, labelled_text, labels_of};
pub use saying::{SayError, said};
pub use showing::{ShowError, are_texts, shown};
pub use value_type::{Notation, ValueType, Width};
pub use widening::{Room, RoomError, set_boot_cpu, size_is_asked, with_room};
