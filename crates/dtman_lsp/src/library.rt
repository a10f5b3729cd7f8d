//! The texts that the server knows: those that are open in the editor, and files that they take in.

mod nodes;
mod reach;
mod shelf;
mod source;

pub(crate) use nodes::push_path;
pub(crate) use reach::Search;
pub(crate) use shelf::Library;
pub(crate) use source::{Opened, Source};
