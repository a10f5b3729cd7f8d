//! The lines in which two texts differ.

mod changes;
mod hunks;
mod lines;

pub use hunks::difference;
pub use lines::first_difference;
