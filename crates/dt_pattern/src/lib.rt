//! Regular expressions over bytes, as Python's `re.search` takes them and bindings of devices have them: alternatives, groups, classes,
//! counts, `^`, `$` and a negative look-behind of a plain text.
//!
//! A pattern is a list of pieces, each behind those that it is made of, with the piece that follows each; a search goes over the text
//! once, with all pieces at which it may stand. So it takes at most the text's length times the pattern's, whatever the pattern is.
#![tactic(auto)]

mod byte_set;
mod counting;
mod parsing;
mod piece;
mod searching;

pub use byte_set::ByteSet;
pub use parsing::PatternError;
pub use piece::{Pattern, Piece};
pub use searching::Search;
