//! The worked rows of trees, sources and includes, as tables: what a row gives is what the definitions say of it, worked by hand.
//!
//! The tests stand here, above the crates of trees and sources, so that no crate is proved a second time for them. Rooms: `tree`,
//! trees and blobs; `source`, lexemes, expressions, sources and trees in the making; `include`, what a source takes in from other
//! files.
#![tactic(auto)]

pub mod include;
pub mod preprocess;
pub mod source;
pub mod tree;
