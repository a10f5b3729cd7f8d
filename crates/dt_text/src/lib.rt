//! The text of a devicetree source, before its grammar.
//!
//! Rooms: `lexeme`, what stands between gaps, and where; `expression`, expressions in cells, read and computed; `include`, what a
//! source in dtc's language takes in from other files; `place`, the user's file, line and column of a lexeme.
#![tactic(auto)]

pub mod expression;
pub mod include;
pub mod lexeme;
pub mod place;
