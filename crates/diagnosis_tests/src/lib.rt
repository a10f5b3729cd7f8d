//! The worked rows of what is told of a mistake, as tables: what a row gives is what the definitions say of it, worked by hand.
//!
//! Rooms: `place`, diagnoses; `check`, the checks.
#![tactic(auto)]

pub mod check;
pub mod place;
