//! What serves who writes sources: layouts, and an editor's session.
#![tactic(auto)]

mod formatting;
mod serving;
mod spots;

pub use formatting::lay_out;
pub use serving::serve_editor;
