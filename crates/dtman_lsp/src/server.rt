//! The state of the server, and its answers.

mod answering;
mod judging;
pub(crate) mod state;
mod syncing;
