//! Why a device of a plan waits, and what it takes to bind it.

mod chain;
mod hold;
mod needing;
mod walk;
mod why;

pub use chain::{Chain, chain_from};
pub use hold::Cause;
pub use needing::needs;
pub use why::{end_cause, waiting_chains};
