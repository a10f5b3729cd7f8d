//! What a kernel's log tells of a boot, as a schedule over a plan.
#![tactic(auto)]

mod address;
mod binders;
mod buses;
mod flights;
mod groups;
mod late;
mod log_line;
mod makers;
mod naming;
mod node_name;
mod nodes;
mod tracing;
mod words;

pub use tracing::{Reason, Traced, Unplaced, boot_schedule};
