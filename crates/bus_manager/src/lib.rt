//! Workers that probe the devices of a plan side by side: over a board, or with one lock round the probing core.
#![tactic(auto)]

mod alone;
mod baton;
mod boarded;
mod crew;
mod end_report;
mod flying;
mod keeper;
mod manager;
mod notes;
mod prober;
mod resumed;
mod run_error;
mod running;
mod seats;
mod seen;
mod table_prober;
mod worker;

pub use keeper::Keeper;
pub use manager::{Manager, PlanName};
pub use notes::Ran;
pub use prober::Prober;
pub use run_error::RunError;
pub use running::{MAX_WORKERS, run, run_core, run_locked};
pub use seen::Seen;
pub use table_prober::TableProber;
