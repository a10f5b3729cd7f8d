//! The command lines of `fdtget`, `fdtput` and `fdtdump`, over any files.
//!
//! The texts that they print by `-h` say what their options are; `docs/model/dtc.md` what is the same and what differs.
#![tactic(auto)]

mod dumping;
mod finding;
mod getting;
mod putting;
mod reports;
mod words;

pub use dumping::run_fdtdump;
pub use getting::run_fdtget;
pub use putting::run_fdtput;
