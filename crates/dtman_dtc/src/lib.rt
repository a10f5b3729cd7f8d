//! dtc's command line and that of `fdtoverlay`, over any files.
//!
//! dtc's manual (Documentation/manual.txt, section 'Command-line arguments') says what the options are.
#![tactic(auto)]

mod blob_refusals;
mod checking;
mod edits;
mod folder_tree;
mod forming;
mod overlaying;
mod reports;
mod running;
mod saying;
mod taking;
mod wording;

pub use checking::judged;
pub use overlaying::run_fdtoverlay;
pub use running::run_dtc;
