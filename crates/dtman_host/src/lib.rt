//! What a command works with: files, standard output and error, and how a refusal is told; sources with what they take in.
#![tactic(auto)]

mod beside;
mod compiling;
mod dependencies;
mod detail;
mod diagnosing;
mod failure;
mod files;
mod folders;
mod further;
mod host;
mod near;
mod noted;
mod outcome;
mod package;
mod seeking;
mod shortfalls;
mod status;
mod sums;
mod surroundings;
mod user_places;

pub use beside::Beside;
pub use compiling::{Board, Made, Manner, dtc_made, profile_blob};
pub use dependencies::{dependency_rule, first_read};
pub use detail::{Detail, asked_for, refusal};
pub use diagnosing::{Given, Inputs, Planned, file_of};
pub use failure::{Failure, fail};
pub use files::{INPUT, named, print, put_at, write_at, write_in_place};
pub use folders::compile_in;
pub use further::{Again, Explained, faults_of, name_of, source_diagnosed};
pub use host::Host;
pub use near::no_such;
pub use noted::Noted;
pub use outcome::{Outcome, compile_dtc};
pub use package::DTC_VERSION;
pub use seeking::{Sought, file_at};
pub use shortfalls::shortfall_fault;
pub use status::{COMMAND_LINE, DONE, FILE, REFUSED};
pub use surroundings::{Entry, EntryKind, Surroundings, System};
pub use user_places::in_user_file;
