//! The probing core: which devices of a plan are bound, which probes are in flight, and which are due.
#![tactic(auto)]

mod compatibles;
mod counts;
mod device_set;
mod driver_line;
mod due;
mod event;
mod laws;
mod limits;
mod parting;
mod phase;
mod refusal;
mod registering;
mod replaying;
mod report;
mod report_line;
mod room;
mod schedule;
mod settle;
mod state;
mod status;
mod steps;

pub use compatibles::Compatibles;
pub use event::{Event, Reply, Report, Ticket};
pub use laws::{
    drivers_stay, end_report_is_one, events_keep_history, history_stays, least_grows,
    quiet_is_least, quiet_report_is_the_end, replay_goes_on, replay_is_after, replay_keeps_history,
    replay_stops, suppliers_come_first,
};
pub use limits::MAX_BEGINS;
pub use refusal::Refusal;
pub use replaying::replay;
pub use report_line::push_line;
pub use schedule::read_schedule;
pub use settle::{Outcome, Settle};
pub use state::Core;
pub use status::Status;
