//! Plans of the bus: devices with their drivers and suppliers, and the text file that lists them.
//!
//! Room: `reach`, what devices take by their suppliers, theirs and so on, and the cycles among them.
#![tactic(auto)]

mod consumers;
mod device;
mod device_line;
mod device_lists;
mod driver_names;
mod error;
mod fields;
mod hints;
mod late_driver;
mod late_faults;
mod laws;
mod limits;
mod lines;
mod matching;
mod paths;
mod places;
mod plan;
mod plan_file;
mod plan_line;
mod planned;
pub mod reach;
mod reading;
mod strings;
mod strings_line;
mod verdict;
mod waiting;
mod writing;

pub use device::Device;
pub use error::PlanError;
pub use fields::Fields;
pub use laws::{late_driver_is_lawful, late_driver_keeps, plan_text_is_read_back};
pub use limits::MAX_DEVICES;
pub use lines::{is_line, is_line_byte, lines_of};
pub use matching::is_driver_name;
pub use paths::PathIndex;
pub use plan::Plan;
pub use planned::Planned;
pub use reading::read_plan;
pub use strings::{copy_fields, copy_strings, is_compatible};
pub use verdict::Verdict;
pub use writing::plan_text;
