//! Plans out of trees: driver files, and the devices of a tree with their drivers and suppliers.
//!
//! Room: `modules`, a driver file out of what an installation of Linux says of its modules.
#![tactic(auto)]

mod driver;
mod driver_set;
mod driver_set_builder;
mod fail_line;
mod form;
mod late_strings;
mod matching;
pub mod modules;
mod path_sets;
mod phandle_index;
mod plan_fault;
mod planning;
mod reading;
mod reference;
mod statement;
mod status;
mod strings;
mod suppliers;
mod target;
mod tree_device;
mod walk;

pub use driver::Driver;
pub use driver_set::DriverSet;
pub use driver_set_builder::DriverSetBuilder;
pub use fail_line::FailLine;
pub use form::Form;
pub use matching::Matcher;
pub use phandle_index::PhandleIndex;
pub use plan_fault::{Culprit, Entry, PlanFault};
pub use planning::plan;
pub use reading::read_drivers;
pub use statement::Statement;
pub use status::{is_compatible, is_okay};
pub use strings::next_string;
pub use suppliers::{Suppliers, next_cell};
pub use target::Target;
pub use tree_device::TreeDevice;
