//! Plans out of trees by the links of Linux: the second way to a plan, over the same bus.
//!
//! Room: `bindings`, what the properties of a device name, by the bindings of Linux.
#![tactic(auto)]

pub mod bindings;
mod bus_above;
mod device_links;
mod flags;
mod late;
mod laws;
mod link_drivers;
mod link_reading;
mod link_text;
mod linked;
mod linker;
mod linking;
mod links;
mod lost;
mod making;
mod relaxing;

pub use crate::bindings::Strictness;
pub use bus_plan::reach::Cycle;
pub use device_links::DeviceLinks;
pub use laws::no_cycle_is_left;
pub use link_drivers::LinkDrivers;
pub use link_reading::read_link_drivers;
pub use link_text::{linked_text, warnings_text};
pub use linked::{Linked, Standing};
pub use linking::link;
pub use links::{Link, Warning};
pub use lost::lost_links;
