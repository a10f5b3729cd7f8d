//! Driver files out of what an installation of Linux says of its modules.

mod alias;
mod modules;
mod reading;
mod tables;

pub use modules::{ModuleDrivers, Unsaid};
pub use reading::{Kernel, Origin, module_drivers};
pub use tables::{NOT_LOOKED_AT, lacks_builtin};
