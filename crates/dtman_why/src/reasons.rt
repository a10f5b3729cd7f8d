//! What made the links of a plan, and whether all drivers were looked at.

use bus_drivers::modules::lacks_builtin;
use bus_plan::Device;
use std::alloc::{AllocError, Global};

/// Tells of a device and a supplier of it what makes the one wait for the other.
pub trait Reasons {
    /// Puts ` (PROPERTY)` behind a text, with the entry where it isn't the first, or nothing where that isn't known.
    fn add(
        &self,
        alloc: Global,
        text: &mut Vec<u8>,
        consumer: Device,
        supplier: Device,
    ) -> Result<(), AllocError>;
}

/// Whether a driver file has the drivers that are built into a kernel.
#[derive(Clone, Copy, PartialEq, Eq)]
pub enum BuiltIn {
    LookedAt,
    /// Its head says that they were left out, which is to be said where no driver matches a device.
    LeftOut,
}

impl BuiltIn {
    /// What the head of a driver file says.
    pub fn of(drivers: &[u8]) -> BuiltIn {
        if lacks_builtin(drivers) {
            BuiltIn::LeftOut
        } else {
            BuiltIn::LookedAt
        }
    }
}

/// Those of a plan of which no more is known.
#[derive(Clone, Copy, Debug)]
pub struct NoReasons;

impl Reasons for NoReasons {
    fn add(
        &self,
        _alloc: Global,
        _text: &mut Vec<u8>,
        _consumer: Device,
        _supplier: Device,
    ) -> Result<(), AllocError> {
        Ok(())
    }
}
