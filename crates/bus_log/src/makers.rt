//! Which device's probe made a device of a name.

use bus_plan::{Device, PathIndex};
use std::alloc::{AllocError, Global};
use std::hash::RandomState;

/// The names of devices that were made within probes, each with the device that was probed then.
#[derive(Drop)]
pub struct Makers {
    names: PathIndex,
    devices: Vec<Device>,
}

impl Makers {
    /// None yet.
    pub fn new(alloc: Global, hasher: RandomState) -> Self {
        Self {
            names: PathIndex::new(alloc, hasher),
            devices: Vec::new(alloc),
        }
    }

    /// A device of this name is made. A name that is taken away again and given anew has its last maker.
    pub fn set(&mut self, alloc: Global, name: &[u8], maker: Device) -> Result<(), AllocError> {
        if let Some(place) = self.names.position(name) {
            if let Some(device) = self.devices.get_mut(place) {
                *device = maker;
            }
            return Ok(());
        }
        self.names.add(alloc, name)?;
        self.devices.push(maker)?;
        Ok(())
    }

    /// Who made it, where that is known.
    pub fn of(&self, name: &[u8]) -> Option<Device> {
        let place = self.names.position(name)?;
        self.devices.get(place).copied()
    }
}
