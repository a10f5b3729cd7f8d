//! Devices by what they have in common.

use bus_plan::{Device, PathIndex};
use std::alloc::{AllocError, Global};
use std::hash::RandomState;

/// Lists of devices by names, and the names by their places.
#[derive(Drop)]
pub struct Groups {
    names: PathIndex,
    devices: Vec<Vec<Device>>,
}

impl Groups {
    /// None.
    pub fn new(alloc: Global, hasher: RandomState) -> Self {
        Self {
            names: PathIndex::new(alloc, hasher),
            devices: Vec::new(alloc),
        }
    }

    /// Puts a device last into the list of a name.
    pub fn add(&mut self, alloc: Global, name: &[u8], device: Device) -> Result<(), AllocError> {
        if let Some(place) = self.names.position(name) {
            if let Some(devices) = self.devices.get_mut(place) {
                devices.push(device)?;
            }
            return Ok(());
        }
        self.names.add(alloc, name)?;
        let mut devices = Vec::new(alloc);
        devices.push(device)?;
        self.devices.push(devices)?;
        Ok(())
    }

    /// The devices of a name, in the order in which they were added.
    pub fn of(&self, name: &[u8]) -> &[Device] {
        if let Some(place) = self.names.position(name) {
            if let Some(devices) = self.devices.get(place) {
                return devices.as_slice();
            }
        }
        &[]
    }
}
