//! The devices of a plan, by their names, their addresses and what stands above them.

use crate::address::{Addresses, Possible, hex_number, unit_number};
use crate::buses::{Spot, key_at, kind_of_node};
use crate::groups::Groups;
use crate::node_name::{base_name, last_name, name_above, path_above, path_at, unit_address};
use bstr::ByteSlice;
use bus_plan::{Device, PathIndex, Plan};
use std::alloc::{AllocError, Global};
use std::hash::RandomState;

/// How many buses above a device may begin at their own unit addresses.
const MOST_BUSES: usize = 4;

/// How far above a device the next one is looked for.
const MOST_LEVELS: usize = 16;

/// What the names of devices are looked up in.
#[derive(Drop)]
pub struct Nodes {
    /// The paths as the kernel joins them, with their devices.
    joined: Groups,
    /// The names of devices without their unit addresses.
    bases: PathIndex,
    addresses: Addresses,
    /// By their names, those without a unit address.
    bare: Groups,
    /// By kind of bus and unit address.
    on_buses: Groups,
    /// Of each device those of which it is the next one above.
    below: Vec<Vec<Device>>,
}

/// `/a/b` as `a:b`, and the other way round.
pub fn replaced(alloc: Global, text: &[u8], from: u8, to: u8) -> Result<Vec<u8>, AllocError> {
    let mut bytes = Vec::with_capacity(alloc, text.len())?;
    for byte in text {
        bytes.push(if *byte == from { to } else { *byte })?;
    }
    Ok(bytes)
}

// A path without its first slash.
fn without_slash<'p>(path: &'p [u8]) -> &'p [u8] {
    match path.strip_prefix(b"/") {
        Some(rest) => rest,
        None => path,
    }
}

/// The next device above a path.
pub fn device_above(plan: &Plan, path: &[u8]) -> Option<Device> {
    let mut above = path;
    for _ in 0..MOST_LEVELS {
        above = path_above(above);
        if above.is_empty() {
            return None;
        }
        if let Some(device) = plan.device(above) {
            return Some(device);
        }
    }
    None
}

impl Nodes {
    /// None, of a plan with so many devices.
    pub fn new(alloc: Global, hasher: RandomState, count: usize) -> Result<Self, AllocError> {
        let mut below = Vec::with_capacity(alloc, count)?;
        for _ in 0..count {
            below.push(Vec::new(alloc))?;
        }
        Ok(Self {
            joined: Groups::new(alloc, hasher),
            bases: PathIndex::new(alloc, hasher),
            addresses: Addresses::new(alloc),
            bare: Groups::new(alloc, hasher),
            on_buses: Groups::new(alloc, hasher),
            below,
        })
    }

    /// Takes in the devices of the plan.
    pub fn fill(&mut self, alloc: Global, plan: &Plan) -> Result<(), AllocError> {
        for place in 0..plan.len() {
            self.add(alloc, plan, Device::new(place))?;
        }
        self.addresses.arrange()
    }

    fn add(&mut self, alloc: Global, plan: &Plan, device: Device) -> Result<(), AllocError> {
        let path = path_at(plan, device);
        let joined = replaced(alloc, without_slash(path), b'/', b':')?;
        self.joined.add(alloc, joined.as_slice(), device)?;
        self.add_addresses(alloc, path, device)?;
        if let Some(kind) = kind_of_node(name_above(path)) {
            let key = key_at(alloc, kind, unit_address(last_name(path)))?;
            self.on_buses.add(alloc, key.as_slice(), device)?;
        }
        if let Some(above) = device_above(plan, path) {
            if let Some(below) = self.below.get_mut(above.index()) {
                below.push(device)?;
            }
        }
        Ok(())
    }

    // The place of a base name.
    fn base(&mut self, alloc: Global, base: &[u8]) -> Result<Option<usize>, AllocError> {
        self.bases.add(alloc, base)?;
        Ok(self.bases.position(base))
    }

    // The address that the unit address says, and those that it is where the buses above begin at theirs.
    fn add_addresses(
        &mut self,
        alloc: Global,
        path: &[u8],
        device: Device,
    ) -> Result<(), AllocError> {
        let name = last_name(path);
        let Some(number) = unit_number(unit_address(name)) else {
            return self.bare.add(alloc, base_name(name), device);
        };
        let Some(base) = self.base(alloc, base_name(name))? else {
            return Ok(());
        };
        let mut address = number;
        self.addresses
            .add(base, device, Possible { address, height: 0 })?;
        let mut above = path;
        for height in 1..=MOST_BUSES {
            above = path_above(above);
            if let Some(start) = unit_number(unit_address(last_name(above))) {
                address = address.wrapping_add(start);
                self.addresses
                    .add(base, device, Possible { address, height })?;
            }
        }
        Ok(())
    }

    /// `a@0:b`, the names of a path.
    pub fn at_path(&self, name: &[u8]) -> Option<Device> {
        self.joined.of(name).first().copied()
    }

    /// `10000000.serial`, the device of this name at an address.
    pub fn at_address(&self, name: &[u8]) -> Option<Device> {
        let (digits, base) = name.split_once_str(b".")?;
        let address = hex_number(digits)?;
        if let Some(place) = self.bases.position(base) {
            if let Some(device) = self.addresses.find(place, address) {
                return Some(device);
            }
        }
        match self.bare.of(base) {
            [only] => Some(*only),
            _ => None,
        }
    }

    /// Those at a place of a bus.
    pub fn at_spot(&self, alloc: Global, spot: &Spot<'_>) -> Result<&[Device], AllocError> {
        let key = spot.key(alloc)?;
        Ok(self.on_buses.of(key.as_slice()))
    }

    /// Those of which a device is the next one above.
    pub fn below(&self, above: Device) -> &[Device] {
        match self.below.get(above.index()) {
            Some(below) => below.as_slice(),
            None => &[],
        }
    }
}
