//! Which device of a plan the kernel's name of a device stands for.

use crate::address::hex_number;
use crate::buses::{KINDS, Kind, Spot};
use crate::log_line::Bus;
use crate::makers::Makers;
use crate::node_name::{base_name, is_below, last_name, path_at};
use crate::nodes::{Nodes, device_above, replaced};
use crate::words::{has_words, is_same_name, stem};
use bstr::ByteSlice;
use bus_plan::{Device, PathIndex, Plan};
use std::alloc::{AllocError, Global};
use std::hash::RandomState;

/// How many of the devices that a name may stand for are looked at.
const MOST_TRIED: usize = 64;

/// The names that were met, and the devices that they stand for.
#[derive(Drop)]
pub struct Names {
    nodes: Nodes,
    makers: Makers,
    met: PathIndex,
    met_devices: Vec<Option<Device>>,
    /// Whether a name stands for each device.
    taken: Vec<bool>,
}

/// A device as a message names it, the driver that probes it, and the device that is probed meanwhile.
#[derive(Clone, Copy)]
pub struct Named<'n> {
    pub bus: Bus,
    pub name: &'n [u8],
    pub driver: &'n [u8],
    pub within: Option<Device>,
}

fn mark(marks: &mut [bool], place: usize) {
    if let Some(is_marked) = marks.get_mut(place) {
        *is_marked = true;
    }
}

// Whether a name is one that the tree makes, by an address or a path.
fn is_of_tree(name: &[u8]) -> bool {
    if name.contains(&b':') {
        return true;
    }
    match name.split_once_str(b".") {
        Some((front, _)) => hex_number(front).is_some(),
        None => false,
    }
}

fn has_driver(plan: &Plan, device: Device, driver: &[u8]) -> bool {
    if device.index() >= plan.len() {
        return false;
    }
    match plan.driver(device) {
        Some(name) => is_same_name(name.as_bytes(), driver),
        None => false,
    }
}

fn is_available(plan: &Plan, device: Device) -> bool {
    device.index() < plan.len() && plan.available(device)
}

impl Names {
    /// None met yet, of the devices of this plan.
    pub fn new(alloc: Global, hasher: RandomState, count: usize) -> Result<Self, AllocError> {
        Ok(Self {
            nodes: Nodes::new(alloc, hasher, count)?,
            makers: Makers::new(alloc, hasher),
            met: PathIndex::new(alloc, hasher),
            met_devices: Vec::new(alloc),
            taken: vec![in alloc; false; count]?,
        })
    }

    /// Takes in the plan's devices.
    pub fn fill(&mut self, alloc: Global, plan: &Plan) -> Result<(), AllocError> {
        self.nodes.fill(alloc, plan)
    }

    // `10000000.serial:a:b`, a path that begins at an address.
    fn below_address(
        &self,
        alloc: Global,
        plan: &Plan,
        name: &[u8],
    ) -> Result<Option<Device>, AllocError> {
        let Some((front, rest)) = name.split_once_str(b":") else {
            return Ok(None);
        };
        let Some(device) = self.nodes.at_address(front) else {
            return Ok(None);
        };
        let mut path = Vec::from_slice(alloc, path_at(plan, device))?;
        path.push(b'/')?;
        let rest = replaced(alloc, rest, b':', b'/')?;
        path.extend_from_slice(rest.as_slice())?;
        Ok(plan.device(path.as_slice()))
    }

    // Whether no name stands for a device that may be probed.
    fn is_free(&self, plan: &Plan, device: Device) -> bool {
        matches!(self.taken.get(device.index()), Some(false)) && is_available(plan, device)
    }

    // A device that another's probe makes has a name of its own: it is the first of its driver's below that other one that no name
    // stands for, or else the first whose node's name is among the words of its name.
    fn made_by(&self, plan: &Plan, named: &Named<'_>, maker: Device) -> Option<Device> {
        let below = self.nodes.below(maker);
        let of_driver = below.iter().take(MOST_TRIED).find(|device| has_driver(
            plan,
            **device,
            named.driver,
        ) && self.is_free(plan, **device));
        if let Some(device) = of_driver {
            return Some(*device);
        }
        below
            .iter()
            .take(MOST_TRIED)
            .find(|device| {
                let node = base_name(last_name(path_at(plan, **device)));
                has_words(stem(named.name), node) && self.is_free(plan, **device)
            })
            .copied()
    }

    // A name of a device of the tree, or of one that such a device's driver makes.
    fn in_tree(
        &self,
        alloc: Global,
        plan: &Plan,
        named: &Named<'_>,
    ) -> Result<Option<Device>, AllocError> {
        if let Some(device) = self.nodes.at_path(named.name) {
            return Ok(Some(device));
        }
        if let Some(device) = self.nodes.at_address(named.name) {
            return Ok(Some(device));
        }
        if let Some(device) = self.below_address(alloc, plan, named.name)? {
            return Ok(Some(device));
        }
        if is_of_tree(named.name) {
            return Ok(None);
        }
        match self.makers.of(named.name).or(named.within) {
            Some(maker) => Ok(self.made_by(plan, named, maker)),
            None => Ok(None),
        }
    }

    // Of the devices at one place of several buses the first below a device.
    fn below_of(&self, plan: &Plan, devices: &[Device], above: Device) -> Option<Device> {
        let path = path_at(plan, above);
        devices
            .iter()
            .take(MOST_TRIED)
            .find(|device| is_below(path_at(plan, **device), path) && self.is_free(plan, **device))
            .copied()
    }

    // Of them the only one that this driver is for or, where it is for none of them, the only one.
    fn only_of(&self, plan: &Plan, devices: &[Device], driver: &[u8]) -> Option<Device> {
        let mut free = devices
            .iter()
            .take(MOST_TRIED)
            .filter(|device| self.is_free(plan, **device));
        let first = free.next().copied()?;
        let Some(second) = free.next().copied() else {
            return Some(first);
        };
        let mut of_driver = devices.iter().take(MOST_TRIED).filter(|device| has_driver(
            plan, **device, driver,
        ) && self.is_free(plan, **device));
        match (of_driver.next(), of_driver.next()) {
            (Some(only), None) => Some(*only),
            _ => None,
        }
    }

    // A name on a bus that numbers its devices.
    fn on_bus(
        &self,
        alloc: Global,
        plan: &Plan,
        named: &Named<'_>,
        kind: Kind,
    ) -> Result<Option<Device>, AllocError> {
        let Some(spot) = Spot::of(kind, named.name) else {
            return Ok(None);
        };
        let bus = spot.bus(alloc)?;
        let devices = self.nodes.at_spot(alloc, &spot)?;
        if let Some(maker) = self.makers.of(bus.as_slice()) {
            return Ok(self.below_of(plan, devices, maker));
        }
        if let Some(maker) = self.makers.of(named.name).or(named.within) {
            if let Some(device) = self.below_of(plan, devices, maker) {
                return Ok(Some(device));
            }
        }
        Ok(self.only_of(plan, devices, named.driver))
    }

    // A name of which no message tells the bus.
    fn anywhere(
        &self,
        alloc: Global,
        plan: &Plan,
        named: &Named<'_>,
    ) -> Result<Option<Device>, AllocError> {
        if let Some(device) = self.in_tree(alloc, plan, named)? {
            return Ok(Some(device));
        }
        for kind in KINDS {
            if let Some(device) = self.on_bus(alloc, plan, named, kind)? {
                return Ok(Some(device));
            }
        }
        Ok(None)
    }

    fn found(
        &self,
        alloc: Global,
        plan: &Plan,
        named: &Named<'_>,
    ) -> Result<Option<Device>, AllocError> {
        match named.bus {
            Bus::Tree => self.in_tree(alloc, plan, named),
            Bus::Of(kind) => self.on_bus(alloc, plan, named, kind),
            Bus::Other => Ok(None),
            Bus::Untold => self.anywhere(alloc, plan, named),
        }
    }

    // The bus of a device whose name is known is that of the others that have its number.
    fn learn_bus(
        &mut self,
        alloc: Global,
        plan: &Plan,
        named: &Named<'_>,
        device: Device,
    ) -> Result<(), AllocError> {
        let Bus::Of(kind) = named.bus else {
            return Ok(());
        };
        let (Some(spot), Some(above)) = (
            Spot::of(kind, named.name),
            device_above(plan, path_at(plan, device)),
        ) else {
            return Ok(());
        };
        let bus = spot.bus(alloc)?;
        if self.makers.of(bus.as_slice()).is_some() {
            return Ok(());
        }
        self.makers.set(alloc, bus.as_slice(), above)
    }

    /// The number of a name that was met before, from 0.
    pub fn number(&self, name: &[u8]) -> Option<usize> {
        self.met.position(name)
    }

    /// How many were met.
    pub fn count(&self) -> usize {
        self.met_devices.len()
    }

    /// The device that the name of a number stands for.
    pub fn device(&self, number: usize) -> Option<Device> {
        let device = self.met_devices.get(number)?;
        *device
    }

    /// The device that a name stands for, where the name was met before.
    pub fn known(&self, name: &[u8]) -> Option<Device> {
        self.device(self.number(name)?)
    }

    /// A device of this name is made while another is probed.
    pub fn add(&mut self, alloc: Global, name: &[u8], maker: Device) -> Result<(), AllocError> {
        self.makers.set(alloc, name, maker)
    }

    /// Meets a new name.
    pub fn meet(
        &mut self,
        alloc: Global,
        plan: &Plan,
        named: &Named<'_>,
    ) -> Result<Option<Device>, AllocError> {
        let device = self.found(alloc, plan, named)?;
        self.met.add(alloc, named.name)?;
        self.met_devices.push(device)?;
        if let Some(device) = &device {
            mark(self.taken.as_mut_slice(), device.index());
            self.learn_bus(alloc, plan, named, *device)?;
        }
        Ok(device)
    }
}
