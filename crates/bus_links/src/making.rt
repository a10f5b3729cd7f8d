//! Of which nodes Linux makes devices.
ghost use Rattle.std.specs.Prelude.{◌≡◌, IfOk};
ghost use Rattle.std.specs.List.{list_any};
ghost use Rattle.bus_plan.specs.PlanPaths.{is_among};
ghost use Rattle.bus_drivers.specs.TreePlan.{strings};
ghost use Rattle.bus_links.specs.Bindings.Interrupts.{most_steps};
ghost use Rattle.bus_links.specs.Links.{device_if, is_made, is_one_of, is_placed, is_top, lets_below, made_from, reached_within};
ghost use Rattle.bus_links.specs.Private.Families.{family_strings};

use crate::bindings::{Nodes, bytes, most_steps};
use crate::bus_above::node_of;
use crate::flags::flag_at;
use bus_drivers::{TreeDevice, next_string};
use std::alloc::{AllocError, Global};

/// Nodes that Linux treats apart, by their strings.
#[derive(Clone, Copy)]
pub enum Family {
    /// No devices are made of these.
    Skipped,
    /// Of these wherever they stand.
    ReservedMemory,
    /// Of these below /chosen.
    Framebuffers,
}

fn is_of(family: Family, string: &[u8]) -> bool
    ensures { result ≡ is_among string.now (family_strings family) }
{
    match family {
        Family::Skipped => string == b"operating-points-v2".as_slice(),
        Family::Framebuffers => string == b"simple-framebuffer".as_slice(),
        Family::ReservedMemory => {
            string == b"phram".as_slice()
                || string == b"qcom,rmtfs-mem".as_slice()
                || string == b"qcom,cmd-db".as_slice()
                || string == b"qcom,smem".as_slice()
                || string == b"ramoops".as_slice()
                || string == b"nvmem-rmem".as_slice()
                || string == b"google,open-dice".as_slice()
        }
    }
}

fn is_any_of(family: Family, value: &[u8]) -> bool
    ensures { result ≡ list_any (λ string. is_among string (family_strings family)) (strings value.now) }
{
    let mut rest = value;
    while let Some((string, behind)) = next_string(rest) {
        rest = behind;
        if is_of(family, string) {
            return true;
        }
    }
    false
}

/// What the making of devices goes by: a tree's nodes, which devices are early, and which are buses that Linux makes the devices of.
#[derive(Clone, Copy)]
pub struct Maker<'m, 't> {
    pub nodes: &'m Nodes<'t>,
    pub early: &'m [bool],
    pub buses: &'m [bool],
}

impl<'m, 't> Maker<'m, 't> {
    fn is_one_of(&self, family: Family, place: usize) -> bool
        ensures { result ≡ is_one_of (family_strings family) self.now.nodes.now place }
    {
        is_any_of(family, bytes(self.nodes, place, b"compatible"))
    }

    // Whether a node stands below the root, with this name.
    fn is_top(&self, place: usize, name: &[u8]) -> bool
        ensures { result ≡ is_top self.now.nodes.now place name.now }
    {
        self.nodes.above(place) == 0 && self.nodes.name(place) == name
    }

    // Whether devices are made below a node, as far as that goes.
    fn lets_below(&self, place: usize) -> bool
        ensures { result ≡ lets_below self.now.nodes.now self.now.early.now self.now.buses.now place }
    {
        if self.nodes.is_compatible(place) {
            return match self.nodes.device(place) {
                None => true,
                Some(device) => !flag_at(self.early, device) || flag_at(self.buses, device),
            };
        }
        match self.nodes.device(place) {
            None => self.is_top(place, b"firmware"),
            Some(device) => !flag_at(self.buses, device),
        }
    }

    // Whether each node from this one up to the root lets devices be made below it.
    fn is_reached(&self, steps: usize, place: usize) -> bool
        ensures { result ≡ reached_within self.now.nodes.now self.now.early.now self.now.buses.now steps place }
    {
        let mut at = place;
        let mut left = steps;
        while left > 0 {
            left -= 1;
            if at == 0 {
                return true;
            }
            if !self.lets_below(at) {
                return false;
            }
            at = self.nodes.above(at);
        }
        false
    }

    // Whether Linux makes devices where a node stands.
    fn is_placed(&self, place: usize) -> bool
        ensures { result ≡ is_placed self.now.nodes.now self.now.early.now self.now.buses.now place }
    {
        if self.is_one_of(Family::ReservedMemory, place) {
            return true;
        }
        let above = self.nodes.above(place);
        if self.is_one_of(Family::Framebuffers, place) && self.is_top(above, b"chosen") {
            return true;
        }
        self.is_reached(most_steps(), above)
    }

    // Whether the device at this place and node is one that Linux makes, or that is early.
    fn is_made(&self, own: usize, place: usize) -> bool
        ensures { result ≡ is_made self.now.nodes.now self.now.early.now self.now.buses.now own place }
    {
        if flag_at(self.early, own) || self.nodes.is_power() {
            return true;
        }
        !self.is_one_of(Family::Skipped, place) && self.is_placed(place)
    }

    /// These devices, whose nodes have these places: one that isn't made is not available.
    pub fn devices(
        &self,
        alloc: Global,
        places: &[usize],
        devices: &[TreeDevice<'t>],
    ) -> Result<Vec<TreeDevice<'t>>, AllocError>
        ensures { IfOk result (λ made. made.items ≡ made_from self.now.nodes.now self.now.early.now
            self.now.buses.now places.now 0 devices.now) }
    {
        let mut made = Vec::with_capacity(alloc, devices.len())?;
        for (own, device) in devices.iter().enumerate() {
            let is_made = self.is_made(own, node_of(places, own));
            made.push(device_if(alloc, is_made, device)?)?;
        }
        Ok(made)
    }
}

fn device_if<'t>(
    alloc: Global,
    is_made: bool,
    device: &TreeDevice<'t>,
) -> Result<TreeDevice<'t>, AllocError>
    ensures { IfOk result (λ made. made ≡ device_if is_made device.now) }
{
    let path = device.path().copy(alloc)?;
    Ok(TreeDevice::new(path, is_made && device.available(), device.node()))
}

/// Which of the devices of a tree, which are okay, aren't made. (Nothing is claimed of the answer.)
pub fn absent_of(
    alloc: Global,
    devices: &[TreeDevice<'_>],
    made: &[TreeDevice<'_>],
) -> Result<Vec<bool>, AllocError> {
    let mut absent = Vec::with_capacity(alloc, devices.len())?;
    for (own, device) in devices.iter().enumerate() {
        let is_made = match made.get(own) {
            Some(made) => made.available(),
            None => false,
        };
        absent.push(device.available() && !is_made)?;
    }
    Ok(absent)
}
