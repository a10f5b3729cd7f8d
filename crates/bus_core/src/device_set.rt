//! Sets of devices.

ghost use Rattle.std.specs.Prelude.{◌≡◌, ◌<◌, ℕ, true, false, length, slice_index_or, slice_set, replicate, IfOk, IfNone, IfSome};

use crate::room::push_in_room;
use bus_plan::Device;
use std::alloc::{AllocError, Global};
use std::marker::Model;

/// Devices of a plan, each at most once. To put one in, to take one out and to name one takes no memory, and as long as
/// in any other such set.
#[derive(Drop)]
pub struct DeviceSet {
    members: Vec<Device>,
    /// Where each device stands among the members.
    places: Vec<Option<usize>>,
}

impl Model for DeviceSet {
    ghost use Rattle.std.specs.Prelude.{List, Bool, is_some, map, vec_capacity};
    ghost use Rattle.bus_core.specs.RefinementSet.{IsPlaced};

    // Whether each device is a member.
    ghost Value = { List Bool };

    ghost view = { λ set. map is_some set.places.items };

    ghost invariant = { λ set. IsPlaced set.members.items set.places.items (vec_capacity set.members) };
}

impl DeviceSet {
    /// None of so many devices, with room for all.
    pub fn new(alloc: Global, count: usize) -> Result<Self, AllocError>
        ensures { IfOk result (λ set. set ≡ replicate count false) }
    {
        let members = Vec::with_capacity(alloc, count)?;
        let mut places = Vec::with_capacity(alloc, count)?;
        for _i in 0..count {
            places.push(None)?;
        }
        Ok(Self { members, places })
    }

    /// Whether a device is a member.
    pub fn contains(&self, device: Device) -> bool
        ensures { result ≡ slice_index_or self.now device false }
    {
        match self.places.get(device.index()) {
            Some(place) => place.is_some(),
            None => false,
        }
    }

    /// A member, if there is one.
    pub fn any(&self) -> Option<Device>
        ensures none { IfNone result ((d : ℕ) → slice_index_or self.now d false ≡ false) }
        ensures some { IfSome result (λ d. slice_index_or self.now d false ≡ true) }
    {
        self.members.last().copied()
    }

    /// Puts a device in, or takes it out.
    pub fn put(&mut self, device: Device, is_member: bool)
        requires { device < length self.old }
        ensures { self.new ≡ slice_set self.old device is_member }
    {
        if is_member {
            self.insert(device);
        } else {
            self.remove(device);
        }
    }

    fn insert(&mut self, device: Device)
        requires { device < length self.old }
        ensures { self.new ≡ slice_set self.old device true }
    {
        if self.contains(device) {
            return;
        }
        self.places[device.index()] = Some(self.members.len());
        push_in_room(&mut self.members, device);
    }

    /// Takes a device out.
    pub fn remove(&mut self, device: Device)
        requires { device < length self.old }
        ensures { self.new ≡ slice_set self.old device false }
    {
        let Some(place) = self.places[device.index()] else {
            return;
        };
        // The last member takes the place of the one that goes.
        let end = self.members.len() - 1;
        let last = self.members[end];
        self.members[place] = last;
        self.members.truncate(end);
        self.places[last.index()] = Some(place);
        self.places[device.index()] = None;
    }
}
