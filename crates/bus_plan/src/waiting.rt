ghost use Rattle.std.specs.Prelude.{◌≡◌, ◌&&◌, ◌||◌, ◌==◌, ℕ, List, [], true, length, IfOk, OnOk, IfSome, IfNone, if◌then◌else◌};
ghost use Rattle.std.specs.List.{slice_index_or};
ghost use Rattle.std.specs.Str.{bytes_eq};
ghost use Rattle.bus_plan.specs.Plan.{compatibles_of};
ghost use Rattle.bus_plan.specs.PlanPaths.{is_among, place_of};
ghost use Rattle.bus_plan.specs.Private.Places.{is_in};
ghost use Rattle.bus_plan.specs.Private.Waiting.{listed_by, is_listed, stands_at};

use crate::device::Device;
use crate::paths::PathIndex;
use crate::places::Places;
use crate::planned::Planned;
use dt_tree::Bytes;
use std::alloc::{AllocError, Global};
use std::hash::RandomState;
use std::marker::Model;

/// The devices that wait for a driver, listed by each of their strings. One that gets a driver by another string stays in a
/// list.
#[derive(Drop)]
pub struct Waiting {
    strings: PathIndex,
    /// The list of each string, at its place.
    lists: Vec<Vec<Device>>,
}

impl Model for Waiting {
    ghost use Rattle.std.specs.Prelude.{◌≡◌, length, map};
    ghost use Rattle.bus_plan.specs.Private.Waiting.{WaitingDevices};

    ghost Value = { WaitingDevices };

    ghost view = { λ w. record { strings = w.strings; lists = map (λ list. list.items) w.lists.items } };

    ghost invariant = { λ w. length w.lists.items ≡ length w.strings };
}

// Puts a device last, unless it stands there.
fn put(list: &mut Vec<Device>, device: Device) -> Result<(), AllocError>
    ensures { OnOk result ((d : ℕ) → is_in d list.new.items ≡ (is_in d list.old.items || (d == device))) }
{
    if list.last() == Some(&device) {
        return Ok(());
    }
    list.push(device)?;
    Ok(())
}

impl Waiting {
    /// The devices of a plan.
    pub fn of(alloc: Global, hasher: RandomState, devices: &[Planned]) -> Result<Self, AllocError>
        ensures { IfOk result (λ w. (d : ℕ) (s : List ℕ) → is_in d (listed_by w s)
            ≡ is_among s (compatibles_of devices.now d)) }
    {
        let mut waiting = Self {
            strings: PathIndex::new(alloc, hasher),
            lists: Vec::new(alloc),
        };
        for (place, device) in devices.iter().enumerate() {
            waiting.add(alloc, Device::new(place), device.compatibles())?;
        }
        Ok(waiting)
    }

    // Lists a device by each of these strings.
    fn add(&mut self, alloc: Global, device: Device, strings: &[Bytes]) -> Result<(), AllocError>
        ensures { OnOk result ((d : ℕ) (s : List ℕ) → is_in d (listed_by self.new s)
            ≡ (is_in d (listed_by self.old s) || (is_among s strings.now && (d == device)))) }
    {
        for string in strings {
            self.add_by(alloc, device, string.as_slice())?;
        }
        Ok(())
    }

    // Lists a device by a string.
    fn add_by(&mut self, alloc: Global, device: Device, string: &[u8]) -> Result<(), AllocError>
        ensures { OnOk result ((d : ℕ) (s : List ℕ) → is_in d (listed_by self.new s)
            ≡ (is_in d (listed_by self.old s) || (bytes_eq s string.now && (d == device)))) }
    {
        let place = self.place_for(alloc, string)?;
        put(&mut self.lists[place], device)?;
        Ok(())
    }

    // Where the list of a string is: an empty one, if it is new.
    fn place_for(&mut self, alloc: Global, string: &[u8]) -> Result<usize, AllocError>
        ensures there { OnOk result (is_among string.now self.new.strings ≡ true) }
        ensures place { IfOk result (λ place. place ≡ place_of self.new.strings string.now) }
        ensures same { OnOk result ((s : List ℕ) → listed_by self.new s ≡ listed_by self.old s) }
    {
        if let Some(place) = self.strings.position(string) {
            return Ok(place);
        }
        let place = self.lists.len();
        // most strings are those of one device
        let list = Vec::with_capacity(alloc, 1)?;
        self.lists.push(list)?;
        match self.strings.push(alloc, string) {
            Ok(()) => Ok(place),
            Err(error) => {
                self.lists.pop();
                Err(error)
            }
        }
    }

    // Where the list of a string is, if there are devices in it.
    fn filled_place(&self, string: &[u8]) -> Option<usize>
        ensures none { IfNone result (listed_by self.now string.now ≡ []) }
        ensures some { IfSome result (λ place. slice_index_or self.now.lists place [] ≡ listed_by self.now string.now) }
    {
        let place = self.strings.position(string)?;
        if self.lists[place].is_empty() {
            return None;
        }
        Some(place)
    }

    // Adds where the list of a string is, if there are devices in it.
    fn add_place(&self, string: &[u8], places: &mut Places) -> Result<(), AllocError>
        ensures { OnOk result ((d : ℕ) → stands_at self.now places.new d
            ≡ (stands_at self.now places.old d || is_in d (listed_by self.now string.now))) }
    {
        match self.filled_place(string) {
            Some(place) => places.add(place),
            None => Ok(()),
        }
    }

    /// Where the lists of these strings are: those with devices, each once.
    pub fn places_of(&self, alloc: Global, strings: &[Bytes]) -> Result<Places, AllocError>
        ensures { IfOk result (λ places. (d : ℕ) → stands_at self.now places d ≡ is_listed self.now strings.now d) }
    {
        let mut places = Places::new(alloc, self.strings.hasher());
        for string in strings {
            self.add_place(string.as_slice(), &mut places)?;
        }
        Ok(places)
    }

    /// The list at a place.
    pub fn list(&self, place: usize) -> &[Device]
        ensures { result.now ≡ slice_index_or self.now.lists place [] }
    {
        match self.lists.get(place) {
            Some(list) => list.as_slice(),
            None => &[],
        }
    }

    // Empties the list of a string.
    fn empty(&mut self, string: &[u8])
        ensures { (s : List ℕ) → listed_by self.new s ≡ (if bytes_eq s string.now then [] else listed_by self.old s) }
    {
        if let Some(place) = self.strings.position(string) {
            self.lists[place].clear();
        }
    }

    /// Empties the lists of these strings.
    pub fn empty_all(&mut self, strings: &[Bytes])
        ensures { (s : List ℕ) → listed_by self.new s ≡ (if is_among s strings.now then [] else listed_by self.old s) }
    {
        for string in strings {
            self.empty(string.as_slice());
        }
    }
}
