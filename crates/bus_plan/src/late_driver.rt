//! How the devices that a late driver matches get it.
ghost use Rattle.std.specs.Prelude.{◌≡◌, ◌<◌, ◌&&◌, ◌||◌, ◌==◌, ℕ, All, map, length, IfOk, OnOk};
ghost use Rattle.bus_plan.specs.Plan.{planned};
ghost use Rattle.bus_plan.specs.Private.Late.{gain_of, given};
ghost use Rattle.bus_plan.specs.Private.Places.{is_in};
ghost use Rattle.bus_plan.specs.Private.Waiting.{is_listed, is_unmatched};

use crate::device::Device;
use crate::places::Places;
use crate::planned::Planned;
use crate::waiting::Waiting;
use dt_tree::{Bytes, Name};
use std::alloc::{AllocError, Global};
use std::hash::RandomState;

/// A device that gets a driver, and the driver's name.
#[derive(Drop)]
pub struct Gain {
    pub device: Device,
    pub name: Name,
}

fn is_unmatched(devices: &[Planned], device: Device) -> bool
    ensures { result ≡ is_unmatched (planned devices.now device) }
{
    match devices.get(device.index()) {
        Some(device) => device.is_unmatched(),
        None => false,
    }
}

// Adds a device, if it has no driver.
fn add_unmatched(found: &mut Places, devices: &[Planned], device: Device) -> Result<(), AllocError>
    ensures { OnOk result ((d : ℕ) → is_in d found.new
        ≡ (is_in d found.old || ((d == device) && is_unmatched (planned devices.now d)))) }
{
    if !is_unmatched(devices, device) {
        return Ok(());
    }
    found.add(device.index())
}

// Adds those of the devices in a list that have no driver.
fn add_list(found: &mut Places, devices: &[Planned], list: &[Device]) -> Result<(), AllocError>
    ensures { OnOk result ((d : ℕ) → is_in d found.new
        ≡ (is_in d found.old || (is_in d list.now && is_unmatched (planned devices.now d)))) }
{
    for device in list {
        add_unmatched(found, devices, *device)?;
    }
    Ok(())
}

/// The devices without a driver that are listed by these strings.
pub fn unmatched_by(
    alloc: Global,
    hasher: RandomState,
    devices: &[Planned],
    waiting: &Waiting,
    strings: &[Bytes],
) -> Result<Places, AllocError>
    ensures { IfOk result (λ found. (d : ℕ) → is_in d found
        ≡ (is_listed waiting.now strings.now d && is_unmatched (planned devices.now d))) }
{
    let lists = waiting.places_of(alloc, strings)?;
    let mut found = Places::new(alloc, hasher);
    for place in lists.as_slice() {
        add_list(&mut found, devices, waiting.list(*place))?;
    }
    Ok(found)
}

/// Each of these devices with a copy of the name.
pub fn gains(alloc: Global, devices: &[usize], name: &Name) -> Result<Vec<Gain>, AllocError>
    ensures { IfOk result (λ gains. gains.items ≡ map (gain_of name.now) devices.now) }
{
    let mut gains = Vec::with_capacity(alloc, devices.len())?;
    for place in devices {
        let name = name.copy(alloc)?;
        let device = Device::new(*place);
        gains.push(Gain { device, name })?;
    }
    Ok(gains)
}

/// Gives each device what it gains.
pub fn give(devices: &mut Vec<Planned>, gains: Vec<Gain>)
    requires { All (λ gain. gain.device < length devices.old.items) gains.items }
    ensures { devices.new.items ≡ given devices.old.items gains.items }
{
    for gain in gains {
        devices[gain.device.index()].take_driver(gain.name);
    }
}
