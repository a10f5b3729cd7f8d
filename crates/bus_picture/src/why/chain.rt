//! The chain from a device to what keeps it.

ghost use Rattle.std.specs.Prelude.{◌≡◌, ◌<◌, ◌+◌, ℕ, [], None, length, IfOk, OnOk};
ghost use Rattle.bus_picture.specs.Why.Chain.{bound_by, IsChain};
ghost use Rattle.bus_picture.specs.Why.Private.Places.{AreClear, AreFrom};

use crate::why::hold::{Cause, Hold, hold_of};
use bus_plan::{Device, Plan};
use std::alloc::{AllocError, Global};

/// A device, the supplier that it waits for, the one that this waits for and so on, and the cause at the end.
#[derive(Drop)]
pub struct Chain {
    pub devices: Vec<Device>,
    pub cause: Cause,
}

/// Follows the suppliers that aren't bound from a device. No device has a place before.
fn follow(
    plan: &Plan,
    bound: &[bool],
    places: &mut [Option<usize>],
    devices: &mut Vec<Device>,
    device: Device,
) -> Result<Cause, AllocError>
    requires known { device < length plan.now }
    requires long { length places.old ≡ length plan.now }
    requires clear { AreClear places.old }
    requires none { devices.old.items ≡ [] }
    ensures chain { IfOk result (IsChain plan.now (bound_by bound.now) device devices.new.items) }
    ensures places { OnOk result (AreFrom 0 places.new devices.new.items) }
{
    let mut last = device;
    'following: loop {
        places[last.index()] = Some(devices.len());
        devices.push(last)?;
        let next = match hold_of(plan, bound, last) {
            Hold::Waits(supplier) => supplier,
            Hold::Ends(cause) => return Ok(cause),
        };
        if let Some(place) = places[next.index()] {
            devices.push(next)?;
            return Ok(Cause::Cycle(place));
        }
        last = next;
    }
}

// Takes the places of these devices away.
fn clear(places: &mut [Option<usize>], devices: &[Device])
    requires { AreFrom 0 places.old devices.now }
    ensures { AreClear places.new }
{
    for device in devices {
        if device.index() < places.len() {
            places[device.index()] = None;
        }
    }
}

/// The chain from a device, with a table of places that no device has before or after.
pub fn next_chain(
    alloc: Global,
    plan: &Plan,
    bound: &[bool],
    places: &mut [Option<usize>],
    device: Device,
) -> Result<Chain, AllocError>
    requires known { device < length plan.now }
    requires long { length places.old ≡ length plan.now }
    requires clear { AreClear places.old }
    ensures chain { IfOk result (λ chain. IsChain plan.now (bound_by bound.now) device chain.devices.items chain.cause) }
    ensures clear { OnOk result (AreClear places.new) }
{
    let mut devices = Vec::new(alloc);
    let cause = follow(plan, bound, places, &mut devices, device)?;
    clear(places, devices.as_slice());
    Ok(Chain { devices, cause })
}

/// The chain from a device of a plan to what keeps it from being bound: each device of it waits for the next, which is the first of
/// its suppliers that isn't bound. `bound` says which devices are, in the plan's order.
pub fn chain_from(
    alloc: Global,
    plan: &Plan,
    bound: &[bool],
    device: Device,
) -> Result<Chain, AllocError>
    requires { device < length plan.now }
    ensures { IfOk result (λ chain. IsChain plan.now (bound_by bound.now) device chain.devices.items chain.cause) }
{
    let mut places = vec![in alloc; None; plan.len()]?;
    next_chain(alloc, plan, bound, &mut places, device)
}
