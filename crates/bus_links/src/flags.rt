//! Which devices have one of some `compatible` strings.
ghost use Rattle.std.specs.Prelude.{◌≡◌, IfOk};
ghost use Rattle.std.specs.List.{list_any};
ghost use Rattle.bus_plan.specs.PlanPaths.{is_among};
ghost use Rattle.bus_drivers.specs.TreePlan.{strings};
ghost use Rattle.bus_links.specs.Links.{has_string, flags, flag_at};

use bus_drivers::{TreeDevice, next_string};
use bus_plan::PathIndex;
use std::alloc::{AllocError, Global};

fn is_any(known: &PathIndex, value: &[u8]) -> bool
    ensures { result ≡ list_any (λ string. is_among string known.now) (strings value.now) }
{
    let mut rest = value;
    while let Some((string, behind)) = next_string(rest) {
        rest = behind;
        if known.contains(string) {
            return true;
        }
    }
    false
}

fn has_string(strings: &PathIndex, device: &TreeDevice<'_>) -> bool
    ensures { result ≡ has_string strings.now device.now }
{
    match device.node().value(b"compatible") {
        None => false,
        Some(value) => is_any(strings, value.as_slice()),
    }
}

/// For each device, whether one of its `compatible` strings is among these.
pub fn flags_of(
    alloc: Global,
    strings: &PathIndex,
    devices: &[TreeDevice<'_>],
) -> Result<Vec<bool>, AllocError>
    ensures { IfOk result (λ made. made.items ≡ flags strings.now devices.now) }
{
    let mut flags = Vec::with_capacity(alloc, devices.len())?;
    for device in devices {
        flags.push(has_string(strings, device))?;
    }
    Ok(flags)
}

/// The flag of the device at a place; none past the end.
pub fn flag_at(flags: &[bool], place: usize) -> bool
    ensures { result ≡ flag_at flags.now place }
{
    if place >= flags.len() {
        return false;
    }
    flags[place]
}
