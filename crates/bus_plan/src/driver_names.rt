//! The names of the drivers that the devices of a plan have.
ghost use Rattle.std.specs.Prelude.{◌≡◌, ◌&&◌, ◌||◌, ℕ, List, length, nat_lt, IfOk, OnOk, OnErr};
ghost use Rattle.std.specs.Str.{bytes_eq};
ghost use Rattle.bus_plan.specs.LateDriver.{has_driver};
ghost use Rattle.bus_plan.specs.PlanPaths.{is_among};
ghost use Rattle.bus_plan.specs.Private.Indexed.{AreDrivers};

use crate::paths::PathIndex;
use crate::planned::Planned;
use dt_tree::Name;
use std::alloc::{AllocError, Global};
use std::hash::RandomState;

// Adds that of a device, if it has one.
fn add_driver(alloc: Global, names: &mut PathIndex, device: &Planned) -> Result<(), AllocError>
    ensures { OnOk result ((q : List ℕ) → is_among q names.new ≡ (has_driver q device.now || is_among q names.old)) }
{
    match device.driver() {
        Some(name) => names.add(alloc, name.as_bytes()),
        None => Ok(()),
    }
}

/// Those of these devices.
pub fn driver_names(
    alloc: Global,
    hasher: RandomState,
    devices: &[Planned],
) -> Result<PathIndex, AllocError>
    ensures { IfOk result (λ names. AreDrivers devices.now names) }
{
    let mut names = PathIndex::new(alloc, hasher);
    for device in devices {
        add_driver(alloc, &mut names, device)?;
    }
    Ok(names)
}

/// Adds the name of the driver that these devices get, if there are any.
pub fn add_name(
    alloc: Global,
    names: &mut PathIndex,
    name: &Name,
    gaining: &[usize],
) -> Result<(), AllocError>
    ensures ok { OnOk result ((q : List ℕ) → is_among q names.new
        ≡ ((nat_lt 0 (length gaining.now) && bytes_eq q name.now) || is_among q names.old)) }
    ensures err { OnErr result (names.new ≡ names.old) }
{
    if gaining.is_empty() {
        return Ok(());
    }
    if names.contains(name.as_bytes()) {
        return Ok(());
    }
    names.push(alloc, name.as_bytes())
}
