//! Paths that are looked up many times.
ghost use Rattle.std.specs.Prelude.{◌≡◌, [], ℕ, List, OnOk};
ghost use Rattle.bus_plan.specs.PlanPaths.{is_among};
ghost use Rattle.bus_drivers.specs.Private.Matching.{device_paths};
ghost use Rattle.bus_drivers.specs.TreePlan.{fail_paths};

use crate::fail_line::FailLine;
use crate::tree_device::TreeDevice;
use bus_plan::PathIndex;
use std::alloc::{AllocError, Global};

/// Adds the paths of the `fail` lines.
pub fn add_fails(alloc: Global, index: &mut PathIndex, fails: &[FailLine]) -> Result<(), AllocError>
    requires { index.old ≡ [] }
    ensures { OnOk result ((q : List ℕ) → is_among q index.new ≡ is_among q (fail_paths fails.now)) }
{
    for fail in fails {
        index.add(alloc, fail.path().as_bytes())?;
    }
    Ok(())
}

/// Adds the paths of the devices.
pub fn add_devices(
    alloc: Global,
    index: &mut PathIndex,
    devices: &[TreeDevice<'_>],
) -> Result<(), AllocError>
    requires { index.old ≡ [] }
    ensures { OnOk result ((q : List ℕ) → is_among q index.new ≡ is_among q (device_paths devices.now)) }
{
    for device in devices {
        index.add(alloc, device.path().as_bytes())?;
    }
    Ok(())
}
