//! All that a device takes, or that takes it.
ghost use Rattle.std.specs.Prelude.{◌≡◌, ◌<◌, IfOk, length};
ghost use Rattle.bus_plan.specs.Reach.Reached.{AreFollowers};

use crate::reach::direction::Direction;
use crate::reach::walk::follow;
use crate::{Device, Plan};
use std::alloc::{AllocError, Global};

/// The devices that a device takes, or those that take it, itself first. The time is that of the devices and links that are met.
pub fn reached(
    alloc: Global,
    plan: &Plan,
    direction: Direction,
    device: Device,
) -> Result<Vec<Device>, AllocError>
    requires { device < length plan.now }
    ensures { IfOk result (λ found. AreFollowers direction plan.now device found.items) }
{
    let classes = vec![in alloc; 0; plan.len()]?;
    let mut stamps = vec![in alloc; 0; plan.len()]?;
    let mut found = Vec::new(alloc);
    follow(
        plan,
        direction,
        classes.as_slice(),
        &mut stamps,
        1,
        &mut found,
        device,
    )?;
    Ok(found)
}
