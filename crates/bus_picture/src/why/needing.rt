//! What it takes to bind a device.

ghost use Rattle.std.specs.Prelude.{◌≡◌, ◌<◌, ℕ, length, IfOk, OnOk};
ghost use Rattle.bus_picture.specs.Why.Order.{IsOrderFor};
ghost use Rattle.bus_picture.specs.Why.Private.Walk.{IsSoundWalk, IsWalkFrom};

use crate::why::walk::Walk;
use bus_plan::{Device, Plan};
use std::alloc::{AllocError, Global};

// Goes on until the walk is back where it began.
fn finish(plan: &Plan, walk: &mut Walk) -> Result<(), AllocError>
    requires { IsSoundWalk plan.now walk.old }
    ensures sound { OnOk result (IsSoundWalk plan.now walk.new) }
    ensures from { OnOk result ((device : ℕ) → IsWalkFrom plan.now device walk.old → IsWalkFrom plan.now device walk.new) }
    ensures ended { OnOk result (length walk.new.path.items ≡ 0) }
{
    'walking: while walk.step(plan)? {}
    Ok(())
}

/// All devices that it takes to bind this one: its suppliers, theirs and so on, each behind its own suppliers where these are in
/// no cycle with it, and the device itself last. The time is that of the devices and suppliers that are met.
pub fn needs(alloc: Global, plan: &Plan, device: Device) -> Result<Vec<Device>, AllocError>
    requires { device < length plan.now }
    ensures { IfOk result (λ order. IsOrderFor plan.now device order.items) }
{
    let mut walk = Walk::at(alloc, plan, device)?;
    finish(plan, &mut walk)?;
    Ok(walk.left)
}
