//! A walk from a device, one way, within the devices of its class.
ghost use Rattle.std.specs.Prelude.{◌≡◌, ◌<◌, ◌+◌, [], All, IfOk, OnOk, length, slice_index};
ghost use Rattle.bus_plan.specs.Reach.Reached.{is_in};
ghost use Rattle.bus_plan.specs.Reach.Private.Walk.{AreStamped, OnlyStamps, IsWalked, class_of, unstamped, with_device, with_devices};

use crate::reach::direction::{Direction, next_to};
use crate::{Device, Plan};
use std::alloc::AllocError;

// Enters a device, where it is new and of the class.
fn enter(
    classes: &[usize],
    class: usize,
    stamps: &mut [usize],
    stamp: usize,
    found: &mut Vec<Device>,
    device: Device,
) -> Result<(), AllocError>
    requires known { device < length stamps.old }
    requires long { length classes.now ≡ length stamps.old }
    requires stamped { AreStamped stamp stamps.old found.old.items }
    ensures found { OnOk result (found.new.items ≡ with_device classes.now class found.old.items device) }
    ensures stamped { OnOk result (AreStamped stamp stamps.new found.new.items) }
    ensures only { OnOk result (OnlyStamps stamp stamps.old stamps.new) }
    ensures left { OnOk result (unstamped stamp stamps.new + length found.new.items
        ≡ unstamped stamp stamps.old + length found.old.items) }
{
    if stamps[device.index()] == stamp {
        return Ok(());
    }
    if classes[device.index()] != class {
        return Ok(());
    }
    found.push(device)?;
    stamps[device.index()] = stamp;
    Ok(())
}

fn enter_all(
    classes: &[usize],
    class: usize,
    stamps: &mut [usize],
    stamp: usize,
    found: &mut Vec<Device>,
    devices: &[Device],
) -> Result<(), AllocError>
    requires known { All (λ d. d < length stamps.old) devices.now }
    requires long { length classes.now ≡ length stamps.old }
    requires stamped { AreStamped stamp stamps.old found.old.items }
    ensures found { OnOk result (found.new.items ≡ with_devices classes.now class found.old.items devices.now) }
    ensures stamped { OnOk result (AreStamped stamp stamps.new found.new.items) }
    ensures only { OnOk result (OnlyStamps stamp stamps.old stamps.new) }
    ensures left { OnOk result (unstamped stamp stamps.new + length found.new.items
        ≡ unstamped stamp stamps.old + length found.old.items) }
{
    for device in devices {
        enter(classes, class, stamps, stamp, found, *device)?;
    }
    Ok(())
}

/// Puts into a list what follows a device within its class. No device has the stamp before, those that are found have it after.
pub fn follow(
    plan: &Plan,
    direction: Direction,
    classes: &[usize],
    stamps: &mut [usize],
    stamp: usize,
    found: &mut Vec<Device>,
    root: Device,
) -> Result<(), AllocError>
    requires known { root < length plan.now }
    requires classes_long { length classes.now ≡ length plan.now }
    requires long { length stamps.old ≡ length plan.now }
    requires none { found.old.items ≡ [] }
    requires stamped { AreStamped stamp stamps.old [] }
    ensures walked { OnOk result (IsWalked direction plan.now classes.now root found.new.items) }
    ensures stamped { OnOk result (AreStamped stamp stamps.new found.new.items) }
    ensures only { OnOk result (OnlyStamps stamp stamps.old stamps.new) }
{
    plan.check();
    let class = classes[root.index()];
    enter(classes, class, stamps, stamp, found, root)?;
    let mut at = 0;
    'walking: while at < found.len() {
        let device = found[at];
        at += 1;
        let next = next_to(plan, direction, device);
        enter_all(classes, class, stamps, stamp, found, next)?;
    }
    Ok(())
}
