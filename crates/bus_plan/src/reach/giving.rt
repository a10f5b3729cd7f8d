//! The component of a device: what follows it both ways.
ghost use Rattle.std.specs.Prelude.{◌≡◌, ◌<◌, ◌≤◌, ◌+◌, [], All, IfOk, OnOk, length};
ghost use Rattle.bus_plan.specs.Reach.Private.Classes.{AreClasses};
ghost use Rattle.bus_plan.specs.Reach.Private.Given.{AreGiven, AreStampsTo, IsGiven, with_component, with_components};

use crate::reach::direction::Direction;
use crate::reach::walk::follow;
use crate::{Device, Plan};
use std::alloc::{AllocError, Global};

// Gives a device the component, where it has the stamp.
fn give_one(
    stamps: &[usize],
    stamp: usize,
    component: usize,
    components: &mut [usize],
    device: Device,
)
    requires known { device < length components.old }
    requires long { length stamps.now ≡ length components.old }
    ensures { components.new ≡ with_component stamps.now stamp component components.old device }
{
    if stamps[device.index()] == stamp {
        components[device.index()] = component;
    }
}

fn give_those(
    stamps: &[usize],
    stamp: usize,
    component: usize,
    components: &mut [usize],
    devices: &[Device],
)
    requires known { All (λ d. d < length components.old) devices.now }
    requires long { length stamps.now ≡ length components.old }
    ensures { components.new ≡ with_components stamps.now stamp component components.old devices.now }
{
    for device in devices {
        give_one(stamps, stamp, component, components, *device);
    }
}

// Gives the component of a device to all that it takes and that take it. No device has a stamp of more than this place.
fn give(
    alloc: Global,
    plan: &Plan,
    classes: &[usize],
    ahead: &mut [usize],
    behind: &mut [usize],
    components: &mut [usize],
    place: usize,
) -> Result<(), AllocError>
    requires known { place < length plan.now }
    requires classes { AreClasses plan.now classes.now }
    requires ahead { AreStampsTo place plan.now ahead.old }
    requires behind { AreStampsTo place plan.now behind.old }
    requires long { length components.old ≡ length plan.now }
    ensures given { OnOk result (IsGiven plan.now components.old components.new place) }
    ensures ahead { OnOk result (AreStampsTo (place + 1) plan.now ahead.new) }
    ensures behind { OnOk result (AreStampsTo (place + 1) plan.now behind.new) }
{
    plan.check();
    let stamp = place + 1;
    let root = Device::new(place);
    let mut taken = Vec::new(alloc);
    follow(
        plan,
        Direction::Suppliers,
        classes,
        ahead,
        stamp,
        &mut taken,
        root,
    )?;
    let mut taking = Vec::new(alloc);
    follow(
        plan,
        Direction::Consumers,
        classes,
        behind,
        stamp,
        &mut taking,
        root,
    )?;
    give_those(ahead, stamp, place, components, taking.as_slice());
    Ok(())
}

// Gives the component of the device at this place, where that is the first of it.
fn give_next(
    alloc: Global,
    plan: &Plan,
    classes: &[usize],
    ahead: &mut [usize],
    behind: &mut [usize],
    components: &mut [usize],
    place: usize,
) -> Result<(), AllocError>
    requires known { place < length plan.now }
    requires classes { AreClasses plan.now classes.now }
    requires ahead { AreStampsTo place plan.now ahead.old }
    requires behind { AreStampsTo place plan.now behind.old }
    requires given { AreGiven plan.now components.old place }
    ensures given { OnOk result (AreGiven plan.now components.new (place + 1)) }
    ensures ahead { OnOk result (AreStampsTo (place + 1) plan.now ahead.new) }
    ensures behind { OnOk result (AreStampsTo (place + 1) plan.now behind.new) }
{
    if components[place] < place {
        return Ok(());
    }
    give(alloc, plan, classes, ahead, behind, components, place)?;
    Ok(())
}

/// Gives each device its component: the first device of it.
pub fn give_all(
    alloc: Global,
    plan: &Plan,
    classes: &[usize],
    components: &mut [usize],
) -> Result<(), AllocError>
    requires classes { AreClasses plan.now classes.now }
    requires given { AreGiven plan.now components.old 0 }
    ensures { OnOk result (AreGiven plan.now components.new (length plan.now)) }
{
    let mut ahead = vec![in alloc; 0; plan.len()]?;
    let mut behind = vec![in alloc; 0; plan.len()]?;
    for place in 0..plan.len() {
        give_next(
            alloc,
            plan,
            classes,
            &mut ahead,
            &mut behind,
            components,
            place,
        )?;
    }
    Ok(())
}
