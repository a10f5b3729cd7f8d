//! Which devices a picture shows.
ghost use Rattle.std.specs.Prelude.{◌≡◌, ◌<◌, ◌==◌, ◌||◌, ℕ, IfOk, IfSome, length};
ghost use Rattle.bus_links.specs.Links.{flag_at};
ghost use Rattle.bus_plan.specs.Reach.Reached.{is_in};
ghost use Rattle.bus_picture.specs.Shown.{AreShown};

use bus_plan::reach::{Direction, reached};
use bus_plan::{Device, Plan};
use std::alloc::{AllocError, Global};

/// The flag of a device; none past the end.
pub(crate) fn flag_at(flags: &[bool], device: Device) -> bool
    ensures { result ≡ flag_at flags.now device }
{
    match flags.get(device.index()) {
        Some(flag) => *flag,
        None => false,
    }
}

// Flags a device that there is.
fn flag(flags: &mut Vec<bool>, device: Device)
    ensures long { length flags.new.items ≡ length flags.old.items }
    ensures set { (d : ℕ) → d < length flags.old.items
        → flag_at flags.new.items d ≡ (flag_at flags.old.items d || device == d) }
{
    if device.index() < flags.len() {
        flags[device.index()] = true;
    }
}

// Flags these devices.
fn flag_all(flags: &mut Vec<bool>, devices: &[Device])
    ensures long { length flags.new.items ≡ length flags.old.items }
    ensures set { (d : ℕ) → d < length flags.old.items
        → flag_at flags.new.items d ≡ (flag_at flags.old.items d || is_in devices.now d) }
{
    for device in devices {
        flag(flags, *device);
    }
}

fn around(alloc: Global, plan: &Plan, device: Device) -> Result<Vec<bool>, AllocError>
    requires { device < length plan.now }
    ensures { IfOk result (λ shown. AreShown plan.now (Some device) shown.items) }
{
    let taken = reached(alloc, plan, Direction::Suppliers, device)?;
    let taking = reached(alloc, plan, Direction::Consumers, device)?;
    let mut shown = vec![in alloc; false; plan.len()]?;
    flag_all(&mut shown, taken.as_slice());
    flag_all(&mut shown, taking.as_slice());
    Ok(shown)
}

/// Whether each device is shown: all are, or those around one, which are what it takes and what takes it.
pub fn shown(alloc: Global, plan: &Plan, of: Option<Device>) -> Result<Vec<bool>, AllocError>
    requires { IfSome of (λ device. device < length plan.now) }
    ensures { IfOk result (λ shown. AreShown plan.now of shown.items) }
{
    match of {
        None => Ok(vec![in alloc; true; plan.len()]?),
        Some(device) => around(alloc, plan, device),
    }
}
