//! What keeps a device from being bound.

ghost use Rattle.std.specs.Prelude.{◌≡◌, ◌<◌, length, not};
ghost use Rattle.bus_plan.specs.Plan.{suppliers_of};
ghost use Rattle.bus_core.specs.Report.{missing_supplier};
ghost use Rattle.bus_picture.specs.Why.Chain.{bound_by};
ghost use Rattle.bus_picture.specs.Why.Private.Places.{IsHold};

use bus_plan::{Device, Plan};

/// Where a chain ends.
#[derive(Clone, Copy, Debug, PartialEq, Eq)]
pub enum Cause {
    /// At the device itself: it is bound.
    Bound,
    /// At a device whose driver failed.
    Failed,
    /// At a device that no driver matches.
    Unmatched,
    /// At a device that isn't available.
    Disabled,
    /// At the device that stands at this place of the chain, too.
    Cycle(usize),
}

/// The supplier that a device waits for, or what it is where it doesn't wait.
#[derive(Clone, Copy, Debug)]
pub enum Hold {
    Waits(Device),
    Ends(Cause),
}

fn is_bound(bound: &[bool], device: Device) -> bool
    ensures { result ≡ bound_by bound.now device }
{
    match bound.get(device.index()) {
        Some(is_bound) => *is_bound,
        None => false,
    }
}

// The first of a device's suppliers that isn't bound.
fn missing_supplier(plan: &Plan, bound: &[bool], device: Device) -> Option<Device>
    requires { device < length plan.now }
    ensures { result ≡ missing_supplier plan.now (bound_by bound.now) device }
{
    plan.suppliers(device)
        .iter()
        .copied()
        .find(|supplier| !is_bound(bound, *supplier))
}

/// What keeps a device.
pub fn hold_of(plan: &Plan, bound: &[bool], device: Device) -> Hold
    requires { device < length plan.now }
    ensures { IsHold plan.now (bound_by bound.now) device result }
{
    plan.check();
    if !plan.available(device) {
        return Hold::Ends(Cause::Disabled);
    }
    if plan.driver(device).is_none() {
        return Hold::Ends(Cause::Unmatched);
    }
    if is_bound(bound, device) {
        return Hold::Ends(Cause::Bound);
    }
    match missing_supplier(plan, bound, device) {
        Some(supplier) => Hold::Waits(supplier),
        None => Hold::Ends(Cause::Failed),
    }
}
