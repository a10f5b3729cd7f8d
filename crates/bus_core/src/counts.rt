//! How many suppliers of each device aren't bound.

ghost use Rattle.std.specs.Prelude.{◌≡◌, ◌<◌, ℕ, true, false, length, slice_index_or, IfOk};
ghost use Rattle.bus_plan.specs.Plan.{is_matched};
ghost use Rattle.bus_plan.specs.Consumers.{has_supplier};
ghost use Rattle.bus_core.specs.RefinementCounts.{supplier_counts, due_with, AreMarked, AreLowered, AreMarkedAfter};

use crate::device_set::DeviceSet;
use crate::phase::{Phase, is_matched, phase_of};
use bus_plan::{Device, Plan};
use std::alloc::{AllocError, Global};

/// How many suppliers each device has.
pub fn supplier_counts(alloc: Global, plan: &Plan) -> Result<Vec<usize>, AllocError>
    ensures { IfOk result (λ counts. counts.items ≡ supplier_counts plan.now) }
{
    let mut counts = Vec::with_capacity(alloc, plan.len())?;
    for index in 0..plan.len() {
        counts.push(plan.suppliers(Device::new(index)).len())?;
    }
    Ok(counts)
}

/// The devices that are due before anything has begun: those with a driver.
pub fn matched_devices(alloc: Global, plan: &Plan) -> Result<DeviceSet, AllocError>
    ensures places { IfOk result (λ due. length due ≡ length plan.now) }
    ensures matched { IfOk result (λ due. (d : ℕ) → slice_index_or due d false ≡ is_matched plan.now d) }
{
    let mut due = DeviceSet::new(alloc, plan.len())?;
    for index in 0..plan.len() {
        let device = Device::new(index);
        due.put(device, is_matched(plan, device));
    }
    Ok(due)
}

// Whether a device in this phase is due that waits for so many suppliers.
fn is_due(plan: &Plan, device: Device, phase: Phase, missing: usize) -> bool
    requires { device < length plan.now }
    ensures { result ≡ due_with plan.now device phase missing }
{
    match phase {
        Phase::Fresh => is_matched(plan, device),
        Phase::Begun => is_matched(plan, device) && missing == 0,
        _ => false,
    }
}

/// Each device is due or not by its phase and by what it waits for.
pub fn mark(plan: &Plan, phases: &[Phase], missing: &[usize], due: &mut DeviceSet)
    requires counts { length missing.now ≡ length plan.now }
    requires places { length due.old ≡ length plan.now }
    ensures places { length due.new ≡ length plan.now }
    ensures due { AreMarked plan.now phases.now missing.now due.new }
{
    for (index, count) in missing.iter().enumerate() {
        let device = Device::new(index);
        due.put(
            device,
            is_due(plan, device, phase_of(phases, device), *count),
        );
    }
}

/// A supplier more is bound: each of its consumers waits for one less, and is due or not by what is left.
pub fn lower(
    plan: &Plan,
    phases: &[Phase],
    missing: &mut [usize],
    due: &mut DeviceSet,
    supplier: Device,
)
    requires within { supplier < length plan.now }
    requires counts { length missing.old ≡ length plan.now }
    requires places { length due.old ≡ length plan.now }
    requires counted { (d : ℕ) → has_supplier plan.now d supplier ≡ true → 0 < slice_index_or missing.old d 0 }
    ensures missing { AreLowered plan.now supplier missing.old missing.new }
    ensures places { length due.new ≡ length plan.now }
    ensures due { AreMarkedAfter plan.now phases.now missing.new supplier due.old due.new }
{
    let consumers = plan.consumers(supplier);
    for consumer in consumers {
        let index = consumer.index();
        missing[index] -= 1;
        due.put(
            *consumer,
            is_due(plan, *consumer, phase_of(phases, *consumer), missing[index]),
        );
    }
}
