ghost use Rattle.std.specs.Prelude.{◌≡◌, ◌⊎◌, Ok, Err, MatchResult};
ghost use Rattle.bus_plan.specs.declared.error.PlanError.TheVariants.{NoMemory};
ghost use Rattle.bus_plan.specs.PlanFile.{Answers};
ghost use Rattle.bus_drivers.specs.Nodes.{target_of, tree_devices};
ghost use Rattle.bus_drivers.specs.TreePlan.{plan_of, plan_of_tree, planned_from};
ghost use Rattle.bus_drivers.specs.Private.Planning.{planned_at};

use crate::driver_set::DriverSet;
use crate::matching::Matcher;
use crate::phandle_index::PhandleIndex;
use crate::plan_fault::PlanFault;
use crate::suppliers::suppliers_of;
use crate::tree_device::TreeDevice;
use bus_plan::{Device, Plan, Planned};
use dt_tree::Tree;
use std::alloc::Global;
use std::hash::RandomState;

fn planned_device(
    alloc: Global,
    hasher: RandomState,
    phandle_index: &PhandleIndex<'_>,
    matcher: &Matcher<'_>,
    place: Device,
    device: &TreeDevice<'_>,
) -> Result<Planned, PlanFault>
    ensures { Answers (planned_at (target_of phandle_index.now) matcher.now place device.now) result }
{
    let properties = device.node().properties();
    let suppliers = suppliers_of(alloc, hasher, phandle_index, place, properties)?;
    Ok(matcher.planned(alloc, device, suppliers)?)
}

fn planned_devices(
    alloc: Global,
    hasher: RandomState,
    phandle_index: &PhandleIndex<'_>,
    matcher: &Matcher<'_>,
) -> Result<Vec<Planned>, PlanFault>
    ensures { let planned = planned_from (target_of phandle_index.now) matcher.now 0 (tree_devices phandle_index.now) in
        MatchResult result (λ devices. planned ≡ Ok devices.items) (λ e. (e ≡ NoMemory) ⊎ (planned ≡ Err e)) }
{
    let mut planned = Vec::with_capacity(alloc, phandle_index.devices().len())?;
    for (place, device) in phandle_index.devices().iter().enumerate() {
        let device = planned_device(
            alloc,
            hasher,
            phandle_index,
            matcher,
            Device::new(place),
            device,
        )?;
        planned.push(device)?;
    }
    Ok(planned)
}

// `fail` lines are refused before properties.
fn matched_devices(
    alloc: Global,
    hasher: RandomState,
    phandle_index: &PhandleIndex<'_>,
    matcher: &Matcher<'_>,
) -> Result<Vec<Planned>, PlanFault>
    ensures { let planned = plan_of_tree phandle_index.now matcher.now in
        MatchResult result (λ devices. planned ≡ Ok devices.items) (λ e. (e ≡ NoMemory) ⊎ (planned ≡ Err e)) }
{
    matcher.check_fails(alloc, hasher, phandle_index.devices())?;
    planned_devices(alloc, hasher, phandle_index, matcher)
}

fn plan_devices(
    alloc: Global,
    hasher: RandomState,
    phandle_index: &PhandleIndex<'_>,
    drivers: &DriverSet,
) -> Result<Vec<Planned>, PlanFault>
    ensures { let planned = plan_of_tree phandle_index.now drivers.now in
        MatchResult result (λ devices. planned ≡ Ok devices.items) (λ e. (e ≡ NoMemory) ⊎ (planned ≡ Err e)) }
{
    let matcher = Matcher::of(alloc, hasher, drivers)?;
    matched_devices(alloc, hasher, phandle_index, &matcher)
}

// The devices of the plan of a tree.
fn devices_of(
    alloc: Global,
    hasher: RandomState,
    tree: &Tree,
    drivers: &DriverSet,
) -> Result<Vec<Planned>, PlanFault>
    ensures { let plan = plan_of tree.now.root drivers.now in
        MatchResult result (λ devices. plan ≡ Ok devices.items) (λ e. (e ≡ NoMemory) ⊎ (plan ≡ Err e)) }
{
    let phandle_index = PhandleIndex::of(alloc, hasher, tree)?;
    plan_devices(alloc, hasher, &phandle_index, drivers)
}

/// The plan of a tree: its devices with their drivers and suppliers, or the first refusal.
pub fn plan(
    alloc: Global,
    hasher: RandomState,
    tree: &Tree,
    drivers: &DriverSet,
) -> Result<Plan, PlanFault>
    ensures { Answers (plan_of tree.now.root drivers.now) result }
{
    tree.check();
    drivers.check();
    let devices = devices_of(alloc, hasher, tree, drivers)?;
    Ok(Plan::of(alloc, hasher, devices)?)
}
