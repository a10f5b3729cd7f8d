//! The chains of all devices that wait.

ghost use Rattle.std.specs.Prelude.{◌≡◌, ◌<◌, ◌++◌, ◌∷◌, [], All, length, map, if◌then◌else◌, IfOk, OnOk, MatchOption};
ghost use Rattle.bus_core.specs.declared.status.Status.TheVariants.{Waiting};
ghost use Rattle.bus_core.specs.Report.{end_status};
ghost use Rattle.bus_picture.specs.Why.Chain.{bound_by, first_of, waits, IsEnd, AreChains, IsChainOf};
ghost use Rattle.bus_picture.specs.Why.Private.Places.{AreClear};

use crate::why::chain::{Chain, next_chain};
use crate::why::hold::{Cause, Hold, hold_of};
use bus_plan::{Device, Plan};
use std::alloc::{AllocError, Global};

// Adds the chain of a device where it waits.
fn add_chain(
    alloc: Global,
    plan: &Plan,
    bound: &[bool],
    places: &mut [Option<usize>],
    chains: &mut Vec<Chain>,
    device: Device,
) -> Result<(), AllocError>
    requires known { device < length plan.now }
    requires long { length places.old ≡ length plan.now }
    requires clear { AreClear places.old }
    requires each { All (IsChainOf plan.now (bound_by bound.now)) chains.old.items }
    ensures listed { OnOk result (map first_of chains.new.items
        ≡ map first_of chains.old.items ++ (if waits plan.now (bound_by bound.now) device then device ∷ [] else [])) }
    ensures each { OnOk result (All (IsChainOf plan.now (bound_by bound.now)) chains.new.items) }
    ensures clear { OnOk result (AreClear places.new) }
{
    match hold_of(plan, bound, device) {
        Hold::Ends(_) => Ok(()),
        Hold::Waits(_) => {
            let chain = next_chain(alloc, plan, bound, places, device)?;
            chains.push(chain)?;
            Ok(())
        }
    }
}

// Adds the chain of each device that waits.
fn add_chains(
    alloc: Global,
    plan: &Plan,
    bound: &[bool],
    places: &mut [Option<usize>],
    chains: &mut Vec<Chain>,
) -> Result<(), AllocError>
    requires long { length places.old ≡ length plan.now }
    requires clear { AreClear places.old }
    requires none { chains.old.items ≡ [] }
    ensures { OnOk result (AreChains plan.now (bound_by bound.now) chains.new.items) }
{
    for place in 0..plan.len() {
        add_chain(alloc, plan, bound, places, chains, Device::new(place))?;
    }
    Ok(())
}

/// The chain of each device that waits, in the plan's order: the devices that are neither bound nor failed, disabled or without a
/// driver. `bound` says which devices are bound, in the plan's order. The time is that of the plan and of the chains.
pub fn waiting_chains(alloc: Global, plan: &Plan, bound: &[bool]) -> Result<Vec<Chain>, AllocError>
    ensures { IfOk result (λ chains. AreChains plan.now (bound_by bound.now) chains.items) }
{
    let mut places = vec![in alloc; None; plan.len()]?;
    let mut chains = Vec::new(alloc);
    add_chains(alloc, plan, bound, &mut places, &mut chains)?;
    Ok(chains)
}

/// What a device is at the end; nothing where it waits.
pub fn end_cause(plan: &Plan, bound: &[bool], device: Device) -> Option<Cause>
    requires { device < length plan.now }
    ensures { MatchOption result (end_status plan.now (bound_by bound.now) device ≡ Waiting)
        (IsEnd plan.now (bound_by bound.now) device) }
{
    match hold_of(plan, bound, device) {
        Hold::Waits(_) => None,
        Hold::Ends(cause) => Some(cause),
    }
}
