//! What each device is drawn as.
ghost use Rattle.std.specs.Prelude.{◌≡◌, ◌<◌, false, IfOk, length};
ghost use Rattle.std.specs.List.{list_all};
ghost use Rattle.bus_picture.specs.Why.Chain.{bound_by};
ghost use Rattle.bus_picture.specs.States.{state_of, linked_states, planned_states};

use bus_links::Linked;
use bus_plan::{Device, Plan};
use std::alloc::{AllocError, Global};

/// What a device is at the end of a run.
#[derive(Clone, Copy, Debug, PartialEq, Eq)]
pub enum State {
    /// A driver has bound it.
    Bound,
    /// A supplier isn't bound.
    Waiting,
    /// Its driver failed.
    Failed,
    /// No driver matches it.
    Unmatched,
    /// It isn't available.
    Disabled,
    /// It is set up before the bus begins.
    Early,
}

fn is_bound(bound: &[bool], device: Device) -> bool
    ensures { result ≡ bound_by bound.now device }
{
    match bound.get(device.index()) {
        Some(is_bound) => *is_bound,
        None => false,
    }
}

fn are_bound(bound: &[bool], devices: &[Device]) -> bool
    ensures { result ≡ list_all (bound_by bound.now) devices.now }
{
    for device in devices {
        if !is_bound(bound, *device) {
            return false;
        }
    }
    true
}

fn state_of(plan: &Plan, bound: &[bool], is_early: bool, device: Device) -> State
    requires { device < length plan.now }
    ensures { result ≡ state_of plan.now bound.now is_early device }
{
    if !plan.available(device) {
        return State::Disabled;
    }
    if is_early {
        return State::Early;
    }
    if plan.driver(device).is_none() {
        return State::Unmatched;
    }
    if is_bound(bound, device) {
        return State::Bound;
    }
    if are_bound(bound, plan.suppliers(device)) {
        return State::Failed;
    }
    State::Waiting
}

/// The states of the devices of a plan by links, of which these are bound.
pub fn linked_states(
    alloc: Global,
    linked: &Linked<'_>,
    bound: &[bool],
) -> Result<Vec<State>, AllocError>
    ensures { IfOk result (λ states. states.items ≡ linked_states linked.now bound.now) }
{
    let plan = linked.plan();
    let mut states = Vec::with_capacity(alloc, plan.len())?;
    for place in 0..plan.len() {
        let device = Device::new(place);
        states.push(state_of(plan, bound, linked.is_early(device), device))?;
    }
    Ok(states)
}

/// The states of the devices of a plan, of which these are bound.
pub fn planned_states(alloc: Global, plan: &Plan, bound: &[bool]) -> Result<Vec<State>, AllocError>
    ensures { IfOk result (λ states. states.items ≡ planned_states plan.now bound.now) }
{
    let mut states = Vec::with_capacity(alloc, plan.len())?;
    for place in 0..plan.len() {
        states.push(state_of(plan, bound, false, Device::new(place)))?;
    }
    Ok(states)
}
