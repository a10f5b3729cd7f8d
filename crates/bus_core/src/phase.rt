//! What the core keeps of one device.

ghost use Rattle.std.specs.Prelude.{◌≡◌, ◌<◌, length, is_some};
ghost use Rattle.bus_plan.specs.Plan.{is_matched};
ghost use Rattle.bus_core.specs.RefinementPhase.{phase_at, begun_in, bound_before, bound_by, idle_in, flight_in};

use bus_plan::{Device, Plan};

/// Where a device stands.
#[derive(Clone, Copy)]
pub enum Phase {
    /// Never begun.
    Fresh,
    /// Begun before, neither in flight nor settled.
    Begun,
    /// In flight by this attempt, which began when so many devices had settled.
    InFlight(u32, usize),
    /// Bound, at this place of the history.
    Bound(usize),
    Failed,
}

impl Phase {
    /// Whether the device is neither in flight nor settled.
    pub fn is_idle(self) -> bool
        ensures { result ≡ idle_in self }
    {
        matches!(self, Phase::Fresh | Phase::Begun)
    }

    /// Whether the device was ever begun.
    pub fn is_begun(self) -> bool
        ensures { result ≡ begun_in self }
    {
        !matches!(self, Phase::Fresh)
    }

    /// Whether the device is in flight.
    pub fn is_in_flight(self) -> bool
        ensures { result ≡ is_some (flight_in self) }
    {
        matches!(self, Phase::InFlight(_, _))
    }
}

/// The phase of a device.
pub fn phase_of(phases: &[Phase], device: Device) -> Phase
    ensures { result ≡ phase_at phases.now device }
{
    match phases.get(device.index()) {
        Some(phase) => *phase,
        None => Phase::Fresh,
    }
}

/// Whether a device is bound.
pub fn is_bound(phases: &[Phase], device: Device) -> bool
    ensures { result ≡ bound_by phases.now device }
{
    matches!(phase_of(phases, device), Phase::Bound(_))
}

/// Whether a device was bound among the first that settled, so many of them.
pub fn was_bound(phases: &[Phase], device: Device, settled: usize) -> bool
    ensures { result ≡ bound_before settled (phase_at phases.now device) }
{
    match phase_of(phases, device) {
        Phase::Bound(place) => place < settled,
        _ => false,
    }
}

/// Whether a device is available and has a driver.
pub fn is_matched(plan: &Plan, device: Device) -> bool
    requires { device < length plan.now }
    ensures { result ≡ is_matched plan.now device }
{
    if !plan.available(device) {
        return false;
    }
    plan.driver(device).is_some()
}
