//! How the devices of a core stand.

ghost use Rattle.std.specs.Prelude.{◌≡◌, ◌<◌, length};
ghost use Rattle.std.specs.Option.{option_copied};
ghost use Rattle.bus_plan.specs.Plan.{driver_of};
ghost use Rattle.bus_core.specs.CoreState.{was_begun};
ghost use Rattle.bus_core.specs.RefinementPhase.{idle_status_of};
ghost use Rattle.bus_core.specs.Report.{status_of};

use crate::phase::{Phase, is_matched, phase_of};
use crate::state::Core;
use bus_plan::Device;
use dt_tree::Name;

/// How a device stands.
#[derive(Clone, Copy, Debug, PartialEq, Eq)]
pub enum Status {
    Bound,
    Failed,
    /// In flight.
    Probing,
    /// A probe of it is due.
    Due,
    /// Begun before, and a supplier isn't bound.
    Waiting,
    /// It has no driver.
    Unmatched,
    /// It isn't available.
    Disabled,
}

impl Core {
    /// How a device stands.
    pub fn status(&self, device: Device) -> Status
        requires { device < length self.now.plan }
        ensures { result ≡ status_of self.now.plan self.now.state device }
    {
        match phase_of(&self.phases, device) {
            Phase::Bound(_) => Status::Bound,
            Phase::Failed => Status::Failed,
            Phase::InFlight(_, _) => Status::Probing,
            _ => self.idle_status(device),
        }
    }

    /// The driver that a device has so far.
    pub fn driver(&self, device: Device) -> Option<&Name>
        requires { device < length self.now.plan }
        ensures { option_copied result ≡ driver_of self.now.plan device }
    {
        self.plan.driver(device)
    }

    /// Whether a device was ever begun.
    pub fn begun(&self, device: Device) -> bool
        ensures { result ≡ was_begun self.now.state device }
    {
        phase_of(&self.phases, device).is_begun()
    }

    // How a device stands that is neither in flight nor settled.
    fn idle_status(&self, device: Device) -> Status
        requires { device < length self.now.plan }
        ensures { result ≡ idle_status_of self.now.plan self.now.state device }
    {
        if !self.plan.available(device) {
            return Status::Disabled;
        }
        if !is_matched(&self.plan, device) {
            return Status::Unmatched;
        }
        if self.is_due(device) {
            return Status::Due;
        }
        Status::Waiting
    }
}
