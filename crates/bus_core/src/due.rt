//! Which devices are bound, ready and due, each answered without a walk.

ghost use Rattle.std.specs.Prelude.{◌≡◌, ◌<◌, ℕ, true, false, length, IsTrue, IfNone, IfSome};
ghost use Rattle.bus_core.specs.Due.{is_due, is_quiet};
ghost use Rattle.bus_core.specs.History.{bound_in};
ghost use Rattle.bus_core.specs.Least.{IsLeast};
ghost use Rattle.bus_core.specs.Ready.{is_ready};

use crate::phase::{is_bound, is_matched};
use crate::state::Core;
use bus_plan::Device;

impl Core {
    /// Whether a device is bound.
    pub fn is_bound(&self, device: Device) -> bool
        ensures { result ≡ bound_in self.now.state.history device }
    {
        is_bound(&self.phases, device)
    }

    /// Whether a device is matched and all its suppliers are bound.
    pub fn is_ready(&self, device: Device) -> bool
        requires { device < length self.now.plan }
        ensures { result ≡ is_ready self.now.plan (bound_in self.now.state.history) device }
    {
        if self.missing[device.index()] > 0 {
            return false;
        }
        is_matched(&self.plan, device)
    }

    // Whether a probe of the device is due.
    pub(crate) fn is_due(&self, device: Device) -> bool
        ensures { result ≡ is_due self.now.plan self.now.state device }
    {
        self.due.contains(device)
    }

    /// A device whose probe is due, if there is one.
    pub fn next(&self) -> Option<Device>
        ensures none { IfNone result ((d : ℕ) → is_due self.now.plan self.now.state d ≡ false) }
        ensures within { IfSome result (λ d. d < length self.now.plan) }
        ensures due { IfSome result (λ d. is_due self.now.plan self.now.state d ≡ true) }
    {
        self.due.any()
    }

    /// Whether no probe is in flight and none is due. The bound devices are then the least set that matching and
    /// suppliers force.
    pub fn is_quiet(&self) -> bool
        ensures quiet { result ≡ is_quiet self.now.plan self.now.state }
        ensures least { IsTrue result → IsLeast self.now.plan (bound_in self.now.state.history) }
    {
        match self.next() {
            Some(_) => false,
            None => self.flights == 0,
        }
    }
}
