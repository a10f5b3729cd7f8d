ghost use Rattle.std.specs.Prelude.{◌≡◌, ◌<◌, ℕ, Bool, List, length};
ghost use Rattle.bus_plan.specs.Plan.{PlannedDevice};
ghost use Rattle.bus_core.specs.declared.event.Report.{Report};
ghost use Rattle.bus_core.specs.declared.event.Report.TheVariants.{Settled};
ghost use Rattle.bus_manager.specs.Prober.{IsLawfulReport};
ghost use Rattle.bus_manager.specs.Private.Notes.{AreForced, IsShown};
ghost use Rattle.bus_manager.specs.Seen.{sees};

use crate::seen::Seen;
use bus_core::Report;
use bus_plan::{Device, Plan};

/// What runs the drivers' probes, from many threads at once, each of one device.
pub trait Prober: Sync {
    /// What a probe leaves behind. Only a probe makes one, so a note shows that its device was probed.
    type Note: Send + Drop;

    // that the note was left by a probe of this device of this plan, which was told that these devices are bound and
    // reported this; each prober says what that means
    ghost attests: { Self → List PlannedDevice → ℕ → (ℕ → Bool) → Report → Self.Note → Type 0 };

    /// Probes a device that needs the devices of the set: it settles where all of its suppliers are among them, else it
    /// names one that isn't. It takes no memory.
    fn probe(&self, plan: &Plan, device: Device, seen: &Seen) -> (Report, Self::Note)
        requires { device < length plan.now }
        ensures lawful { IsLawfulReport plan.now (sees seen.now) device result.0 }
        ensures attests { attests self.now plan.now device (sees seen.now) result.0 result.1 };
}

/// Probes a device by what its flight saw bound. Where the probe settles its note shows the device.
pub fn probe<P: Prober>(plan: &Plan, prober: &P, device: Device, seen: &Seen) -> (Report, P::Note)
    requires within { device < length plan.now }
    requires forced { AreForced plan.now (sees seen.now) }
    ensures lawful { IsLawfulReport plan.now (sees seen.now) device result.0 }
    ensures shown { result.0 ≡ Settled → IsShown (P.attests prober.now plan.now device) plan.now device result.1 }
{
    prober.probe(plan, device, seen)
}
