ghost use Rattle.std.specs.Prelude.{◌≡◌, ◌<◌, length};
ghost use Rattle.bus_core.specs.Report.{missing_supplier};
ghost use Rattle.bus_manager.specs.Prober.{IsLawfulReport};
ghost use Rattle.bus_manager.specs.Seen.{sees};
ghost use Rattle.bus_manager.specs.TableProber.{table_report, ShowsTable};

use crate::prober::Prober;
use crate::seen::Seen;
use bus_core::Report;
use bus_plan::{Device, Plan};

/// Answers by the plan alone, and names the first supplier that isn't bound. Its note is the device.
#[derive(Clone, Copy, Debug, PartialEq, Eq)]
pub struct TableProber;

impl Prober for TableProber {
    type Note = Device;

    ghost attests = { λ prober plan device seen report note. ShowsTable plan device seen report note };

    fn probe(&self, plan: &Plan, device: Device, seen: &Seen) -> (Report, Device)
        requires { device < length plan.now }
        ensures lawful { IsLawfulReport plan.now (sees seen.now) device result.0 }
        ensures attests { ShowsTable plan.now device (sees seen.now) result.0 result.1 }
    {
        (table_report(plan, device, seen), device)
    }
}

// The first supplier that wasn't seen bound.
fn missing_supplier(plan: &Plan, device: Device, seen: &Seen) -> Option<Device>
    requires { device < length plan.now }
    ensures { result ≡ missing_supplier plan.now (sees seen.now) device }
{
    plan.suppliers(device)
        .iter()
        .copied()
        .find(|supplier| !seen.contains(*supplier))
}

fn table_report(plan: &Plan, device: Device, seen: &Seen) -> Report
    requires { device < length plan.now }
    ensures lawful { IsLawfulReport plan.now (sees seen.now) device result }
    ensures first { result ≡ table_report plan.now (sees seen.now) device }
{
    match missing_supplier(plan, device, seen) {
        Some(supplier) => Report::Missing(supplier),
        None => Report::Settled,
    }
}
