//! Faults of a plan file's lines that show once all its devices are known.
ghost use Rattle.std.specs.Prelude.{◌≡◌};
ghost use Rattle.bus_plan.specs.PlanFile.{line_paths, misfit_of};
ghost use Rattle.bus_plan.specs.Private.Reading.{line_or_zero, earlier, first_unknown, first_misfit, late_fault};

use crate::device_line::DeviceLine;
use crate::error::PlanError;
use crate::paths::PathIndex;
use crate::strings_line::StringsLine;

fn line_or_zero(fault: &PlanError) -> usize
    ensures { result ≡ line_or_zero fault.now }
{
    fault.line().unwrap_or(0)
}

fn earlier(first: Option<PlanError>, second: Option<PlanError>) -> Option<PlanError>
    ensures { result ≡ earlier first second }
{
    let Some(a) = first else {
        return second;
    };
    let Some(b) = second else {
        return Some(a);
    };
    if line_or_zero(&b) < line_or_zero(&a) {
        return Some(b);
    }
    Some(a)
}

fn first_unknown(devices: &[DeviceLine<'_>], index: &PathIndex) -> Option<PlanError>
    ensures { result ≡ first_unknown index.now devices.now }
{
    for device in devices {
        if let Some(fault) = device.unknown(index) {
            return Some(fault);
        }
    }
    None
}

// Strings belong to a device of the plan, and to one without a driver.
fn misfit(
    list: &StringsLine<'_>,
    devices: &[DeviceLine<'_>],
    index: &PathIndex,
) -> Option<PlanError>
    requires { index.now ≡ line_paths devices.now }
    ensures { result ≡ misfit_of devices.now list.now }
{
    let Some(place) = index.position(list.path()) else {
        return Some(PlanError::UnknownPath(list.number()));
    };
    if devices[place].is_unmatched() {
        return None;
    }
    Some(PlanError::BadLine(list.number()))
}

fn first_misfit(
    lists: &[StringsLine<'_>],
    devices: &[DeviceLine<'_>],
    index: &PathIndex,
) -> Option<PlanError>
    requires { index.now ≡ line_paths devices.now }
    ensures { result ≡ first_misfit devices.now lists.now }
{
    for list in lists {
        if let Some(fault) = misfit(list, devices, index) {
            return Some(fault);
        }
    }
    None
}

/// The first line whose supplier is no device, or whose strings no device may have.
pub fn late_fault(
    devices: &[DeviceLine<'_>],
    index: &PathIndex,
    lists: &[StringsLine<'_>],
) -> Option<PlanError>
    requires { index.now ≡ line_paths devices.now }
    ensures { result ≡ late_fault (record { devices = devices.now; lists = lists.now }) }
{
    earlier(
        first_unknown(devices, index),
        first_misfit(lists, devices, index),
    )
}
