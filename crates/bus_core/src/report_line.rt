//! The text of a device's line.

ghost use Rattle.std.specs.Prelude.{◌≡◌, ◌<◌, ◌++◌, length, IfSome, OnOk};
ghost use Rattle.bus_core.specs.Report.{driver_text, path_text, status_text, line_of};

use crate::status::Status;
use bus_plan::{Device, Plan};
use std::alloc::AllocError;

fn push_driver(text: &mut Vec<u8>, plan: &Plan, device: Device) -> Result<(), AllocError>
    requires { device < length plan.now }
    ensures { OnOk result (text.new.items ≡ text.old.items ++ driver_text plan.now device) }
{
    match plan.driver(device) {
        Some(name) => text.extend_from_slice(name.as_bytes()),
        None => Ok(()),
    }
}

fn push_path(text: &mut Vec<u8>, plan: &Plan, device: Option<Device>) -> Result<(), AllocError>
    requires { IfSome device (λ d. d < length plan.now) }
    ensures { OnOk result (text.new.items ≡ text.old.items ++ path_text plan.now device) }
{
    match device {
        Some(device) => text.extend_from_slice(plan.path(device).as_bytes()),
        None => Ok(()),
    }
}

fn push_status(
    text: &mut Vec<u8>,
    plan: &Plan,
    device: Device,
    status: Status,
    missing: Option<Device>,
) -> Result<(), AllocError>
    requires known { device < length plan.now }
    requires missing { IfSome missing (λ supplier. supplier < length plan.now) }
    ensures { OnOk result (text.new.items ≡ text.old.items ++ status_text plan.now missing device status) }
{
    match status {
        Status::Bound => {
            text.extend_from_slice(b" bound ")?;
            push_driver(text, plan, device)
        }
        Status::Failed => {
            text.extend_from_slice(b" failed ")?;
            push_driver(text, plan, device)
        }
        Status::Probing => text.extend_from_slice(b" probing"),
        Status::Due => text.extend_from_slice(b" due"),
        Status::Waiting => {
            text.extend_from_slice(b" waiting ")?;
            push_path(text, plan, missing)
        }
        Status::Unmatched => text.extend_from_slice(b" unmatched"),
        Status::Disabled => text.extend_from_slice(b" disabled"),
    }
}

/// Puts a device's line behind a report: its path, its status and what goes with that, which is the driver of a bound
/// or failed device, and the supplier that a waiting one lacks.
pub fn push_line(
    text: &mut Vec<u8>,
    plan: &Plan,
    device: Device,
    status: Status,
    missing: Option<Device>,
) -> Result<(), AllocError>
    requires known { device < length plan.now }
    requires missing { IfSome missing (λ supplier. supplier < length plan.now) }
    ensures { OnOk result (text.new.items ≡ text.old.items ++ line_of plan.now missing status device) }
{
    text.extend_from_slice(plan.path(device).as_bytes())?;
    push_status(text, plan, device, status, missing)?;
    text.push(b'\n')?;
    Ok(())
}
