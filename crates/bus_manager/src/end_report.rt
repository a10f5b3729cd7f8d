//! The end report of a plan, from the words that a quiet board ended with.

ghost use Rattle.std.specs.Prelude.{◌≡◌, ◌<◌, ◌++◌, length, IfOk, IfSome, OnOk};
ghost use Rattle.std.specs.List.{list_all};
ghost use Rattle.bus_plan.specs.Plan.{suppliers_of};
ghost use Rattle.bus_core.specs.RefinementReport.{IsNamedSupplier};
ghost use Rattle.bus_core.specs.Report.{end_line, end_lines, end_status, end_text, missing_supplier};
ghost use Rattle.bus_manager.specs.Private.BoardEnd.{bound_by_words};

use bus_board::Word;
use bus_core::{Status, push_line};
use bus_plan::{Device, Plan};
use std::alloc::{AllocError, Global};

/// Whether the device's word is BOUND.
pub fn is_bound(words: &[Word], device: Device) -> bool
    ensures { result ≡ bound_by_words words.now device }
{
    match words.get(device.index()) {
        Some(word) => matches!(word, Word::Bound),
        None => false,
    }
}

// Whether the words of all suppliers are BOUND.
fn are_bound(words: &[Word], suppliers: &[Device]) -> bool
    ensures { result ≡ list_all (bound_by_words words.now) suppliers.now }
{
    suppliers.iter().all(|supplier| is_bound(words, *supplier))
}

/// The device's status at the end.
pub fn end_status(plan: &Plan, words: &[Word], device: Device) -> Status
    requires { device < length plan.now }
    ensures { result ≡ end_status plan.now (bound_by_words words.now) device }
{
    if !plan.available(device) {
        return Status::Disabled;
    }
    if plan.driver(device).is_none() {
        return Status::Unmatched;
    }
    if is_bound(words, device) {
        return Status::Bound;
    }
    if are_bound(words, plan.suppliers(device)) {
        return Status::Failed;
    }
    Status::Waiting
}

// The first supplier whose word isn't BOUND.
fn missing_supplier(plan: &Plan, words: &[Word], device: Device) -> Option<Device>
    requires { device < length plan.now }
    ensures { result ≡ missing_supplier plan.now (bound_by_words words.now) device }
{
    plan.suppliers(device)
        .iter()
        .copied()
        .find(|supplier| !is_bound(words, *supplier))
}

// The supplier that the line of a device with this status names: only that of a waiting device is looked for.
fn named_supplier(plan: &Plan, words: &[Word], device: Device, status: Status) -> Option<Device>
    requires { device < length plan.now }
    ensures line { IsNamedSupplier plan.now (bound_by_words words.now) device status result }
    ensures within { IfSome result (λ supplier. supplier < length plan.now) }
{
    plan.check();
    match status {
        Status::Waiting => missing_supplier(plan, words, device),
        _ => None,
    }
}

fn push_device(
    text: &mut Vec<u8>,
    plan: &Plan,
    words: &[Word],
    device: Device,
) -> Result<(), AllocError>
    requires { device < length plan.now }
    ensures { OnOk result (text.new.items ≡ text.old.items ++ end_line plan.now (bound_by_words words.now) device) }
{
    let status = end_status(plan, words, device);
    let missing = named_supplier(plan, words, device, status);
    push_line(text, plan, device, status, missing)
}

fn device_lines(alloc: Global, plan: &Plan, words: &[Word]) -> Result<Vec<u8>, AllocError>
    ensures { IfOk result (λ text. text.items ≡ end_lines plan.now (bound_by_words words.now)) }
{
    let mut text = Vec::new(alloc);
    for index in 0..plan.len() {
        push_device(&mut text, plan, words, Device::new(index))?;
    }
    Ok(text)
}

/// The end report.
pub fn end_report(alloc: Global, plan: &Plan, words: &[Word]) -> Result<Vec<u8>, AllocError>
    ensures { IfOk result (λ text. text.items ≡ end_text plan.now (bound_by_words words.now)) }
{
    let mut text = device_lines(alloc, plan, words)?;
    text.extend_from_slice(b"quiet\n")?;
    Ok(text)
}
