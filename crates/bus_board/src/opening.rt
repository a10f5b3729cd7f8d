//! The words that a board begins with.

ghost use Rattle.std.specs.Prelude.{◌≡◌, ◌<◌, length, IfOk};
ghost use Rattle.bus_plan.specs.Plan.{is_matched};
ghost use Rattle.bus_board.specs.Opening.{AreFirst, idle_word, opening_word};

use crate::words::{FRESH, Word};
use bus_core::{Core, Status};
use bus_plan::{Device, Plan};
use std::alloc::{AllocError, Global};

/// The words at the start: one for each device, and one to spare, as a load needs one where there is no device.
pub fn first_words(alloc: Global, core: &Core) -> Result<Vec<u64>, AllocError>
    ensures { IfOk result (λ words. AreFirst core.now words.items) }
{
    let mut words = Vec::new(alloc);
    for index in 0..core.plan().len() {
        words.push(opening_word(core, Device::new(index)).number())?;
    }
    words.push(FRESH)?;
    Ok(words)
}

// The word by which a board goes on with a device of a core.
fn opening_word(core: &Core, device: Device) -> Word
    requires { device < length core.now.plan }
    ensures { result ≡ opening_word core.now device }
{
    match core.status(device) {
        Status::Bound => Word::Bound,
        Status::Failed => Word::Failed,
        _ => idle_word(core, device),
    }
}

// The word of a device that hasn't settled.
fn idle_word(core: &Core, device: Device) -> Word
    requires { device < length core.now.plan }
    ensures { result ≡ idle_word core.now device }
{
    if !is_matched(core.plan(), device) {
        return Word::Unmatched;
    }
    if !core.begun(device) {
        return Word::Fresh;
    }
    if core.is_ready(device) {
        return Word::Woken;
    }
    Word::Waiting
}

// Whether the device is available and has a driver.
fn is_matched(plan: &Plan, device: Device) -> bool
    requires { device < length plan.now }
    ensures { result ≡ is_matched plan.now device }
{
    if !plan.available(device) {
        return false;
    }
    plan.driver(device).is_some()
}
