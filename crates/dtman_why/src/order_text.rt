//! What a device needs, as text.

ghost use Rattle.std.specs.Prelude.{◌<◌, length};

use crate::chain_text::add_path;
use crate::waits::{device_at, no_device};
use bus_picture::why::needs;
use bus_plan::{Device, PathIndex, Plan};
use dtman_engine::Fault;
use std::alloc::{AllocError, Global};

// A device's driver as a plan file has it: `-` where none matches, `!` where the device isn't available.
fn driver_word<'p>(plan: &'p Plan, device: Device) -> &'p [u8] {
    if device.index() >= plan.len() {
        return b"-".as_slice();
    }
    match plan.driver(device) {
        Some(name) => name.as_bytes(),
        None if plan.available(device) => b"-".as_slice(),
        None => b"!".as_slice(),
    }
}

fn has_driver(plan: &Plan, device: Device) -> bool {
    device.index() < plan.len() && plan.driver(device).is_some()
}

fn add_devices(text: &mut Vec<u8>, plan: &Plan, order: &[Device]) -> Result<(), AllocError> {
    for device in order {
        add_path(text, plan, *device)?;
        text.push(b' ')?;
        text.extend_from_slice(driver_word(plan, *device))?;
        text.push(b'\n')?;
    }
    Ok(())
}

// The drivers of the devices, each once, in their order.
fn add_drivers(
    alloc: Global,
    text: &mut Vec<u8>,
    plan: &Plan,
    order: &[Device],
) -> Result<(), AllocError> {
    let mut said = PathIndex::new(alloc, plan.hasher());
    text.extend_from_slice(b"drivers")?;
    for device in order {
        let word = driver_word(plan, *device);
        if has_driver(plan, *device) && !said.contains(word) {
            said.add(alloc, word)?;
            text.push(b' ')?;
            text.extend_from_slice(word)?;
        }
    }
    text.push(b'\n')?;
    Ok(())
}

fn order_text(alloc: Global, plan: &Plan, order: &[Device]) -> Result<Vec<u8>, AllocError> {
    let mut text = Vec::new(alloc);
    add_devices(&mut text, plan, order)?;
    add_drivers(alloc, &mut text, plan, order)?;
    Ok(text)
}

fn order_of(alloc: Global, plan: &Plan, device: Device) -> Result<Vec<u8>, AllocError>
    requires { device < length plan.now }
{
    let order = needs(alloc, plan, device)?;
    order_text(alloc, plan, order.as_slice())
}

/// The devices that have to be bound for the one at a path, in an order that works, each with its driver, and last their drivers.
pub fn needs_text(alloc: Global, plan: &Plan, path: &[u8]) -> Result<Vec<u8>, Fault> {
    match device_at(plan, path) {
        Some(device) => order_of(alloc, plan, device).map_err(|_| Fault::no_memory()),
        None => Err(no_device()),
    }
}
