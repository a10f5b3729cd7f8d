//! A chain as a line.

use crate::reasons::{BuiltIn, Reasons};
use bus_picture::why::{Cause, Chain};
use bus_plan::{Device, Plan};
use std::alloc::{AllocError, Global};

/// Puts a device's path behind a text.
pub fn add_path(text: &mut Vec<u8>, plan: &Plan, device: Device) -> Result<(), AllocError> {
    if device.index() < plan.len() {
        return text.extend_from_slice(plan.path(device).as_bytes());
    }
    Ok(())
}

// The strings by which a driver might match a device.
fn add_strings(text: &mut Vec<u8>, plan: &Plan, device: Device) -> Result<(), AllocError> {
    if device.index() >= plan.len() {
        return Ok(());
    }
    let mut between = b" \"".as_slice();
    for string in plan.compatibles(device) {
        text.extend_from_slice(between)?;
        text.extend_from_slice(string.as_slice())?;
        text.push(b'"')?;
        between = b", \"".as_slice();
    }
    Ok(())
}

/// Puts the name of a device's driver behind a text.
pub fn add_driver(text: &mut Vec<u8>, plan: &Plan, device: Device) -> Result<(), AllocError> {
    if device.index() >= plan.len() {
        return Ok(());
    }
    match plan.driver(device) {
        Some(name) => text.extend_from_slice(name.as_bytes()),
        None => Ok(()),
    }
}

fn add_left_out(text: &mut Vec<u8>, built_in: BuiltIn) -> Result<(), AllocError> {
    match built_in {
        BuiltIn::LookedAt => Ok(()),
        BuiltIn::LeftOut => text.extend_from_slice(b" (built-in drivers weren't looked at)"),
    }
}

/// Puts why a device isn't bound behind its path, or that it is.
pub fn add_cause(
    text: &mut Vec<u8>,
    plan: &Plan,
    built_in: BuiltIn,
    device: Device,
    cause: Cause,
) -> Result<(), AllocError> {
    match cause {
        Cause::Bound => {
            text.extend_from_slice(b": bound by ")?;
            add_driver(text, plan, device)
        }
        Cause::Failed => {
            text.extend_from_slice(b": its driver ")?;
            add_driver(text, plan, device)?;
            text.extend_from_slice(b" failed")
        }
        Cause::Unmatched => {
            text.extend_from_slice(b": no driver matches")?;
            add_strings(text, plan, device)?;
            add_left_out(text, built_in)
        }
        Cause::Disabled => text.extend_from_slice(b": disabled"),
        Cause::Cycle(_) => text.extend_from_slice(b": a cycle"),
    }
}

/// How many devices of a chain are shown before those that aren't: all but the last one behind them.
const IN_FRONT: usize = 31;

// Says how many devices of a chain aren't shown.
fn add_hidden(alloc: Global, text: &mut Vec<u8>, count: usize) -> Result<(), AllocError> {
    let hidden = format!(in alloc; " waits for ({count} more)")?;
    text.extend_from_slice(hidden.as_bytes())
}

/// Puts a chain behind a text: `PATH waits for PATH (PROPERTY) waits for PATH (PROPERTY): CAUSE`. Of one of more than 32 devices the first
/// 31 are shown, and the last.
pub fn add_waits<S: Reasons>(
    alloc: Global,
    text: &mut Vec<u8>,
    plan: &Plan,
    reasons: &S,
    built_in: BuiltIn,
    chain: &Chain,
) -> Result<(), AllocError> {
    let mut before: Option<Device> = None;
    let last = chain.devices.len().saturating_sub(1);
    for (place, device) in chain.devices.iter().enumerate() {
        if IN_FRONT <= place && place < last {
            if place == IN_FRONT {
                add_hidden(alloc, text, last - IN_FRONT)?;
            }
            before = Some(*device);
            continue;
        }
        if before.is_some() {
            text.extend_from_slice(b" waits for ")?;
        }
        add_path(text, plan, *device)?;
        if let Some(consumer) = before {
            reasons.add(alloc, text, consumer, *device)?;
        }
        before = Some(*device);
    }
    if let Some(last) = before {
        add_cause(text, plan, built_in, last, chain.cause)?;
    }
    Ok(())
}

/// Puts the line of a chain behind a text.
pub fn add_chain<S: Reasons>(
    alloc: Global,
    text: &mut Vec<u8>,
    plan: &Plan,
    reasons: &S,
    built_in: BuiltIn,
    chain: &Chain,
) -> Result<(), AllocError> {
    add_waits(alloc, text, plan, reasons, built_in, chain)?;
    text.push(b'\n')?;
    Ok(())
}
