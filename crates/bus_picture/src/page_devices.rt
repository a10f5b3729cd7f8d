//! The devices of a page, as a tree.
use crate::drawing::{Drawing, state_at};
use crate::escape::add_escaped;
use crate::graph_head::word_of;
use crate::names::{driver_of, path_of};
use crate::page_links::{End, write_links};
use crate::reasons::Origins;
use crate::showing::flag_at;
use crate::states::State;
use crate::tree::{depth_of, name_below};
use bus_plan::{Device, Plan};
use std::alloc::{AllocError, Global};

/// The class of what is in a state.
pub(crate) fn class_of(state: State) -> &'static [u8] {
    match state {
        State::Bound => b"bound",
        State::Waiting => b"waiting",
        State::Failed => b"failed",
        State::Unmatched => b"unmatched",
        State::Disabled => b"disabled",
        State::Early => b"early",
    }
}

fn write_strings(text: &mut Vec<u8>, plan: &Plan, device: Device) -> Result<(), AllocError> {
    if device.index() >= plan.len() {
        return Ok(());
    }
    for string in plan.compatibles(device) {
        text.push(b' ')?;
        add_escaped(text, string.as_slice())?;
    }
    Ok(())
}

// What stands in a device's line: its name, driver and state.
fn write_summary(
    alloc: Global,
    text: &mut Vec<u8>,
    name: &[u8],
    driver: &[u8],
    state: State,
    device: Device,
) -> Result<(), AllocError> {
    let place = device.index();
    let begin = format!(in alloc; "\n<li id=d{place} class=")?;
    text.extend_from_slice(begin.as_bytes())?;
    text.extend_from_slice(class_of(state))?;
    text.extend_from_slice(b"><details><summary>")?;
    add_escaped(text, name)?;
    text.extend_from_slice(b" <i>")?;
    add_escaped(text, driver)?;
    text.extend_from_slice(b"</i>")?;
    if state != State::Bound {
        text.extend_from_slice(b" <small>")?;
        text.extend_from_slice(word_of(state))?;
        text.extend_from_slice(b"</small>")?;
    }
    text.extend_from_slice(b"</summary><p>")
}

fn write_device<O: Origins>(
    alloc: Global,
    text: &mut Vec<u8>,
    plan: &Plan,
    states: &[State],
    origins: &O,
    drawing: &Drawing,
    name: &[u8],
    device: Device,
) -> Result<(), AllocError> {
    let state = state_at(states, device);
    write_summary(alloc, text, name, driver_of(plan, device), state, device)?;
    add_escaped(text, path_of(plan, device))?;
    write_strings(text, plan, device)?;
    write_links(
        alloc,
        text,
        plan,
        states,
        origins,
        drawing,
        device,
        End::Consumer,
    )?;
    write_links(
        alloc,
        text,
        plan,
        states,
        origins,
        drawing,
        device,
        End::Supplier,
    )?;
    text.extend_from_slice(b"</details><ul>")
}

/// Ends the lists of the devices from this depth on.
pub(crate) fn end_from(
    text: &mut Vec<u8>,
    open: &mut Vec<Device>,
    depth: usize,
) -> Result<(), AllocError> {
    for _ in depth..open.len() {
        text.extend_from_slice(b"</ul></li>")?;
    }
    open.truncate(depth);
    Ok(())
}

// A device below those that are open.
fn write_below<O: Origins>(
    alloc: Global,
    text: &mut Vec<u8>,
    plan: &Plan,
    states: &[State],
    origins: &O,
    drawing: &Drawing,
    open: &mut Vec<Device>,
    device: Device,
) -> Result<(), AllocError> {
    let depth = depth_of(plan, open.as_slice(), device);
    end_from(text, open, depth)?;
    let name = name_below(plan, open.as_slice().get(depth.wrapping_sub(1)), device);
    write_device(alloc, text, plan, states, origins, drawing, name, device)?;
    open.push(device)?;
    Ok(())
}

/// Writes the devices that are shown, in the order of the plan.
pub(crate) fn write_devices<O: Origins>(
    alloc: Global,
    text: &mut Vec<u8>,
    plan: &Plan,
    states: &[State],
    origins: &O,
    drawing: &Drawing,
    shown: &[bool],
) -> Result<(), AllocError> {
    let mut open = Vec::new(alloc);
    for place in 0..plan.len() {
        let device = Device::new(place);
        if flag_at(shown, device) {
            write_below(
                alloc, text, plan, states, origins, drawing, &mut open, device,
            )?;
        }
    }
    end_from(text, &mut open, 0)
}
