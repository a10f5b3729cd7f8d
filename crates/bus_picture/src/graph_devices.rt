//! The devices of a graph.
use crate::drawing::state_at;
use crate::escape::add_escaped;
use crate::graph_head::{color_of, word_of};
use crate::graph_words::write_words;
use crate::graphing::Scene;
use crate::names::{driver_of, path_of, short_name};
use crate::reasons::Origins;
use crate::showing::flag_at;
use crate::states::State;
use bus_plan::{Device, Plan};
use std::alloc::{AllocError, Global};

// Its driver, and its state where it isn't bound.
fn write_state(text: &mut Vec<u8>, driver: &[u8], state: State) -> Result<(), AllocError> {
    if !driver.is_empty() {
        text.extend_from_slice(b" <I>")?;
        add_escaped(text, driver)?;
        text.extend_from_slice(b"</I>")?;
    }
    if state != State::Bound {
        text.extend_from_slice(b" <B>")?;
        text.extend_from_slice(word_of(state))?;
        text.extend_from_slice(b"</B>")?;
    }
    Ok(())
}

fn write_look(
    text: &mut Vec<u8>,
    scene: &Scene,
    state: State,
    device: Device,
) -> Result<(), AllocError> {
    text.extend_from_slice(b">, fillcolor=\"")?;
    text.extend_from_slice(color_of(state))?;
    if scene.of == Some(device) {
        return text.extend_from_slice(b"\", penwidth=3];\n");
    }
    if !scene.has_arrows_to(device) {
        return text.extend_from_slice(b"\", penwidth=2];\n");
    }
    text.extend_from_slice(b"\"];\n")
}

fn write_device<O: Origins>(
    alloc: Global,
    text: &mut Vec<u8>,
    plan: &Plan,
    states: &[State],
    origins: &O,
    scene: &Scene,
    device: Device,
) -> Result<(), AllocError> {
    let path = path_of(plan, device);
    let state = state_at(states, device);
    text.extend_from_slice(b"    \"")?;
    text.extend_from_slice(path)?;
    text.extend_from_slice(b"\" [tooltip=\"")?;
    text.extend_from_slice(path)?;
    text.extend_from_slice(b"\", label=<")?;
    add_escaped(text, short_name(path))?;
    write_state(text, driver_of(plan, device), state)?;
    write_words(alloc, text, plan, origins, scene, device)?;
    write_look(text, scene, state, device)
}

/// Writes the devices that are drawn.
pub(crate) fn write_devices<O: Origins>(
    alloc: Global,
    text: &mut Vec<u8>,
    plan: &Plan,
    states: &[State],
    origins: &O,
    scene: &Scene,
) -> Result<(), AllocError> {
    for place in 0..plan.len() {
        let device = Device::new(place);
        if flag_at(scene.drawn.as_slice(), device) {
            write_device(alloc, text, plan, states, origins, scene, device)?;
        }
    }
    Ok(())
}
