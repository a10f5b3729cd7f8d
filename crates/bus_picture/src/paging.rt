//! The board as a page of HTML.
ghost use Rattle.std.specs.Prelude.{◌<◌, IfSome, length};

use crate::drawing::{Drawing, drawing_within};
use crate::graph_head::{count_of, word_of};
use crate::page_devices::{class_of, write_devices};
use crate::page_frame::{END, FILTER, FIND, HEAD};
use crate::reasons::Origins;
use crate::showing::shown;
use crate::sketch::Sketch;
use crate::states::State;
use bus_plan::{Device, Plan};
use std::alloc::{AllocError, Global};

/// All states.
const STATES: &[State] = &[
    State::Bound,
    State::Waiting,
    State::Failed,
    State::Unmatched,
    State::Disabled,
    State::Early,
];

// Has the devices of a state go where its box isn't checked.
fn write_rules(text: &mut Vec<u8>) -> Result<(), AllocError> {
    for state in STATES {
        text.extend_from_slice(b"body:has(#s-")?;
        text.extend_from_slice(class_of(*state))?;
        text.extend_from_slice(b":not(:checked)) li.")?;
        text.extend_from_slice(class_of(*state))?;
        text.extend_from_slice(b" > details { display: none; }\n")?;
    }
    Ok(())
}

fn write_box(
    alloc: Global,
    text: &mut Vec<u8>,
    states: &[State],
    state: State,
) -> Result<(), AllocError> {
    text.extend_from_slice(b"<label class=")?;
    text.extend_from_slice(class_of(state))?;
    text.extend_from_slice(b"><input type=\"checkbox\" checked id=\"s-")?;
    text.extend_from_slice(class_of(state))?;
    text.extend_from_slice(b"\">")?;
    text.extend_from_slice(word_of(state))?;
    let count = count_of(states, state);
    let end = format!(in alloc; " {count}</label>\n")?;
    text.extend_from_slice(end.as_bytes())
}

fn write_boxes(alloc: Global, text: &mut Vec<u8>, states: &[State]) -> Result<(), AllocError> {
    for state in STATES {
        write_box(alloc, text, states, *state)?;
    }
    Ok(())
}

fn write_page<O: Origins>(
    alloc: Global,
    text: &mut Vec<u8>,
    plan: &Plan,
    states: &[State],
    origins: &O,
    drawing: &Drawing,
    shown: &[bool],
) -> Result<(), AllocError> {
    text.extend_from_slice(HEAD.as_bytes())?;
    write_rules(text)?;
    text.extend_from_slice(FILTER.as_bytes())?;
    write_boxes(alloc, text, states)?;
    text.extend_from_slice(FIND.as_bytes())?;
    write_devices(alloc, text, plan, states, origins, drawing, shown)?;
    text.extend_from_slice(END.as_bytes())
}

/// A page of HTML that needs nothing else: the devices as a tree, each with its driver and state, what it needs and what needs it, with
/// the properties and entries. Devices are chosen by state and by text, the latter by a script. Of one device all that it takes and that
/// takes it is there.
pub fn page<O: Origins>(
    alloc: Global,
    plan: &Plan,
    sketch: Sketch,
    origins: &O,
    of: Option<Device>,
) -> Result<Vec<u8>, AllocError>
    requires { IfSome of (λ device. device < length plan.now) }
{
    let shown = shown(alloc, plan, of)?;
    let Sketch { states, arrows } = sketch;
    let drawing = drawing_within(alloc, shown.as_slice(), arrows)?;
    let mut text = Vec::new(alloc);
    let states = states.as_slice();
    write_page(
        alloc,
        &mut text,
        plan,
        states,
        origins,
        &drawing,
        shown.as_slice(),
    )?;
    Ok(text)
}
