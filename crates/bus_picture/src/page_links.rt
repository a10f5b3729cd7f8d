//! What a device of a page needs, and what needs it.
use crate::arrows::{Arrow, Tie};
use crate::drawing::{Drawing, Places, places_of, state_at};
use crate::escape::add_escaped;
use crate::names::{path_of, short_name};
use crate::page_devices::class_of;
use crate::reasons::{Detail, Origins, add_reasons};
use crate::states::State;
use bus_plan::{Device, Plan};
use std::alloc::{AllocError, Global};

/// A page of more bundles than these tells only the first of each list: no board has as many.
const MOST_BUNDLES: usize = 65_536;

/// How many those are.
const FIRST_TOLD: usize = 16;

/// Which end of its bundles a device is.
#[derive(Clone, Copy, Debug, PartialEq, Eq)]
pub(crate) enum End {
    Consumer,
    Supplier,
}

impl End {
    fn title(self) -> &'static [u8] {
        match self {
            End::Consumer => b"<p><b>needs</b><ul>",
            End::Supplier => b"<p><b>is needed by</b><ul>",
        }
    }

    // The bundles of each device of which it is this end.
    fn places(self, drawing: &Drawing) -> &[Places] {
        match self {
            End::Consumer => drawing.needs.as_slice(),
            End::Supplier => drawing.needed_by.as_slice(),
        }
    }

    fn other(self, arrow: &Arrow) -> Device {
        match self {
            End::Consumer => arrow.supplier,
            End::Supplier => arrow.consumer,
        }
    }
}

fn write_link(
    alloc: Global,
    text: &mut Vec<u8>,
    plan: &Plan,
    states: &[State],
    device: Device,
) -> Result<(), AllocError> {
    let place = device.index();
    text.extend_from_slice(b"<li><a class=")?;
    text.extend_from_slice(class_of(state_at(states, device)))?;
    let reference = format!(in alloc; " href=#d{place}>")?;
    text.extend_from_slice(reference.as_bytes())?;
    add_escaped(text, short_name(path_of(plan, device)))?;
    text.extend_from_slice(b"</a> ")
}

fn write_tie(text: &mut Vec<u8>, tie: Tie) -> Result<(), AllocError> {
    match tie {
        Tie::Needed => text.extend_from_slice(b"</li>"),
        Tie::Cyclic => text.extend_from_slice(b" <span class=cyclic>in a cycle</span></li>"),
        Tie::Early => text.extend_from_slice(b" <i>set up early</i></li>"),
    }
}

fn write_bundle<O: Origins>(
    alloc: Global,
    text: &mut Vec<u8>,
    plan: &Plan,
    states: &[State],
    origins: &O,
    arrows: &[Arrow],
    end: End,
) -> Result<(), AllocError> {
    let Some(first) = arrows.first() else {
        return Ok(());
    };
    write_link(alloc, text, plan, states, end.other(first))?;
    add_reasons(alloc, text, origins, arrows, Detail::Entries)?;
    write_tie(text, first.tie)
}

fn write_bundles<O: Origins>(
    alloc: Global,
    text: &mut Vec<u8>,
    plan: &Plan,
    states: &[State],
    origins: &O,
    drawing: &Drawing,
    places: &[usize],
    end: End,
) -> Result<(), AllocError> {
    for place in places {
        let arrows = drawing.bundles.at(*place);
        write_bundle(alloc, text, plan, states, origins, arrows, end)?;
    }
    Ok(())
}

// Those of a device's bundles that are told.
fn told_of<'d>(drawing: &'d Drawing, places: &'d [usize]) -> &'d [usize] {
    if drawing.bundles.len() <= MOST_BUNDLES {
        return places;
    }
    places.get(..FIRST_TOLD).unwrap_or(places)
}

fn write_untold(alloc: Global, text: &mut Vec<u8>, count: usize) -> Result<(), AllocError> {
    if count == 0 {
        return Ok(());
    }
    let words = format!(in alloc; "<li>and {count} more</li>")?;
    text.extend_from_slice(words.as_bytes())
}

/// Writes a list of the devices at the other ends, each with the properties and entries; nothing where there are none. Where the page
/// has too many bundles it is the first of them, and how many more there are.
pub(crate) fn write_links<O: Origins>(
    alloc: Global,
    text: &mut Vec<u8>,
    plan: &Plan,
    states: &[State],
    origins: &O,
    drawing: &Drawing,
    device: Device,
    end: End,
) -> Result<(), AllocError> {
    let places = places_of(end.places(drawing), device);
    if places.is_empty() {
        return Ok(());
    }
    text.extend_from_slice(end.title())?;
    let told = told_of(drawing, places);
    write_bundles(alloc, text, plan, states, origins, drawing, told, end)?;
    write_untold(alloc, text, places.len().saturating_sub(told.len()))?;
    text.extend_from_slice(b"</ul>")
}
