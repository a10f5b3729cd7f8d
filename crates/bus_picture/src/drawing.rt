//! What of a sketch is drawn.
use crate::arrows::Arrow;
use crate::bundles::{Bundles, bundles_of};
use crate::showing::flag_at;
use crate::states::State;
use bus_plan::Device;
use std::alloc::{AllocError, Global};

/// A supplier of more devices than these is told in their words, without arrows.
const MOST_ARROWS: usize = 2;

/// The bundles of one device, by their places.
#[derive(Drop)]
pub struct Places {
    pub places: Vec<usize>,
}

/// The bundles that are drawn, and those that begin and end at each device.
#[derive(Drop)]
pub struct Drawing {
    pub bundles: Bundles,
    pub needs: Vec<Places>,
    pub needed_by: Vec<Places>,
}

/// What a device is; one that isn't there is disabled.
pub fn state_at(states: &[State], device: Device) -> State {
    match states.get(device.index()) {
        Some(state) => *state,
        None => State::Disabled,
    }
}

fn no_places(alloc: Global, count: usize) -> Result<Vec<Places>, AllocError> {
    let mut places = Vec::with_capacity(alloc, count)?;
    for _ in 0..count {
        places.push(Places {
            places: Vec::new(alloc),
        })?;
    }
    Ok(places)
}

fn put(places: &mut [Places], device: Device, place: usize) -> Result<(), AllocError> {
    if let Some(own) = places.get_mut(device.index()) {
        own.places.push(place)?;
    }
    Ok(())
}

fn put_needs(needs: &mut [Places], bundles: &Bundles) -> Result<(), AllocError> {
    for place in 0..bundles.len() {
        if let Some(arrow) = bundles.at(place).first() {
            put(needs, arrow.consumer, place)?;
        }
    }
    Ok(())
}

fn put_needed(needed_by: &mut [Places], bundles: &Bundles) -> Result<(), AllocError> {
    for place in 0..bundles.len() {
        if let Some(arrow) = bundles.at(place).first() {
            put(needed_by, arrow.supplier, place)?;
        }
    }
    Ok(())
}

fn drawing_of(alloc: Global, count: usize, arrows: Vec<Arrow>) -> Result<Drawing, AllocError> {
    let bundles = bundles_of(alloc, count, arrows)?;
    let mut needs = no_places(alloc, count)?;
    let mut needed_by = no_places(alloc, count)?;
    put_needs(&mut needs, &bundles)?;
    put_needed(&mut needed_by, &bundles)?;
    Ok(Drawing {
        bundles,
        needs,
        needed_by,
    })
}

// Whether both ends of an arrow are shown.
fn is_within(shown: &[bool], arrow: &Arrow) -> bool {
    flag_at(shown, arrow.consumer) && flag_at(shown, arrow.supplier)
}

/// The drawing of all arrows between the devices that are shown.
pub fn drawing_within(
    alloc: Global,
    shown: &[bool],
    mut arrows: Vec<Arrow>,
) -> Result<Drawing, AllocError> {
    arrows.retain(|arrow| is_within(shown, arrow));
    drawing_of(alloc, shown.len(), arrows)
}

// Which devices some arrow leads to.
fn needed(alloc: Global, count: usize, arrows: &[Arrow]) -> Result<Vec<bool>, AllocError> {
    let mut needed = vec![in alloc; false; count]?;
    for arrow in arrows {
        if let Some(flag) = needed.get_mut(arrow.supplier.index()) {
            *flag = true;
        }
    }
    Ok(needed)
}

// Whether a device's own arrows belong into a picture of the whole board: not those of one that isn't available, nor of one that no
// driver matches and nobody needs.
fn has_arrows(states: &[State], needed: &[bool], device: Device) -> bool {
    match state_at(states, device) {
        State::Disabled => false,
        State::Unmatched => flag_at(needed, device),
        State::Bound | State::Waiting | State::Failed | State::Early => true,
    }
}

/// The drawing of the whole board, without the arrows that tell nothing of what comes up.
pub fn whole_drawing(
    alloc: Global,
    states: &[State],
    mut arrows: Vec<Arrow>,
) -> Result<Drawing, AllocError> {
    let needed = needed(alloc, states.len(), arrows.as_slice())?;
    arrows.retain(|arrow| has_arrows(states, needed.as_slice(), arrow.consumer));
    drawing_of(alloc, states.len(), arrows)
}

/// The bundles at some places.
pub fn places_of<'d>(places: &'d [Places], device: Device) -> &'d [usize] {
    match places.get(device.index()) {
        Some(own) => own.places.as_slice(),
        None => &[],
    }
}

impl Drawing {
    /// Whether a bundle begins or ends at a device.
    pub fn has(&self, device: Device) -> bool {
        !places_of(self.needs.as_slice(), device).is_empty()
            || !places_of(self.needed_by.as_slice(), device).is_empty()
    }

    /// Whether a device supplies so many others that it is told in their words.
    pub fn is_hub(&self, device: Device) -> bool {
        places_of(self.needed_by.as_slice(), device).len() > MOST_ARROWS
    }
}
