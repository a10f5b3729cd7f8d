//! The cycles of a plan, as lists of devices.
use crate::Device;
use std::alloc::{AllocError, Global};

/// Devices that each take the others, in the plan's order: two at least.
#[derive(Drop)]
pub struct Cycle {
    devices: Vec<Device>,
}

impl Cycle {
    /// The devices.
    pub fn devices(&self) -> &[Device] {
        self.devices.as_slice()
    }
}

fn count(counts: &mut [usize], component: usize) {
    if let Some(count) = counts.get_mut(component) {
        *count = count.saturating_add(1);
    }
}

fn is_many(counts: &[usize], component: usize) -> bool {
    match counts.get(component) {
        None => false,
        Some(count) => *count > 1,
    }
}

// Where the cycle of a component stands, or past the end where it has none yet.
fn place_of(places: &[usize], component: usize, none: usize) -> usize {
    match places.get(component) {
        None => none,
        Some(place) => *place,
    }
}

// Puts a device into its component's cycle, a new one where there is none yet.
fn put(
    alloc: Global,
    cycles: &mut Vec<Cycle>,
    places: &mut [usize],
    component: usize,
    device: Device,
) -> Result<(), AllocError> {
    let place = place_of(places, component, usize::MAX);
    if let Some(cycle) = cycles.as_mut_slice().get_mut(place) {
        cycle.devices.push(device)?;
        return Ok(());
    }
    if let Some(place) = places.get_mut(component) {
        *place = cycles.len();
    }
    let mut devices = Vec::new(alloc);
    devices.push(device)?;
    cycles.push(Cycle { devices })?;
    Ok(())
}

fn put_all(
    alloc: Global,
    cycles: &mut Vec<Cycle>,
    components: &[usize],
    counts: &[usize],
) -> Result<(), AllocError> {
    let mut places = vec![in alloc; usize::MAX; components.len()]?;
    for (device, component) in components.iter().enumerate() {
        if is_many(counts, *component) {
            put(alloc, cycles, &mut places, *component, Device::new(device))?;
        }
    }
    Ok(())
}

/// The cycles of these components, by their first devices.
pub fn cycles_of(alloc: Global, components: &[usize]) -> Result<Vec<Cycle>, AllocError> {
    let mut counts = vec![in alloc; 0; components.len()]?;
    for component in components {
        count(&mut counts, *component);
    }
    let mut cycles = Vec::new(alloc);
    put_all(alloc, &mut cycles, components, counts.as_slice())?;
    Ok(cycles)
}
