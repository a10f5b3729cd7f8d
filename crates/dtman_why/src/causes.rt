//! For what devices wait in the end, the heaviest first.

use crate::chain_text::{add_cause, add_path};
use crate::reasons::BuiltIn;
use bus_picture::why::{Cause, Chain};
use bus_plan::{Device, Plan};
use std::alloc::{AllocError, Global};

/// A device in which chains end, why it isn't bound, and how many devices wait for it.
#[derive(Clone, Copy)]
struct Root {
    device: Device,
    cause: Cause,
    waiting: usize,
}

// How many chains end in each device.
fn counts_of(alloc: Global, devices: usize, chains: &[Chain]) -> Result<Vec<usize>, AllocError> {
    let mut counts = vec![in alloc; 0usize; devices]?;
    for chain in chains {
        if let Some(last) = chain.devices.last() {
            if let Some(count) = counts.get_mut(last.index()) {
                *count = count.saturating_add(1);
            }
        }
    }
    Ok(counts)
}

// Takes the count of a device, so that it is met once.
fn taken(counts: &mut [usize], device: Device) -> usize {
    match counts.get_mut(device.index()) {
        Some(count) => {
            let waiting = *count;
            *count = 0;
            waiting
        }
        None => 0,
    }
}

// Those for which two devices wait and more, in the order of their first chains.
fn roots_of(
    alloc: Global,
    counts: &mut [usize],
    chains: &[Chain],
) -> Result<Vec<Root>, AllocError> {
    let mut roots = Vec::new(alloc);
    for chain in chains {
        if let Some(device) = chain.devices.last().copied() {
            let waiting = taken(counts, device);
            if waiting > 1 {
                let cause = chain.cause;
                roots.push(Root {
                    device,
                    cause,
                    waiting,
                })?;
            }
        }
    }
    Ok(roots)
}

fn add_root(
    alloc: Global,
    text: &mut Vec<u8>,
    plan: &Plan,
    built_in: BuiltIn,
    root: Root,
) -> Result<(), AllocError> {
    add_path(text, plan, root.device)?;
    add_cause(text, plan, built_in, root.device, root.cause)?;
    let waiting = format!(in alloc; ": {} devices wait\n", root.waiting)?;
    text.extend_from_slice(waiting.as_bytes())
}

/// Puts a line for each device in which chains of two devices and more end, behind a text, those for which most wait first:
/// `PATH: CAUSE: N devices wait`.
pub fn add_causes(
    alloc: Global,
    text: &mut Vec<u8>,
    plan: &Plan,
    built_in: BuiltIn,
    chains: &[Chain],
) -> Result<(), AllocError> {
    let mut counts = counts_of(alloc, plan.len(), chains)?;
    let mut roots = roots_of(alloc, counts.as_mut_slice(), chains)?;
    roots.sort_by_key(|root| usize::MAX - root.waiting)?;
    for root in &roots {
        add_root(alloc, text, plan, built_in, *root)?;
    }
    Ok(())
}
