//! Why devices wait, as text.

ghost use Rattle.std.specs.Prelude.{◌<◌, length, IfSome};

use crate::causes::add_causes;
use crate::chain_text::add_chain;
use crate::end::end_of;
use crate::reasons::{BuiltIn, Reasons};
use bus_picture::why::{Cause, chain_from, waiting_chains};
use bus_plan::{Device, Plan, PlanError};
use dtman_engine::{Fault, Position};
use std::alloc::{AllocError, Global};
use std::thread::Threads;

/// The lines of the chains that were asked for, and whether a device waits among them.
#[derive(Drop)]
pub struct Waits {
    pub text: Vec<u8>,
    pub any: bool,
}

/// The device at a path of the command line.
pub fn device_at(plan: &Plan, path: &[u8]) -> Option<Device>
    ensures { IfSome result (λ device. device < length plan.now) }
{
    match plan.device(path) {
        Some(device) if device.index() < plan.len() => Some(device),
        _ => None,
    }
}

/// No device has the path that the command line names, which is no line of a file.
pub fn no_device() -> Fault {
    let Fault { number, name, .. } = Fault::from(PlanError::UnknownPath(0));
    Fault {
        number,
        name,
        position: Position::Nowhere,
        culprit: None,
    }
}

fn one<S: Reasons>(
    alloc: Global,
    plan: &Plan,
    reasons: &S,
    built_in: BuiltIn,
    bound: &[bool],
    device: Device,
) -> Result<Waits, AllocError>
    requires { device < length plan.now }
{
    let chain = chain_from(alloc, plan, bound, device)?;
    let mut text = Vec::new(alloc);
    add_chain(alloc, &mut text, plan, reasons, built_in, &chain)?;
    let any = !matches!(chain.cause, Cause::Bound);
    Ok(Waits { text, any })
}

fn all<S: Reasons>(
    alloc: Global,
    plan: &Plan,
    reasons: &S,
    built_in: BuiltIn,
    bound: &[bool],
) -> Result<Waits, AllocError> {
    let chains = waiting_chains(alloc, plan, bound)?;
    let mut text = Vec::new(alloc);
    add_causes(alloc, &mut text, plan, built_in, chains.as_slice())?;
    for chain in &chains {
        add_chain(alloc, &mut text, plan, reasons, built_in, chain)?;
    }
    let any = !chains.is_empty();
    Ok(Waits { text, any })
}

// Of the device at a path, or else of all.
fn waits_of<S: Reasons>(
    alloc: Global,
    plan: &Plan,
    reasons: &S,
    built_in: BuiltIn,
    bound: &[bool],
    path: Option<&[u8]>,
) -> Result<Waits, Fault> {
    let Some(path) = path else {
        return all(alloc, plan, reasons, built_in, bound).map_err(|_| Fault::no_memory());
    };
    match device_at(plan, path) {
        Some(device) => {
            one(alloc, plan, reasons, built_in, bound, device).map_err(|_| Fault::no_memory())
        }
        None => Err(no_device()),
    }
}

/// Why the device at a path isn't bound at the end, or, where none is named, why each device that waits isn't.
pub fn why_text<S: Reasons, R: Threads + Sync>(
    rt: &R,
    alloc: Global,
    plan: &Plan,
    reasons: &S,
    built_in: BuiltIn,
    path: Option<&[u8]>,
) -> Result<Waits, Fault> {
    match end_of(rt, alloc, plan) {
        Ok(bound) => waits_of(alloc, plan, reasons, built_in, bound.as_slice(), path),
        Err(fault) => Err(fault),
    }
}
