//! A boot's log as a schedule, with the names that it leaves out.

use crate::shown::add_shown;
use bus_log::{Reason, Traced, Unplaced, boot_schedule};
use bus_plan::read_plan;
use dtman_engine::Fault;
use std::alloc::{AllocError, Global};
use std::hash::RandomState;

/// A schedule, and a line for each name that is left out.
#[derive(Drop)]
pub struct Boot {
    pub schedule: Vec<u8>,
    pub warnings: Vec<u8>,
}

fn add_warning(
    alloc: Global,
    text: &mut Vec<u8>,
    unplaced: &Unplaced<'_>,
) -> Result<(), AllocError> {
    let line = unplaced.line;
    let why = match unplaced.reason {
        Reason::Unknown => "no device of the plan is",
        Reason::SwitchedOff => "switched off in the plan is",
    };
    let front = format!(in alloc; "warning: line {line}: {why} ")?;
    text.extend_from_slice(front.as_bytes())?;
    add_shown(text, unplaced.name)?;
    text.push(b'\n')?;
    Ok(())
}

fn warnings(alloc: Global, unplaced: &[Unplaced<'_>]) -> Result<Vec<u8>, AllocError> {
    let mut text = Vec::new(alloc);
    for unplaced in unplaced {
        add_warning(alloc, &mut text, unplaced)?;
    }
    Ok(text)
}

fn told(alloc: Global, traced: Traced<'_>) -> Result<Boot, AllocError> {
    let Traced { schedule, unplaced } = traced;
    let warnings = warnings(alloc, unplaced.as_slice())?;
    Ok(Boot { schedule, warnings })
}

/// The schedule of a kernel's log over a plan file.
pub fn boot_bytes(
    alloc: Global,
    hasher: RandomState,
    log: &[u8],
    plan: &[u8],
) -> Result<Boot, Fault> {
    let plan = read_plan(alloc, hasher, plan)?;
    let traced = boot_schedule(alloc, hasher, &plan, log)?;
    Ok(told(alloc, traced)?)
}
