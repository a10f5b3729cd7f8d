//! Which devices are bound at the end of a run.

ghost use Rattle.std.specs.Prelude.{◌≡◌, length, IfOk};
ghost use Rattle.bus_core.specs.Least.{IsLeast};
ghost use Rattle.bus_picture.specs.Why.Chain.{bound_by};
ghost use Rattle.dtman_why.specs.End.{does_bind, AreBound};

use bus_manager::{TableProber, run};
use bus_plan::{Device, Plan, Verdict};
use dtman_engine::Fault;
use std::alloc::{AllocError, Global};
use std::thread::Threads;

/// With how many workers the devices are probed.
const WORKERS: usize = 4;

fn does_bind(verdict: Verdict) -> bool
    ensures { result ≡ does_bind verdict }
{
    match verdict {
        Verdict::Binds => true,
        Verdict::Fails => false,
    }
}

fn bound_places(
    alloc: Global,
    plan: &Plan,
    notes: &[Option<Device>],
) -> Result<Vec<bool>, AllocError>
    requires { length notes.now ≡ length plan.now }
    ensures { IfOk result (λ bound. AreBound plan.now notes.now bound.items) }
{
    let mut bound = Vec::with_capacity(alloc, plan.len())?;
    for place in 0..plan.len() {
        let settled = notes[place].is_some();
        bound.push(settled && does_bind(plan.verdict(Device::new(place))))?;
    }
    Ok(bound)
}

/// The report of a run, and whether each device is bound at its end.
#[derive(Drop)]
pub(crate) struct End {
    pub report: Vec<u8>,
    pub bound: Vec<bool>,
}

/// The end of a run by so many workers, 1 to 64.
pub(crate) fn ended<R: Threads + Sync>(
    rt: &R,
    alloc: Global,
    plan: &Plan,
    workers: usize,
) -> Result<End, Fault> {
    match run(rt, alloc, plan, &TableProber, workers) {
        Ok(ran) => {
            let bound = bound_places(alloc, plan, ran.notes.as_slice())?;
            let report = ran.report;
            Ok(End { report, bound })
        }
        Err(error) => Err(Fault::from(error)),
    }
}

/// Whether each device of a plan is bound at the end, in the plan's order: the least set that matching and suppliers force.
pub fn end_of<R: Threads + Sync>(rt: &R, alloc: Global, plan: &Plan) -> Result<Vec<bool>, Fault>
    ensures { IfOk result (λ bound. IsLeast plan.now (bound_by bound.items)) }
{
    match run(rt, alloc, plan, &TableProber, WORKERS) {
        Ok(ran) => Ok(bound_places(alloc, plan, ran.notes.as_slice())?),
        Err(error) => Err(Fault::from(error)),
    }
}
