//! A schedule replayed over a plan and then run to its end by workers, from bytes to the end report.
ghost use Rattle.std.specs.Prelude.{IfOk, IfErr};
ghost use Rattle.dtman_engine.specs.Fault.{fault_value};
ghost use Rattle.dtman_engine.specs.RunFaults.{AreTooMany};
ghost use Rattle.dtman_engine.specs.Private.Running.{GoesOn};
ghost use Rattle.dtman_engine.specs.ReplayRun.{IsReplayRun, IsReplayRunRefusal};

use crate::fault::Fault;
use crate::replay::replayed;
use bus_core::Core;
use bus_manager::{Prober, Ran, run_core};
use std::alloc::Global;
use std::hash::RandomState;
use std::thread::Threads;

/// Replays a schedule over a plan, and goes on from there by so many workers, 1 to 64, until the bus is quiet. Flights that
/// the schedule left open are dropped first. A device that the schedule settled isn't probed, and leaves no note.
///
/// The faults of `replay_bytes` come first, then `TooManyWorkers`.
pub fn replay_run_bytes<P: Prober, R: Threads + Sync>(
    rt: &R,
    alloc: Global,
    hasher: RandomState,
    plan: &[u8],
    schedule: &[u8],
    prober: &P,
    workers: usize,
) -> Result<Ran<P::Note>, Fault>
    // The one end report of the core that the schedule leads to, with a note of each device that has settled since.
    ensures answer { IfOk result (IsReplayRun (P.attests prober.now) plan.now schedule.now) }
    // No run has no worker, or too many.
    ensures many { IfOk result (λ _. ¬ (AreTooMany workers)) }
    // Each refusal is the replay's first fault or, where it has none, has its reason in the number of workers.
    ensures refused { IfErr result (λ fault. IsReplayRunRefusal plan.now schedule.now workers (fault_value fault)) }
{
    let core = replayed(alloc, hasher, plan, schedule)?;
    core_run(rt, alloc, core, prober, workers)
}

fn core_run<P: Prober, R: Threads + Sync>(
    rt: &R,
    alloc: Global,
    core: Core,
    prober: &P,
    workers: usize,
) -> Result<Ran<P::Note>, Fault>
    ensures run { GoesOn (P.attests prober.now core.plan) core workers result }
    ensures many { IfOk result (λ _. ¬ (AreTooMany workers)) }
{
    match run_core(rt, alloc, core, prober, workers) {
        Ok(ran) => Ok(ran),
        Err(error) => Err(Fault::from(error)),
    }
}
