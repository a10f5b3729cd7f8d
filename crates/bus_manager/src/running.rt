//! Runs by many workers, over a board or with a lock.

ghost use Rattle.std.specs.Prelude.{◌≡◌, ◌<◌, ◌≤◌, ◌⊎◌, ◌↔◌, IfOk, IfErr, MatchResult, OnOk, Ok, Some};
ghost use Rattle.std.specs.Result.{result_err};
ghost use Rattle.bus_core.specs.declared.refusal.Refusal.TheVariants.{NoMemory as OutOfMemory};
ghost use Rattle.bus_manager.specs.Keeper.{first_keeper};
ghost use Rattle.bus_manager.specs.Run.{IsRun, IsRunOf};
ghost use Rattle.bus_manager.specs.Workers.{AreRefused, most_workers};

use crate::alone::finish_alone;
use crate::boarded::run_boarded;
use crate::keeper::Keeper;
use crate::manager::{Manager, PlanName};
use crate::notes::{Ran, no_notes, place_some};
use crate::prober::Prober;
use crate::resumed::run_resumed;
use crate::run_error::RunError;
use crate::worker::work;
use bus_core::{Core, Refusal};
use bus_plan::Plan;
use std::alloc::Global;
use std::marker::Brand;
use std::sync::Wait;
use std::thread::Threads;

/// The most workers of a run.
pub const MAX_WORKERS: usize = 64;

// Whether a run may have so many workers.
fn allow(workers: usize) -> Result<(), RunError>
    ensures ok { OnOk result ((0 < workers) × (workers ≤ most_workers)) }
    ensures err { IfErr result (λ refusal. (refusal ≡ RunError.TooManyWorkers) × AreRefused workers) }
{
    if workers == 0 {
        return Err(RunError::TooManyWorkers);
    }
    if workers > MAX_WORKERS {
        return Err(RunError::TooManyWorkers);
    }
    Ok(())
}

// What a run answered. It is refused nothing but memory: a keeper's begins are far from used up.
fn answered<N: Drop>(ran: Result<Ran<N>, Refusal>) -> Result<Ran<N>, RunError>
    requires { IfErr ran (λ refusal. refusal ≡ OutOfMemory) }
    ensures ok { IfOk result (λ answer. ran ≡ Ok answer) }
    ensures err { IfErr result (λ refusal. refusal ≡ RunError.NoMemory) }
{
    match ran {
        Ok(ran) => Ok(ran),
        Err(_) => Err(RunError::NoMemory),
    }
}

/// Probes the devices of a plan by so many workers, 1 to `MAX_WORKERS`, over a board: no worker waits for another. The
/// report is the same for every interleaving. Where memory runs out for a worker it leaves, and the others, at last the
/// caller alone, go on.
pub fn run<P: Prober, R: Threads + Sync>(
    rt: &R,
    alloc: Global,
    plan: &Plan,
    prober: &P,
    workers: usize,
) -> Result<Ran<P::Note>, RunError>
    ensures ran { IfOk result (λ ran. IsRun (P.attests prober.now plan.now) plan.now ran.report.items ran.notes.items) }
    ensures many { (result_err result ≡ Some RunError.TooManyWorkers) ↔ AreRefused workers }
{
    allow(workers)?;
    answered(run_boarded(rt, alloc, plan, prober, workers))
}

/// Goes on from a core, by so many workers over a board: its open flights are dropped, and what isn't settled is probed under
/// the drivers that it has so far. A device that had settled isn't probed, and leaves no note. After a refusal the core is
/// dropped.
pub fn run_core<P: Prober, R: Threads + Sync>(
    rt: &R,
    alloc: Global,
    core: Core,
    prober: &P,
    workers: usize,
) -> Result<Ran<P::Note>, RunError>
    ensures ran { IfOk result (λ ran. IsRunOf (P.attests prober.now core.plan) core ran.report.items ran.notes.items) }
    ensures many { (result_err result ≡ Some RunError.TooManyWorkers) ↔ AreRefused workers }
{
    allow(workers)?;
    answered(run_resumed(rt, alloc, core, prober, workers))
}

/// The same as `run` with one lock round the core, on which a worker may wait for another to finish.
pub fn run_locked<P: Prober, R: Threads + Wait + Sync>(
    rt: &R,
    alloc: Global,
    plan: &Plan,
    prober: &P,
    workers: usize,
) -> Result<Ran<P::Note>, RunError>
    ensures ran { IfOk result (λ ran. IsRun (P.attests prober.now plan.now) plan.now ran.report.items ran.notes.items) }
    ensures many { (result_err result ≡ Some RunError.TooManyWorkers) ↔ AreRefused workers }
{
    allow(workers)?;
    answered(run_named::<Brand, P, R>(rt, alloc, plan, prober, workers))
}

// A keeper of a copy of the plan, with nothing begun.
fn fresh_keeper(alloc: Global, plan: &Plan) -> Result<Keeper, Refusal>
    ensures { MatchResult result (λ keeper. keeper ≡ first_keeper plan.now) (λ refusal. refusal ≡ OutOfMemory) }
{
    Keeper::new(alloc, plan.copy(alloc)?)
}

// A run with a lock, over the plan of this name.
fn run_named<J: PlanName + Send + Sync, P: Prober, R: Threads + Wait + Sync>(
    rt: &R,
    alloc: Global,
    plan: &Plan,
    prober: &P,
    workers: usize,
) -> Result<Ran<P::Note>, Refusal>
    requires { plan.now ≡ J.plan }
    ensures ran { IfOk result (λ ran. IsRun (P.attests prober.now plan.now) plan.now ran.report.items ran.notes.items) }
    ensures err { IfErr result (λ refusal. refusal ≡ OutOfMemory) }
{
    let mut notes = no_notes::<P::Note>(alloc, plan.len())?;
    let keeper = fresh_keeper(alloc, plan)?;
    let manager = Manager::<J>::new(keeper, workers);
    let found = work(
        rt,
        alloc,
        &manager,
        plan,
        prober,
        None,
        Vec::new(alloc),
        workers,
    );
    place_some(plan, prober, &mut notes, found);
    finish_alone(alloc, plan, prober, manager.into_keeper(), notes)
}
