//! A schedule replayed over a plan, from bytes to the report.
ghost use Rattle.std.specs.Prelude.{◌≡◌, ◌⊎◌, IfOk, MatchResult, Ok, Err};
ghost use Rattle.bus_core.specs.Report.{report_text};
ghost use Rattle.dtman_engine.specs.Fault.{fault_value, no_memory};
ghost use Rattle.dtman_engine.specs.Replay.{replaying, replay_answer, ReportsHistory};
ghost use Rattle.dtman_engine.specs.Private.Printing.{Prints};

use crate::fault::Fault;
use bus_core::{Core, read_schedule, replay};
use bus_plan::read_plan;
use std::alloc::Global;
use std::hash::RandomState;

/// The core after all events of a schedule.
///
/// The plan file's fault comes first, then the schedule's, each with its line, then the first refused event with its
/// number.
pub(crate) fn replayed(
    alloc: Global,
    hasher: RandomState,
    plan: &[u8],
    schedule: &[u8],
) -> Result<Core, Fault>
    ensures { MatchResult result
        (λ core. replaying plan.now schedule.now ≡ Ok core)
        (λ fault. (fault_value fault ≡ no_memory) ⊎ (replaying plan.now schedule.now ≡ Err (fault_value fault))) }
{
    let plan = read_plan(alloc, hasher, plan)?;
    let events = read_schedule(alloc, &plan, schedule)?;
    let core = replay(alloc, plan, events.as_slice())?;
    Ok(core)
}

/// The report after all events of a schedule: one line a device, then `quiet` or `busy`. Drivers that came late have
/// their devices.
pub fn replay_bytes(
    alloc: Global,
    hasher: RandomState,
    plan: &[u8],
    schedule: &[u8],
) -> Result<Vec<u8>, Fault>
    ensures answer { MatchResult result
        (λ report. replay_answer plan.now schedule.now ≡ Ok report.items)
        (λ fault. (fault_value fault ≡ no_memory) ⊎ (replay_answer plan.now schedule.now ≡ Err (fault_value fault))) }
    ensures history { IfOk result (λ report. ReportsHistory plan.now schedule.now report.items) }
{
    let core = replayed(alloc, hasher, plan, schedule)?;
    core.check();
    report_of(alloc, &core)
}

fn report_of(alloc: Global, core: &Core) -> Result<Vec<u8>, Fault>
    ensures report { Prints (report_text core.now.plan core.now.state) result }
{
    core.report(alloc).map_err(|_| Fault::no_memory())
}
