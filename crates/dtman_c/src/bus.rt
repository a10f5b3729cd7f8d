//! Devices of a board: planned, and a schedule replayed over the plan.
ghost use Rattle.dtman_c.specs.Crossing.{IsGiven, OrNoMemory};
ghost use Rattle.dtman_c.specs.Engines.{IsPlanAnswer, IsReplayAnswer};

use crate::answer::{Answer, give};
use crate::seed::hasher_of;
use dtman_engine::{plan_bytes, replay_bytes};
use std::alloc::Global;

/// The text of the plan of the tree that a blob holds, by the drivers of a file.
#[unsafe(no_mangle)]
pub extern "C" fn dtman_plan(
    alloc: Global,
    blob: &[u8],
    drivers: &[u8],
    seed: u64,
    out: &mut [u8],
) -> Answer
    ensures { IsGiven (OrNoMemory (IsPlanAnswer blob.now drivers.now)) out.old out.new result }
{
    match hasher_of(seed) {
        Ok(hasher) => give(plan_bytes(alloc, hasher, blob, drivers), out),
        Err(fault) => give(Err(fault), out),
    }
}

/// The report after all events of a schedule over a plan.
#[unsafe(no_mangle)]
pub extern "C" fn dtman_replay(
    alloc: Global,
    plan: &[u8],
    schedule: &[u8],
    seed: u64,
    out: &mut [u8],
) -> Answer
    ensures { IsGiven (OrNoMemory (IsReplayAnswer plan.now schedule.now)) out.old out.new result }
{
    match hasher_of(seed) {
        Ok(hasher) => give(replay_bytes(alloc, hasher, plan, schedule), out),
        Err(fault) => give(Err(fault), out),
    }
}
