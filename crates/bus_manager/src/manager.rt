//! One lock round a keeper, and the turns of its workers.

ghost use Rattle.std.specs.Prelude.{◌≡◌, ◌<◌, true, length, count_by, IfOk, IfErr, IfSome, List, []};
ghost use Rattle.bus_core.specs.declared.refusal.Refusal.TheVariants.{NoMemory};
ghost use Rattle.bus_plan.specs.Plan.{PlannedDevice};
ghost use Rattle.bus_manager.specs.Private.Counts.{is_abandon, abandons};
ghost use Rattle.bus_manager.specs.Private.Locked.{IsFlightOf};
ghost use Rattle.bus_manager.specs.Private.Turn.{IsEnded, IsMoreDue, IsTurn, IsTurnOf, tells_settled};

use crate::baton::Baton;
use crate::keeper::Keeper;
use crate::seen::Seen;
use bus_core::{Refusal, Reply, Report, Ticket};
use std::marker::{Brand, PhantomData};
use std::sync::{Mutex, Wait};

/// The name of a plan, which a manager's type carries: so what lies under a lock is known to be of that plan.
pub trait PlanName {
    ghost plan: { List PlannedDevice };
}

impl PlanName for Brand {
    ghost plan = { [] };
}

/// A flight that was begun, and whether a further device is due behind its own.
#[derive(Drop)]
pub(crate) struct Flight {
    pub ticket: Ticket,
    pub seen: Seen,
    pub more: bool,
}

/// What a worker does next.
#[derive(Drop)]
pub(crate) enum Turn {
    /// It probes the device of the flight.
    Fly(Flight),
    /// Nothing is due, but a flight is open: its end may make something due.
    Wait,
    /// Nothing is due and no flight is open.
    Quiet,
}

// What lies under the lock: a keeper of the plan of this name, without abandons.
#[derive(Drop)]
struct Kept<J: PlanName> {
    keeper: Keeper,
    of: PhantomData<J>,
    ghost named: { keeper.plan ≡ J.plan },
    ghost unabandoned: { count_by is_abandon keeper.events ≡ 0 },
}

impl<J: PlanName> Kept<J> {
    fn new(keeper: Keeper) -> Self
        requires named { keeper.plan ≡ J.plan }
        requires unabandoned { abandons keeper ≡ 0 }
        ensures { result.keeper ≡ keeper }
    {
        Kept {
            keeper,
            of: PhantomData,
        }
    }

    // Begins a due device, if there is one.
    fn turn(&mut self) -> Result<Turn, Refusal>
        ensures turn { IfOk result (IsTurn self.old.keeper self.new.keeper) }
        ensures flight { IfOk result (IsTurnOf J.plan) }
        ensures err { IfErr result (λ refusal. refusal ≡ NoMemory) }
    {
        self.keeper.check();
        self.keeper.core().plan().check();
        match self.keeper.take() {
            Ok(Some((ticket, seen))) => Ok(Turn::Fly(Flight {
                ticket,
                seen,
                more: self.has_due(),
            })),
            Ok(None) if self.keeper.is_flying() => Ok(Turn::Wait),
            Ok(None) => Ok(Turn::Quiet),
            Err(refusal) => Err(refusal),
        }
    }

    // Whether a device is due.
    fn has_due(&self) -> bool
        ensures { IsMoreDue self.now.keeper result }
    {
        self.keeper.core().next().is_some()
    }

    // Ends a flight, and says whether its device has settled.
    fn finish(&mut self, ticket: &Ticket, report: Report) -> bool
        requires { ticket.now.device < length J.plan }
        ensures { IsEnded self.old.keeper self.new.keeper ticket.now report result }
    {
        match self.keeper.finish(ticket, report) {
            Ok(reply) => tells_settled(reply),
            Err(_) => false,
        }
    }
}

// Whether the device of the flight has settled.
fn tells_settled(reply: Reply) -> bool
    ensures { result ≡ tells_settled reply }
{
    matches!(reply, Reply::Bound | Reply::Failed)
}

/// One lock round a keeper of the plan of this name, and the baton of its workers: who takes a device sends one more to look
/// where another is due, and who finds all quiet wakes all. What holds of the keeper holds whenever the lock is free; what a
/// call did to it under the lock no clause can say.
pub struct Manager<J: PlanName> {
    kept: Mutex<Kept<J>>,
    baton: Baton,
}

impl<J: PlanName> Manager<J> {
    /// A lock round a keeper of the plan of this name, for a worker of so many that were asked for.
    pub(crate) fn new(keeper: Keeper, workers: usize) -> Self
        requires named { keeper.plan ≡ J.plan }
        requires unabandoned { abandons keeper ≡ 0 }
    {
        Manager {
            kept: Mutex::new(Kept::new(keeper)),
            baton: Baton::new(workers),
        }
    }

    /// A due device's flight, as soon as there is one, and whether a further worker begins for the device that is due behind it,
    /// which a worker can let begin so often. None where there will be no flight, or memory is refused.
    pub(crate) fn take<R: Wait>(&self, rt: &R, forks: usize) -> Option<(Flight, bool)>
        ensures flight { IfSome result (λ taken. IsFlightOf J.plan taken.0) }
        ensures joined { IfSome result (λ taken. taken.1 ≡ true → 0 < forks) }
    {
        let mut kept = self.kept.lock(rt);
        for _ in rt.forever() {
            match kept.turn() {
                Ok(Turn::Fly(flight)) => {
                    // under the lock, where a worker that has counted itself waits already
                    let joined = self.pass_on(&flight, forks);
                    return Some((flight, joined));
                }
                Ok(Turn::Wait) => {}
                Ok(Turn::Quiet) | Err(_) => {
                    self.baton.wake_all();
                    return None;
                }
            }
            kept = self.baton.wait(rt, kept);
        }
        None
    }

    /// Ends a flight, and says whether its device has settled, as it does by such a report alone. Its worker looks next, so it wakes nobody.
    pub(crate) fn finish<R: Wait>(&self, rt: &R, ticket: &Ticket, report: Report) -> bool
        requires { ticket.now.device < length J.plan }
        ensures { result ≡ true → report ≡ Report.Settled }
    {
        self.kept.lock(rt).finish(ticket, report)
    }

    // Sends one to look for the device that is due behind the flight's own, if one is, and says whether a further worker
    // begins for it.
    fn pass_on(&self, flight: &Flight, forks: usize) -> bool
        ensures { result ≡ true → 0 < forks }
    {
        flight.more && self.baton.pass_on(forks)
    }

    /// A worker begins.
    pub(crate) fn arrive(&self) {
        self.baton.arrive();
    }

    /// A worker leaves that may have been the one to look next: whoever waits looks again.
    pub(crate) fn leave(&self) {
        self.baton.wake_all();
    }
}

impl<J: PlanName> Manager<J> {
    /// The keeper, once no worker has the manager.
    pub(crate) fn into_keeper(self) -> Keeper
        ensures named { result.plan ≡ J.plan }
        ensures unabandoned { abandons result ≡ 0 }
    {
        let Manager { kept, baton } = self;
        drop(baton);
        let Kept { keeper, of: _ } = kept.into_inner();
        keeper
    }
}
