//! What the caller of a run does alone, once its workers have left.

ghost use Rattle.std.specs.Prelude.{◌≡◌, ◌≤◌, ◌<◌, ◌+◌, true, false, length, IfOk, IfErr, OnOk};
ghost use Rattle.bus_core.specs.Due.{is_quiet};
ghost use Rattle.bus_core.specs.declared.refusal.Refusal.TheVariants.{NoMemory};
ghost use Rattle.bus_manager.specs.Private.Alone.{IsLanded, IsDropped, IsDriven, StaysQuiet};
ghost use Rattle.bus_manager.specs.Private.Counts.{abandons};
ghost use Rattle.bus_manager.specs.Private.Notes.{AreNotes};
ghost use Rattle.bus_manager.specs.Run.{IsRun};

use crate::keeper::Keeper;
use crate::notes::{Ran, put, settle_notes};
use crate::prober::{Prober, probe};
use bus_core::{Refusal, Reply};
use bus_plan::{Device, Plan};
use std::alloc::Global;

// Drops a device's flight, if it has one.
fn drop_flight(keeper: &mut Keeper, device: Device)
    requires { device < length keeper.old.plan }
    ensures { IsDropped keeper.old keeper.new device }
{
    match keeper.abandon(device) {
        Ok(()) => {}
        Err(_) => {}
    }
}

// Drops all flights that are left.
fn drop_flights(keeper: &mut Keeper, count: usize)
    requires { count ≡ length keeper.old.plan }
    ensures plan { keeper.new.plan ≡ keeper.old.plan }
    ensures landed { IsLanded keeper.new }
    ensures few { abandons keeper.new ≤ abandons keeper.old + length keeper.old.plan }
{
    for index in 0..count {
        drop_flight(keeper, Device::new(index));
    }
}

// Probes a due device, and says whether there was one.
fn drive<P: Prober>(
    keeper: &mut Keeper,
    plan: &Plan,
    prober: &P,
    notes: &mut Vec<Option<P::Note>>,
) -> Result<bool, Refusal>
    requires plan { keeper.old.plan ≡ plan.now }
    requires landed { IsLanded keeper.old }
    requires few { abandons keeper.old ≤ length plan.now }
    requires notes { AreNotes (P.attests prober.now plan.now) plan.now notes.old.items }
    ensures driven { IfOk result (λ more. more ≡ true → IsDriven keeper.old keeper.new) }
    ensures quiet { IfOk result (λ more. more ≡ false → StaysQuiet keeper.old keeper.new) }
    ensures notes { AreNotes (P.attests prober.now plan.now) plan.now notes.new.items }
    ensures err { IfErr result (λ refusal. refusal ≡ NoMemory) }
    ensures same { keeper.new.plan ≡ keeper.old.plan }
{
    keeper.check();
    plan.check();
    let (ticket, seen) = match keeper.take() {
        Ok(Some(flight)) => flight,
        Ok(None) => return Ok(false),
        Err(refusal) => return Err(refusal),
    };
    let (report, note) = probe(plan, prober, ticket.device, &seen);
    keeper.check();
    match keeper.finish(&ticket, report) {
        Ok(Reply::Bound | Reply::Failed) => {
            put(notes, ticket.device, Some(note));
            Ok(true)
        }
        Ok(_) => Ok(true),
        Err(_) => unreachable!(),
    }
}

// Probes what is due, until nothing is.
fn drain<P: Prober>(
    keeper: &mut Keeper,
    plan: &Plan,
    prober: &P,
    notes: &mut Vec<Option<P::Note>>,
) -> Result<(), Refusal>
    requires plan { keeper.old.plan ≡ plan.now }
    requires landed { IsLanded keeper.old }
    requires few { abandons keeper.old ≤ length plan.now }
    requires notes { AreNotes (P.attests prober.now plan.now) plan.now notes.old.items }
    ensures plan { keeper.new.plan ≡ plan.now }
    ensures quiet { OnOk result (is_quiet keeper.new.plan keeper.new.state ≡ true) }
    ensures notes { AreNotes (P.attests prober.now plan.now) plan.now notes.new.items }
    ensures err { IfErr result (λ refusal. refusal ≡ NoMemory) }
{
    'driving: while drive(keeper, plan, prober, notes)? {}
    Ok(())
}

// Drops the flights that are left, probes what is due, leaves a note of each device that has settled, and gives the report. The
// keeper and the notes are lent, so that no way out has to drop them.
fn end_alone<P: Prober>(
    alloc: Global,
    plan: &Plan,
    prober: &P,
    keeper: &mut Keeper,
    notes: &mut Vec<Option<P::Note>>,
) -> Result<Vec<u8>, Refusal>
    requires plan { keeper.old.plan ≡ plan.now }
    requires unabandoned { abandons keeper.old ≡ 0 }
    requires notes { AreNotes (P.attests prober.now plan.now) plan.now notes.old.items }
    ensures ran { IfOk result (λ report. IsRun (P.attests prober.now plan.now) plan.now report.items notes.new.items) }
    ensures err { IfErr result (λ refusal. refusal ≡ NoMemory) }
{
    drop_flights(keeper, plan.len());
    drain(keeper, plan, prober, notes)?;
    settle_notes(keeper, plan, prober, notes);
    keeper.core().check();
    let report = keeper.report(alloc)?;
    Ok(report)
}

/// Ends a run from nothing: drops the flights that are left, probes what is due, and leaves a note of each device that has
/// settled.
pub fn finish_alone<P: Prober>(
    alloc: Global,
    plan: &Plan,
    prober: &P,
    mut keeper: Keeper,
    mut notes: Vec<Option<P::Note>>,
) -> Result<Ran<P::Note>, Refusal>
    requires plan { keeper.plan ≡ plan.now }
    requires unabandoned { abandons keeper ≡ 0 }
    requires notes { AreNotes (P.attests prober.now plan.now) plan.now notes.items }
    ensures ran { IfOk result (λ ran. IsRun (P.attests prober.now plan.now) plan.now ran.report.items ran.notes.items) }
    ensures err { IfErr result (λ refusal. refusal ≡ NoMemory) }
{
    let ended = end_alone(alloc, plan, prober, &mut keeper, &mut notes);
    drop(keeper);
    match ended {
        Ok(report) => Ok(Ran { report, notes }),
        Err(refusal) => Err(refusal),
    }
}
