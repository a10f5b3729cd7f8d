//! The workers of a run with a lock: each takes under the lock, probes without it, and finishes under it. A worker that leaves a
//! due device behind wakes one that waits; where none waits it lets a further one begin, while fewer are at work than were asked
//! for.

ghost use Rattle.std.specs.Prelude.{◌≡◌, ◌<◌, IfSome, Some, length, vec_len, vec_capacity};
ghost use Rattle.std.specs.Thread.{IsSync};
ghost use Rattle.bus_manager.specs.Private.Locked.{HasRoom, IsFlightOf};
ghost use Rattle.bus_manager.specs.Private.Notes.{AreAttested};

use crate::keeper::append;
use crate::manager::{Flight, Manager, PlanName};
use crate::notes::add_notes;
use crate::prober::{Prober, probe};
use bus_plan::{Device, Plan};
use std::alloc::Global;
use std::sync::Wait;
use std::thread;
use std::thread::Threads;

/// A note with its device.
#[derive(Drop)]
pub struct Noted<N> {
    pub device: Device,
    pub note: N,
}

// Probes the device of a flight and ends it. Where the device settles its note goes into room that is there.
fn fly<J: PlanName, P: Prober, R: Wait>(
    rt: &R,
    manager: &Manager<J>,
    plan: &Plan,
    prober: &P,
    flight: Flight,
    notes: &mut Vec<Noted<P::Note>>,
)
    requires plan { plan.now ≡ J.plan }
    requires flight { IsFlightOf plan.now flight }
    requires room { vec_len notes.old < vec_capacity notes.old }
    requires notes { AreAttested (P.attests prober.now plan.now) plan.now notes.old.items }
    ensures { AreAttested (P.attests prober.now plan.now) plan.now notes.new.items }
{
    let Flight {
        ticket,
        seen,
        more: _,
    } = flight;
    let device = ticket.device;
    let (report, note) = probe(plan, prober, device, &seen);
    if manager.finish(rt, &ticket, report) {
        append(notes, Noted { device, note });
    }
}

// What a worker does first: it flies what it has taken already, or it has just begun.
fn begin<J: PlanName, P: Prober, R: Wait>(
    rt: &R,
    manager: &Manager<J>,
    plan: &Plan,
    prober: &P,
    flight: Option<Flight>,
    notes: &mut Vec<Noted<P::Note>>,
)
    requires plan { plan.now ≡ J.plan }
    requires room { HasRoom plan.now flight (vec_len notes.old) (vec_capacity notes.old) }
    requires notes { AreAttested (P.attests prober.now plan.now) plan.now notes.old.items }
    ensures { AreAttested (P.attests prober.now plan.now) plan.now notes.new.items }
{
    match flight {
        Some(flight) => fly(rt, manager, plan, prober, flight, notes),
        None => manager.arrive(),
    }
}

// One worker's flights, until there will be none, memory is refused, or a further worker begins: it gives the flight that it
// has taken then. Each device that settles by it leaves its note.
fn fly_on<J: PlanName, P: Prober, R: Wait>(
    rt: &R,
    manager: &Manager<J>,
    plan: &Plan,
    prober: &P,
    forks: usize,
    notes: &mut Vec<Noted<P::Note>>,
) -> Option<Flight>
    requires plan { plan.now ≡ J.plan }
    requires notes { AreAttested (P.attests prober.now plan.now) plan.now notes.old.items }
    ensures room { HasRoom plan.now result (vec_len notes.new) (vec_capacity notes.new) }
    ensures notes { AreAttested (P.attests prober.now plan.now) plan.now notes.new.items }
    ensures forks { IfSome result (λ flight. 0 < forks) }
{
    for _ in rt.forever() {
        // the note's room first, so that no flight is left for want of it
        match notes.reserve(1) {
            Ok(()) => {}
            Err(_) => {
                manager.leave();
                break;
            }
        }
        let Some((flight, joined)) = manager.take(rt, forks) else {
            break;
        };
        if joined {
            return Some(flight);
        }
        fly(rt, manager, plan, prober, flight, notes);
    }
    None
}

/// One worker, who may have taken a flight, and those that it lets begin: the notes of the devices that settled by them. The
/// number of times that each of them may let one begin falls, which bounds how deep they stand in one another. Where no thread
/// can be made the worker with the flight goes on first.
#[cycle(workers)]
pub fn work<J: PlanName + Send + Sync, P: Prober, R: Threads + Wait + Sync>(
    rt: &R,
    alloc: Global,
    manager: &Manager<J>,
    plan: &Plan,
    prober: &P,
    flight: Option<Flight>,
    mut notes: Vec<Noted<P::Note>>,
    forks: usize,
) -> Vec<Noted<P::Note>>
    requires plan { plan.now ≡ J.plan }
    requires room { HasRoom plan.now flight (vec_len notes) (vec_capacity notes) }
    requires notes { AreAttested (P.attests prober.now plan.now) plan.now notes.items }
    ensures { AreAttested (P.attests prober.now plan.now) plan.now result.items }
{
    begin(rt, manager, plan, prober, flight, &mut notes);
    let Some(flight) = fly_on(rt, manager, plan, prober, forks, &mut notes) else {
        return notes;
    };
    let fewer = forks - 1;
    let second = move || -> Vec<Noted<P::Note>>
        requires { IsSync R.row × IsSync J.row × (plan.now ≡ J.plan) }
        ensures { AreAttested (P.attests prober.entry.now plan.entry.now) plan.entry.now result.items }
    {
        work(
            rt,
            alloc,
            manager,
            plan,
            prober,
            None,
            Vec::new(alloc),
            fewer,
        )
    };
    let first = move || -> Vec<Noted<P::Note>>
        requires { IsSync R.row × IsSync J.row × (plan.now ≡ J.plan)
            × HasRoom plan.now (Some flight) (vec_len notes) (vec_capacity notes)
            × AreAttested (P.attests prober.now plan.now) plan.now notes.items }
        ensures { AreAttested (P.attests prober.entry.now plan.entry.now) plan.entry.now result.items }
    { work(rt, alloc, manager, plan, prober, Some(flight), notes, fewer) };
    let (theirs, mut mine) = thread::join(rt, second, first);
    add_notes(plan, prober, &mut mine, theirs);
    mine
}
