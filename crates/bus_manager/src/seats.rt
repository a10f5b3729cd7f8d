//! The workers of a run over a board, each with a seat of its own. A worker that finds more to take than it can do lets a
//! further one begin, while fewer are at work than were asked for: at the start, and again where a device's bind wakes many and
//! the others have left.

ghost use Rattle.std.specs.Prelude.{◌≡◌, [], IfSome};
ghost use Rattle.std.specs.Thread.{IsSync};
ghost use Rattle.bus_manager.specs.Private.Flying.{IsFree, IsWorked};
ghost use Rattle.bus_manager.specs.Private.Notes.{AreAttested};

use crate::crew::Crew;
use crate::flying::fly_on;
use crate::notes::add_notes;
use crate::prober::Prober;
use crate::worker::Noted;
use bus_board::{Board, Seat};
use bus_plan::Plan;
use std::alloc::Global;
use std::thread;
use std::thread::Threads;

/// How often a worker and those that it lets begin may let further ones begin, one after the other.
pub const MAX_FORKS: usize = 256;

/// What a worker has and leaves: its seat, and the notes of the devices that settled by it.
#[derive(Drop)]
pub struct Worked<N> {
    pub seat: Seat,
    pub notes: Vec<Noted<N>>,
}

// A further worker, which has done nothing yet. None where memory for its seat is refused.
fn further<N: Drop>(alloc: Global, board: &Board, crew: &Crew, seat: &mut Seat) -> Option<Worked<N>>
    requires { IsFree board.now seat.old }
    ensures seat { IsFree board.now seat.new }
    ensures free { IfSome result (λ worked. IsFree board.now worked.seat) }
    ensures notes { IfSome result (λ worked. worked.notes.items ≡ []) }
{
    match board.seat(alloc, seat) {
        Ok(seat) => Some(Worked {
            seat,
            notes: Vec::new(alloc),
        }),
        Err(_) => {
            crew.leave();
            crew.run_short();
            None
        }
    }
}

// One worker out of two: the other's seat is given back to the first one's, and its notes go behind the first one's, or are
// lost where memory for them is refused.
fn land<P: Prober>(
    board: &Board,
    plan: &Plan,
    prober: &P,
    own: Worked<P::Note>,
    other: Worked<P::Note>,
) -> Worked<P::Note>
    requires own { IsFree board.now own.seat }
    requires other { IsFree board.now other.seat }
    requires own_notes { AreAttested (P.attests prober.now plan.now) plan.now own.notes.items }
    requires other_notes { AreAttested (P.attests prober.now plan.now) plan.now other.notes.items }
    ensures free { IsFree board.now result.seat }
    ensures notes { AreAttested (P.attests prober.now plan.now) plan.now result.notes.items }
{
    let Worked {
        mut seat,
        mut notes,
    } = own;
    let Worked {
        seat: left,
        notes: found,
    } = other;
    match board.give_back(&mut seat, left) {
        Ok(()) => {}
        Err(_) => unreachable!(),
    }
    add_notes(plan, prober, &mut notes, found);
    Worked { seat, notes }
}

/// One worker, and those that it lets begin. The number of times that each of them still may falls, which bounds how deep they
/// stand in one another.
#[cycle(workers)]
pub fn work<P: Prober, R: Threads + Sync>(
    rt: &R,
    alloc: Global,
    board: &Board,
    plan: &Plan,
    prober: &P,
    crew: &Crew,
    mut own: Worked<P::Note>,
    forks: usize,
) -> Worked<P::Note>
    requires plan { board.now.plan ≡ plan.now }
    requires free { IsFree board.now own.seat }
    requires notes { AreAttested (P.attests prober.now plan.now) plan.now own.notes.items }
    ensures free { IsFree board.now result.seat }
    ensures notes { AreAttested (P.attests prober.now plan.now) plan.now result.notes.items }
{
    if !fly_on(alloc, board, plan, prober, crew, forks, &mut own) {
        crew.leave();
        return own;
    }
    let fewer = forks - 1;
    let Some(other) = further(alloc, board, crew, &mut own.seat) else {
        return work(rt, alloc, board, plan, prober, crew, own, fewer);
    };
    let second = move || -> Worked<P::Note>
        requires { IsSync R.row × (board.now.plan ≡ plan.now)
            × IsWorked (P.attests prober.now plan.now) plan.now board.now other }
        ensures { IsWorked (P.attests prober.entry.now plan.entry.now) plan.entry.now board.entry.now result }
    { work(rt, alloc, board, plan, prober, crew, other, fewer) };
    let first = move || -> Worked<P::Note>
        requires { IsSync R.row × (board.now.plan ≡ plan.now)
            × IsWorked (P.attests prober.now plan.now) plan.now board.now own }
        ensures { IsWorked (P.attests prober.entry.now plan.entry.now) plan.entry.now board.entry.now result }
    { work(rt, alloc, board, plan, prober, crew, own, fewer) };
    let (theirs, mine) = thread::join(rt, second, first);
    land(board, plan, prober, mine, theirs)
}
