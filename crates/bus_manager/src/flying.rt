//! The flights of one seat of a board: each looks at its device's suppliers, probes it, and ends.

ghost use Rattle.std.specs.Prelude.{◌≡◌, ◌<◌, ◌+◌, IfSome, IfNone, Some, None, true, [], slice_get, vec_len, vec_capacity};
ghost use Rattle.bus_plan.specs.Plan.{suppliers_of};
ghost use Rattle.bus_board.specs.Shown.{IsOf};
ghost use Rattle.bus_manager.specs.Private.Flying.{HasLooked, HasLookedAll, HasTaken, IsFree};
ghost use Rattle.bus_manager.specs.Private.Notes.{AreAttested, AreForced, IsShown};
ghost use Rattle.bus_manager.specs.Prober.{IsLawfulReport};
ghost use Rattle.bus_manager.specs.Seen.{sees};

use crate::crew::Crew;
use crate::keeper::append;
use crate::prober::{Prober, probe};
use crate::seats::Worked;
use crate::seen::Seen;
use crate::worker::Noted;
use bus_board::{Board, Seat};
use bus_core::Report;
use bus_plan::{Device, MAX_DEVICES, Plan};
use std::alloc::Global;

// Looks at the next supplier, and notes in the set what it found.
fn look_at(
    board: &Board,
    plan: &Plan,
    seat: &mut Seat,
    seen: &mut Seen,
    device: Device,
    index: usize,
    supplier: Device,
)
    requires plan { board.now.plan ≡ plan.now }
    requires of { IsOf board.now seat.old }
    requires looked { HasLooked seat.old.view device seen.old (suppliers_of plan.now device) index }
    requires next { slice_get (suppliers_of plan.now device) index ≡ Some supplier }
    requires room { supplier < MAX_DEVICES }
    requires forced { AreForced plan.now (sees seen.old) }
    ensures forced { AreForced plan.now (sees seen.new) }
    ensures of { IsOf board.now seat.new }
    ensures looked { HasLooked seat.new.view device seen.new (suppliers_of plan.now device) (index + 1) }
    ensures owed { seat.new.view.owed ≡ seat.old.view.owed }
{
    match board.look(seat, supplier) {
        Ok(bound) => seen.put(supplier, bound),
        Err(_) => unreachable!(),
    }
}

// Looks at each supplier: the set has those that were found bound.
fn look_round(board: &Board, plan: &Plan, seat: &mut Seat, device: Device) -> Seen
    requires plan { board.now.plan ≡ plan.now }
    requires taken { HasTaken board.now seat.old device }
    ensures of { IsOf board.now seat.new }
    ensures looked { HasLookedAll seat.new.view device result (suppliers_of plan.now device) }
    ensures forced { AreForced plan.now (sees result) }
    ensures owed { seat.new.view.owed ≡ [] }
{
    plan.check();
    let mut seen = Seen::new();
    let suppliers = plan.suppliers(device);
    for index in 0..suppliers.len() {
        look_at(
            board,
            plan,
            seat,
            &mut seen,
            device,
            index,
            suppliers[index],
        );
    }
    seen
}

// Ends the flight by what its probe found, and says whether its device has settled, as it does by such a report alone.
fn end_flight(
    board: &Board,
    plan: &Plan,
    seat: &mut Seat,
    device: Device,
    seen: &Seen,
    report: Report,
) -> bool
    requires plan { board.now.plan ≡ plan.now }
    requires of { IsOf board.now seat.old }
    requires looked { HasLookedAll seat.old.view device seen.now (suppliers_of plan.now device) }
    requires lawful { IsLawfulReport plan.now (sees seen.now) device report }
    ensures of { IsOf board.now seat.new }
    ensures ended { seat.new.view.flight ≡ None }
    ensures settled { result ≡ true → report ≡ Report.Settled }
{
    match report {
        Report::Settled => match board.settle(seat) {
            Ok(_) => true,
            Err(_) => unreachable!(),
        },
        Report::Missing(supplier) => match board.defer(seat, supplier) {
            Ok(()) => false,
            Err(_) => unreachable!(),
        },
    }
}

// Probes the device that the seat has taken, and gives the probe's note where the device has settled.
fn fly<P: Prober>(
    board: &Board,
    plan: &Plan,
    prober: &P,
    seat: &mut Seat,
    device: Device,
) -> Option<P::Note>
    requires plan { board.now.plan ≡ plan.now }
    requires taken { HasTaken board.now seat.old device }
    ensures free { IsFree board.now seat.new }
    ensures note { IfSome result (IsShown (P.attests prober.now plan.now device) plan.now device) }
{
    let seen = look_round(board, plan, seat, device);
    let (report, note) = probe(plan, prober, device, &seen);
    let is_settled = end_flight(board, plan, seat, device, &seen, report);
    board.wake_owed(seat);
    if is_settled { Some(note) } else { None }
}

// The device that the seat takes. None where nothing is left to take, or memory is refused.
fn take(alloc: Global, board: &Board, crew: &Crew, seat: &mut Seat) -> Option<Device>
    requires { IsFree board.now seat.old }
    ensures some { IfSome result (λ device. HasTaken board.now seat.new device) }
    ensures none { IfNone result (IsFree board.now seat.new) }
{
    match board.take(alloc, seat) {
        Ok(Some(device)) => Some(device),
        Ok(None) => None,
        Err(_) => {
            crew.run_short();
            None
        }
    }
}

// Probes the device that the worker has taken. Where it settles its note goes into room that is there.
fn fly_once<P: Prober>(
    board: &Board,
    plan: &Plan,
    prober: &P,
    own: &mut Worked<P::Note>,
    device: Device,
)
    requires plan { board.now.plan ≡ plan.now }
    requires taken { HasTaken board.now own.old.seat device }
    requires room { vec_len own.old.notes < vec_capacity own.old.notes }
    requires notes { AreAttested (P.attests prober.now plan.now) plan.now own.old.notes.items }
    ensures free { IsFree board.now own.new.seat }
    ensures notes { AreAttested (P.attests prober.now plan.now) plan.now own.new.notes.items }
{
    let Some(note) = fly(board, plan, prober, &mut own.seat, device) else {
        return;
    };
    append(&mut own.notes, Noted { device, note });
}

/// One seat's flights, until nothing is left to take, memory is refused, or there is work for a further worker that may begin.
/// It says whether that is so. Each device that settles by it leaves its note.
pub fn fly_on<P: Prober>(
    alloc: Global,
    board: &Board,
    plan: &Plan,
    prober: &P,
    crew: &Crew,
    forks: usize,
    own: &mut Worked<P::Note>,
) -> bool
    requires plan { board.now.plan ≡ plan.now }
    requires free { IsFree board.now own.old.seat }
    requires notes { AreAttested (P.attests prober.now plan.now) plan.now own.old.notes.items }
    ensures free { IsFree board.now own.new.seat }
    ensures notes { AreAttested (P.attests prober.now plan.now) plan.now own.new.notes.items }
    ensures forks { result ≡ true → 0 < forks }
{
    plan.check();
    // a device is claimed twice at most, so the last take finds nothing
    for _flight in 0..2 * plan.len() + 1 {
        if forks > 0 && crew.has_room() && board.has_spare() && crew.enlist() {
            return true;
        }
        // the note's room first, so that no flight is left for want of it
        match own.notes.reserve(1) {
            Ok(()) => {}
            Err(_) => {
                crew.run_short();
                break;
            }
        }
        let Some(device) = take(alloc, board, crew, &mut own.seat) else {
            break;
        };
        fly_once(board, plan, prober, own, device);
    }
    false
}
