//! What the caller of a run over a board does, before and after its workers.

ghost use Rattle.std.specs.Prelude.{◌≡◌, ℕ, true, length, IfOk, IfErr};
ghost use Rattle.bus_core.specs.Least.{IsLeast};
ghost use Rattle.bus_core.specs.Report.{end_status};
ghost use Rattle.bus_core.specs.declared.refusal.Refusal.TheVariants.{NoMemory};
ghost use Rattle.bus_board.specs.Ends.{EndsAs};
ghost use Rattle.bus_board.specs.declared.view.View.{View};
ghost use Rattle.bus_manager.specs.Private.BoardEnd.{bound_by_words};
ghost use Rattle.bus_manager.specs.Private.Flying.{IsFree};
ghost use Rattle.bus_manager.specs.Private.Notes.{AreAttested, AreNoted, AreNotes, HasRun};
ghost use Rattle.bus_manager.specs.Seen.{sees};
ghost use Rattle.bus_manager.specs.Run.{IsRun};

use crate::crew::Crew;
use crate::end_report::{end_report, end_status, is_bound};
use crate::notes::{Ran, leaves_note, no_notes, place_some, settle_note};
use crate::prober::Prober;
use crate::seats::{MAX_FORKS, Worked, work};
use crate::seen::Seen;
use bus_board::{Board, Seat, Word};
use bus_core::Refusal;
use bus_plan::{Device, Plan};
use std::alloc::Global;
use std::thread::Threads;

// The devices whose words are BOUND.
fn bound_devices(plan: &Plan, words: &[Word]) -> Seen
    requires { length words.now ≡ length plan.now }
    ensures { (d : ℕ) → sees result d ≡ bound_by_words words.now d }
{
    plan.check();
    let mut seen = Seen::new();
    for index in 0..plan.len() {
        let device = Device::new(index);
        seen.put(device, is_bound(words, device));
    }
    seen
}

// Leaves a note of each device that has settled and hadn't before the run, where the words are those of a quiet board.
fn settle_by_words<P: Prober>(
    plan: &Plan,
    prober: &P,
    words: &[Word],
    before: &Seen,
    notes: &mut Vec<Option<P::Note>>,
)
    requires wide { length words.now ≡ length plan.now }
    requires least { IsLeast plan.now (bound_by_words words.now) }
    requires notes { AreNotes (P.attests prober.now plan.now) plan.now notes.old.items }
    ensures notes { AreNotes (P.attests prober.now plan.now) plan.now notes.new.items }
    ensures noted { AreNoted plan.now (sees before.now) (end_status plan.now (bound_by_words words.now)) notes.new.items }
{
    let seen = bound_devices(plan, words);
    for index in 0..plan.len() {
        let device = Device::new(index);
        let status = end_status(plan, words, device);
        let settled = leaves_note(before.contains(device), status);
        settle_note(plan, prober, notes, device, settled, &seen);
    }
}

// The end of a run whose board was quiet.
fn finish_quiet<P: Prober>(
    alloc: Global,
    plan: &Plan,
    prober: &P,
    before: &Seen,
    words: &[Word],
    mut notes: Vec<Option<P::Note>>,
) -> Result<Ran<P::Note>, Refusal>
    requires ends { (v : View) × EndsAs plan.now v words.now true }
    requires notes { AreNotes (P.attests prober.now plan.now) plan.now notes.items }
    ensures ran { IfOk result (HasRun (P.attests prober.now plan.now) (sees before.now) plan.now) }
    ensures err { IfErr result (λ refusal. refusal ≡ NoMemory) }
{
    settle_by_words(plan, prober, words, before, &mut notes);
    let report = end_report(alloc, plan, words)?;
    Ok(Ran { report, notes })
}

// Ends a run. The board is quiet, unless memory was refused to the caller when it went on alone.
fn finish<P: Prober>(
    alloc: Global,
    plan: &Plan,
    prober: &P,
    before: &Seen,
    board: Board,
    own: Seat,
    notes: Vec<Option<P::Note>>,
) -> Result<Ran<P::Note>, Refusal>
    requires plan { board.plan ≡ plan.now }
    requires own { IsFree board own }
    requires notes { AreNotes (P.attests prober.now plan.now) plan.now notes.items }
    ensures ran { IfOk result (HasRun (P.attests prober.now plan.now) (sees before.now) plan.now) }
    ensures err { IfErr result (λ refusal. refusal ≡ NoMemory) }
{
    let end = board.close(own);
    if end.quiet {
        return finish_quiet(alloc, plan, prober, before, &end.words, notes);
    }
    Err(Refusal::NoMemory)
}

// Where memory was refused to a worker, the caller goes on alone with what is left.
fn again<P: Prober, R: Threads + Sync>(
    rt: &R,
    alloc: Global,
    board: &Board,
    plan: &Plan,
    prober: &P,
    crew: &Crew,
    done: Worked<P::Note>,
) -> Worked<P::Note>
    requires plan { board.now.plan ≡ plan.now }
    requires free { IsFree board.now done.seat }
    requires notes { AreAttested (P.attests prober.now plan.now) plan.now done.notes.items }
    ensures free { IsFree board.now result.seat }
    ensures notes { AreAttested (P.attests prober.now plan.now) plan.now result.notes.items }
{
    if !crew.is_short() {
        return done;
    }
    work(rt, alloc, board, plan, prober, crew, done, 0)
}

/// A run over an open board by so many workers, the caller among them, and then by the caller alone. The devices of the set had settled before.
pub fn run_opened<P: Prober, R: Threads + Sync>(
    rt: &R,
    alloc: Global,
    plan: &Plan,
    prober: &P,
    before: &Seen,
    opened: (Board, Seat),
    workers: usize,
) -> Result<Ran<P::Note>, Refusal>
    requires plan { opened.0.plan ≡ plan.now }
    requires own { IsFree opened.0 opened.1 }
    ensures ran { IfOk result (HasRun (P.attests prober.now plan.now) (sees before.now) plan.now) }
    ensures err { IfErr result (λ refusal. refusal ≡ NoMemory) }
{
    let (board, seat) = opened;
    let mut notes = no_notes::<P::Note>(alloc, plan.len())?;
    let crew = Crew::new(workers);
    let own = Worked {
        seat,
        notes: Vec::new(alloc),
    };
    let done = work(rt, alloc, &board, plan, prober, &crew, own, MAX_FORKS);
    let Worked { seat, notes: found } = again(rt, alloc, &board, plan, prober, &crew, done);
    place_some(plan, prober, &mut notes, found);
    finish(alloc, plan, prober, before, board, seat, notes)
}

/// A run of a plan over a board on which nothing was begun.
pub fn run_boarded<P: Prober, R: Threads + Sync>(
    rt: &R,
    alloc: Global,
    plan: &Plan,
    prober: &P,
    workers: usize,
) -> Result<Ran<P::Note>, Refusal>
    ensures ran { IfOk result (λ ran. IsRun (P.attests prober.now plan.now) plan.now ran.report.items ran.notes.items) }
    ensures err { IfErr result (λ refusal. refusal ≡ NoMemory) }
{
    let opened = Board::open(alloc, plan.copy(alloc)?)?;
    run_opened(rt, alloc, plan, prober, &Seen::new(), opened, workers)
}
