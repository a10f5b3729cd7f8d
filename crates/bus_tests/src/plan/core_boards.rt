//! Boards that go on from a core: with what words they open, and where they end.

ghost use Rattle.bus_board.specs.Shown.{IsOf};

use crate::plan::boards::{UART_AND_CLOCK, clk, uart};
use crate::plan::seats::{closes, looks, settles, takes, wakes};
use bus_board::{Board, Seat, Word};
use bus_core::{Core, Refusal, Reply, Status, read_schedule, replay};
use bus_plan::{Device, read_plan};
use std::alloc::Global;
use std::hash::RandomState;
use std::process::Abort;

// The core of a plan after a schedule.
fn core_after(
    rt: &impl Abort,
    alloc: Global,
    hasher: RandomState,
    plan: &str,
    schedule: &str,
) -> Core {
    let plan = read_plan(alloc, hasher, plan.as_bytes()).expect(rt, "a plan");
    let events = read_schedule(alloc, &plan, schedule.as_bytes()).expect(rt, "a schedule");
    replay(alloc, plan, events.as_slice())
        .ok()
        .expect(rt, "a core")
}

fn opens(rt: &impl Abort, alloc: Global, core: Core) -> (Board, Seat)
    ensures { IsOf result.0 result.1 }
{
    Board::open_core(alloc, core).ok().expect(rt, "a board")
}

const MISSED: &str = "begin /uart\nfinish /uart missing /clk\n";

const MISSED_THEN_BOUND: &str =
    "begin /uart\nfinish /uart missing /clk\nbegin /clk\nfinish /clk settled\n";

// The uart is taken as WOKEN: it finds its clock bound and settles.
fn uart_settles(rt: &impl Abort, alloc: Global, board: &Board, seat: &mut Seat)
    requires { IsOf board.now seat.old }
    ensures { IsOf board.now seat.new }
{
    takes(rt, alloc, board, seat, Ok(Some(uart())));
    looks(rt, board, seat, clk(), Ok(true));
    settles(rt, board, seat, Ok(Reply::Bound));
    wakes(board, seat);
    takes(rt, alloc, board, seat, Ok(None));
}

/// The clock is bound and the uart was begun and is ready: nothing else is left to take.
#[test]
fn a_core_goes_on(rt: HostRuntime) {
    let hasher = RandomState::new(&rt).expect(&rt, "a seed");
    let core = core_after(&rt, rt.alloc(), hasher, UART_AND_CLOCK, MISSED_THEN_BOUND);
    let (board, mut seat) = opens(&rt, rt.alloc(), core);
    uart_settles(&rt, rt.alloc(), &board, &mut seat);
    closes(&rt, board, seat, &[Word::Bound, Word::Bound], true);
}

/// The uart waits: it isn't taken before its clock is bound.
#[test]
fn a_core_waits(rt: HostRuntime) {
    let hasher = RandomState::new(&rt).expect(&rt, "a seed");
    let core = core_after(&rt, rt.alloc(), hasher, UART_AND_CLOCK, MISSED);
    let (board, mut seat) = opens(&rt, rt.alloc(), core);
    takes(&rt, rt.alloc(), &board, &mut seat, Ok(Some(clk())));
    settles(&rt, &board, &mut seat, Ok(Reply::Bound));
    takes(&rt, rt.alloc(), &board, &mut seat, Ok(None));
    wakes(&board, &mut seat);
    uart_settles(&rt, rt.alloc(), &board, &mut seat);
    closes(&rt, board, seat, &[Word::Bound, Word::Bound], true);
}

// The device's flight is open, and is abandoned.
fn drops_flight(rt: &impl Abort, core: &mut Core, device: Device) {
    assert!(rt; device.index() < core.plan().len(), "no such device");
    assert_eq!(rt; core.status(device), Status::Probing);
    assert!(rt; core.abandon(device).is_ok(), "no flight is open");
}

/// With a flight open the same core comes back, and once the flight is gone it opens: its device was begun and is ready.
#[test]
fn a_core_with_a_flight(rt: HostRuntime) {
    let hasher = RandomState::new(&rt).expect(&rt, "a seed");
    let core = core_after(&rt, rt.alloc(), hasher, UART_AND_CLOCK, "begin /clk\n");
    let (mut core, refusal) = Board::open_core(rt.alloc(), core)
        .err()
        .expect(&rt, "a board over a flight");
    assert_eq!(&rt; refusal, Refusal::NotIdle);
    assert_eq!(&rt; refusal.number(), 60);
    drops_flight(&rt, &mut core, clk());
    let (board, seat) = opens(&rt, rt.alloc(), core);
    closes(&rt, board, seat, &[Word::Fresh, Word::Woken], false);
}

/// Each other word: a failed device, one without a driver, one that isn't available, and one that was never begun.
#[test]
fn a_core_opens_with_each_word(rt: HostRuntime) {
    let hasher = RandomState::new(&rt).expect(&rt, "a seed");
    let plan = "/a x fail\n/b - -\n/c ! -\n/d x ok /a\n/e x ok /d\n";
    let schedule = "begin /a\nfinish /a settled\nbegin /d\nfinish /d missing /a\n";
    let core = core_after(&rt, rt.alloc(), hasher, plan, schedule);
    let (board, seat) = opens(&rt, rt.alloc(), core);
    closes(
        &rt,
        board,
        seat,
        &[
            Word::Failed,
            Word::Unmatched,
            Word::Unmatched,
            Word::Waiting,
            Word::Fresh,
        ],
        false,
    );
}
