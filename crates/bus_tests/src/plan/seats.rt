//! One line of a board's row each: a seat makes a call and is answered.

ghost use Rattle.bus_board.specs.Shown.{IsOf};

use bus_board::{Board, Seat, Word};
use bus_core::{Refusal, Reply};
use bus_plan::{Device, read_plan};
use std::alloc::Global;
use std::hash::RandomState;
use std::process::Abort;

/// A board over the plan of this text, and its first seat.
pub fn open(rt: &impl Abort, alloc: Global, hasher: RandomState, text: &str) -> (Board, Seat)
    ensures { IsOf result.0 result.1 }
{
    let plan = read_plan(alloc, hasher, text.as_bytes()).expect(rt, "a plan");
    Board::open(alloc, plan).expect(rt, "a board")
}

pub fn further(rt: &impl Abort, alloc: Global, board: &Board, seat: &mut Seat) -> Seat
    requires { IsOf board.now seat.old }
    ensures same { IsOf board.now seat.new }
    ensures new { IsOf board.now result }
{
    board.seat(alloc, seat).expect(rt, "a seat")
}

pub fn takes(
    rt: &impl Abort,
    alloc: Global,
    board: &Board,
    seat: &mut Seat,
    answer: Result<Option<Device>, Refusal>,
)
    requires { IsOf board.now seat.old }
    ensures { IsOf board.now seat.new }
{
    let taken = board.take(alloc, seat);
    assert_eq!(rt; taken, answer);
}

pub fn looks(
    rt: &impl Abort,
    board: &Board,
    seat: &mut Seat,
    supplier: Device,
    answer: Result<bool, Refusal>,
)
    requires { IsOf board.now seat.old }
    ensures { IsOf board.now seat.new }
{
    let found = board.look(seat, supplier);
    assert_eq!(rt; found, answer);
}

pub fn settles(rt: &impl Abort, board: &Board, seat: &mut Seat, answer: Result<Reply, Refusal>)
    requires { IsOf board.now seat.old }
    ensures { IsOf board.now seat.new }
{
    let reply = board.settle(seat);
    assert_eq!(rt; reply, answer);
}

pub fn defers(
    rt: &impl Abort,
    board: &Board,
    seat: &mut Seat,
    supplier: Device,
    answer: Result<(), Refusal>,
)
    requires { IsOf board.now seat.old }
    ensures { IsOf board.now seat.new }
{
    let deferred = board.defer(seat, supplier);
    assert_eq!(rt; deferred, answer);
}

pub fn wakes(board: &Board, seat: &mut Seat)
    requires { IsOf board.now seat.old }
    ensures { IsOf board.now seat.new }
{
    board.wake_owed(seat);
}

pub fn gives_back(rt: &impl Abort, board: &Board, into: &mut Seat, seat: Seat)
    requires into { IsOf board.now into.old }
    requires seat { IsOf board.now seat }
    ensures { IsOf board.now into.new }
{
    let given = board.give_back(into, seat);
    assert!(rt; given.is_ok(), "the seat came back");
}

/// The seat has a flight, or owes: it comes back.
pub fn keeps(rt: &impl Abort, board: &Board, into: &mut Seat, seat: Seat) -> Seat
    requires into { IsOf board.now into.old }
    requires seat { IsOf board.now seat }
    ensures into { IsOf board.now into.new }
    ensures seat { IsOf board.now result }
{
    let (seat, refusal) = board
        .give_back(into, seat)
        .err()
        .expect(rt, "the seat was taken back");
    assert_eq!(rt; refusal, Refusal::NotIdle);
    seat
}

pub fn closes(rt: &impl Abort, board: Board, seat: Seat, words: &[Word], quiet: bool)
    requires { IsOf board seat }
{
    let end = board.close(seat);
    assert_eq!(rt; end.words.as_slice(), words);
    assert_eq!(rt; end.quiet, quiet);
}
