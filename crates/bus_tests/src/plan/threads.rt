//! Row board-refusals with each seat in threads of its own, which hand the seat back by joins.

ghost use Rattle.bus_board.specs.Shown.{IsOf};

use crate::plan::boards::{UART_AND_CLOCK, clk, first_is_refused, first_settles, second_settles};
use crate::plan::seats::{closes, further, gives_back, looks, open, takes};
use bus_board::{Board, Seat, Word};
use bus_core::Refusal;
use std::alloc::Global;
use std::hash::RandomState;
use std::process::Abort;
use std::thread::{Threads, join};

fn one_begins(rt: &impl Abort, alloc: Global, board: &Board, mut one: Seat) -> Seat
    requires { IsOf board.now one }
    ensures { IsOf board.now result }
{
    first_is_refused(rt, alloc, board, &mut one);
    one
}

fn one_ends(rt: &impl Abort, alloc: Global, board: &Board, mut one: Seat) -> Seat
    requires { IsOf board.now one }
    ensures { IsOf board.now result }
{
    first_settles(rt, board, &mut one);
    takes(rt, alloc, board, &mut one, Ok(None));
    one
}

fn two_begins(rt: &impl Abort, board: &Board, mut two: Seat) -> Seat
    requires { IsOf board.now two }
    ensures { IsOf board.now result }
{
    looks(rt, board, &mut two, clk(), Err(Refusal::NotInFlight));
    two
}

fn two_goes_on(rt: &impl Abort, alloc: Global, board: &Board, mut two: Seat) -> Seat
    requires { IsOf board.now two }
    ensures { IsOf board.now result }
{
    second_settles(rt, alloc, board, &mut two);
    two
}

fn two_ends(rt: &impl Abort, alloc: Global, board: &Board, mut two: Seat) -> Seat
    requires { IsOf board.now two }
    ensures { IsOf board.now result }
{
    takes(rt, alloc, board, &mut two, Ok(None));
    two
}

// Seat 1 takes the uart, while seat 2 has no flight.
fn both_begin<R: Threads + Abort + Sync>(
    rt: &R,
    alloc: Global,
    board: &Board,
    one: Seat,
    two: Seat,
) -> (Seat, Seat)
    requires { IsOf board.now one × IsOf board.now two }
    ensures { IsOf board.now result.0 × IsOf board.now result.1 }
{
    let first = move || -> Seat
        requires { IsOf board.now one }
        ensures { IsOf board.entry.now result }
    { one_begins(rt, alloc, board, one) };
    let second = move || -> Seat
        requires { IsOf board.now two }
        ensures { IsOf board.entry.now result }
    { two_begins(rt, board, two) };
    join(rt, first, second)
}

// Seat 2 settles the clock, in a thread that ends before seat 1 looks at it.
fn second_goes_on<R: Threads + Abort + Sync>(
    rt: &R,
    alloc: Global,
    board: &Board,
    two: Seat,
) -> Seat
    requires { IsOf board.now two }
    ensures { IsOf board.now result }
{
    let second = move || -> Seat
        requires { IsOf board.now two }
        ensures { IsOf board.entry.now result }
    { two_goes_on(rt, alloc, board, two) };
    let (two, ()) = join(rt, second, || ());
    two
}

// Seat 1 settles the uart, and then nothing is left for either seat.
fn both_end<R: Threads + Abort + Sync>(
    rt: &R,
    alloc: Global,
    board: &Board,
    one: Seat,
    two: Seat,
) -> (Seat, Seat)
    requires { IsOf board.now one × IsOf board.now two }
    ensures { IsOf board.now result.0 × IsOf board.now result.1 }
{
    let first = move || -> Seat
        requires { IsOf board.now one }
        ensures { IsOf board.entry.now result }
    { one_ends(rt, alloc, board, one) };
    let second = move || -> Seat
        requires { IsOf board.now two }
        ensures { IsOf board.entry.now result }
    { two_ends(rt, alloc, board, two) };
    join(rt, first, second)
}

#[test]
fn board_refusals_in_threads(rt: HostRuntime) {
    let hasher = RandomState::new(&rt).expect(&rt, "a seed");
    let (board, mut one) = open(&rt, rt.alloc(), hasher, UART_AND_CLOCK);
    let two = further(&rt, rt.alloc(), &board, &mut one);
    let (one, two) = both_begin(&rt, rt.alloc(), &board, one, two);
    let two = second_goes_on(&rt, rt.alloc(), &board, two);
    let (mut one, two) = both_end(&rt, rt.alloc(), &board, one, two);
    gives_back(&rt, &board, &mut one, two);
    closes(&rt, board, one, &[Word::Bound, Word::Bound], true);
}
