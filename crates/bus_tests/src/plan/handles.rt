//! Seats behind handles, as a caller in C has them.

ghost use Rattle.std.specs.Prelude.{◌≡◌};
ghost use Rattle.bus_board.specs.Seats.Calls.{AreOfOne};
ghost use Rattle.bus_board.specs.Seats.Handles.{seated};

use crate::plan::boards::{UART_AND_CLOCK, clk};
use bus_board::seats::{SeatHandle, Told};
use bus_plan::read_plan;
use std::alloc::Global;
use std::hash::RandomState;
use std::process::Abort;
use std::thread;

const DONE: u32 = 0;

const SHORT: u32 = 1;

const REFUSED: u32 = 2;

const NOTHING: u32 = 4;

const NO_SEAT: u32 = 5;

const OCCUPIED: u32 = 6;

const SHARED: u32 = 7;

fn ends(rt: &impl Abort, told: Told, status: u32, number: u32, device: usize) {
    assert_eq!(rt; told.status, status);
    assert_eq!(rt; told.number, number);
    assert_eq!(rt; told.device, device);
}

// A board's first seat.
fn opened(rt: &impl Abort, alloc: Global, hasher: RandomState) -> SeatHandle {
    let plan = read_plan(alloc, hasher, UART_AND_CLOCK.as_bytes()).expect(rt, "a plan");
    let mut one = SeatHandle::empty(alloc);
    one.open(alloc, plan).expect(rt, "a board");
    one
}

// A further seat of the board.
fn further(rt: &impl Abort, alloc: Global, one: &mut SeatHandle) -> SeatHandle
    ensures { AreOfOne (seated one.new) (seated result) }
{
    let mut two = SeatHandle::empty(alloc);
    ends(rt, one.seat(alloc, &mut two), DONE, 0, 0);
    two
}

// The uart misses its clock, and waits.
fn uart_is_deferred(rt: &impl Abort, alloc: Global, one: &mut SeatHandle) {
    ends(rt, one.take(alloc), DONE, 0, 0);
    ends(rt, one.take(alloc), REFUSED, 60, 0);
    ends(rt, one.look(alloc, clk()), DONE, 0, 0);
    ends(rt, one.settle(alloc), REFUSED, 63, 0);
    ends(rt, one.defer(alloc, clk()), DONE, 0, 0);
    ends(rt, one.wake_owed(alloc), DONE, 0, 0);
}

// The clock binds, and wakes the uart, which binds too.
fn both_bind(rt: &impl Abort, alloc: Global, one: &mut SeatHandle) {
    ends(rt, one.take(alloc), DONE, 0, 1);
    ends(rt, one.settle(alloc), DONE, 5, 0);
    ends(rt, one.wake_owed(alloc), DONE, 0, 0);
    ends(rt, one.take(alloc), DONE, 0, 0);
    ends(rt, one.look(alloc, clk()), DONE, 1, 0);
    ends(rt, one.settle(alloc), DONE, 5, 0);
    ends(rt, one.take(alloc), NOTHING, 0, 0);
}

/// Row board-left-waiting with its wake, by one seat, beside one that is given back.
#[test]
fn handle_of_a_board(rt: HostRuntime) {
    let hasher = RandomState::new(&rt).expect(&rt, "a seed");
    let mut words = [9; 3];
    let mut one = opened(&rt, rt.alloc(), hasher);
    uart_is_deferred(&rt, rt.alloc(), &mut one);
    let mut two = further(&rt, rt.alloc(), &mut one);
    ends(&rt, one.give_back(rt.alloc(), &mut two), DONE, 0, 0);
    both_bind(&rt, rt.alloc(), &mut one);
    ends(&rt, one.close(rt.alloc(), &mut words[..1]), SHORT, 0, 2);
    ends(&rt, one.close(rt.alloc(), &mut words), DONE, 1, 2);
    assert_eq!(&rt; words, [5, 5, 9]);
}

/// A handle that is filled isn't filled again, and a board with two seats isn't closed.
#[test]
fn handles_that_are_filled(rt: HostRuntime) {
    let hasher = RandomState::new(&rt).expect(&rt, "a seed");
    let mut words = [9; 2];
    let mut one = opened(&rt, rt.alloc(), hasher);
    let mut two = further(&rt, rt.alloc(), &mut one);
    ends(&rt, one.close(rt.alloc(), &mut words), SHARED, 0, 0);
    ends(&rt, one.seat(rt.alloc(), &mut two), OCCUPIED, 0, 0);
    ends(&rt, two.close(rt.alloc(), &mut words), SHARED, 0, 0);
    assert_eq!(&rt; words, [9, 9]);
}

/// What an empty handle is told.
#[test]
fn handles_that_are_empty(rt: HostRuntime) {
    let alloc = rt.alloc();
    let mut none = SeatHandle::empty(alloc);
    let mut other = SeatHandle::empty(alloc);
    ends(&rt, none.seat(alloc, &mut other), NO_SEAT, 0, 0);
    ends(&rt, none.take(alloc), NO_SEAT, 0, 0);
    ends(&rt, none.look(alloc, clk()), NO_SEAT, 0, 0);
    ends(&rt, none.settle(alloc), NO_SEAT, 0, 0);
    ends(&rt, none.defer(alloc, clk()), NO_SEAT, 0, 0);
    ends(&rt, none.wake_owed(alloc), NO_SEAT, 0, 0);
    ends(&rt, none.close(alloc, &mut []), NO_SEAT, 0, 0);
}

/// A handle goes to another thread and comes back.
#[test]
fn handle_of_another_thread(rt: HostRuntime) {
    let hasher = RandomState::new(&rt).expect(&rt, "a seed");
    let alloc = rt.alloc();
    let mut words = [9; 2];
    let mut one = opened(&rt, alloc, hasher);
    let there = move || -> SeatHandle {
        one.take(alloc);
        one
    };
    let (mut one, _) = thread::join(&rt, there, || {});
    ends(&rt, one.close(alloc, &mut words), DONE, 0, 2);
    assert_eq!(&rt; words, [1, 0]);
}
