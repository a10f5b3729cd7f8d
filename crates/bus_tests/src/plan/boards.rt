//! Boards by hand: what the seats are answered, and what the words are at the end.

ghost use Rattle.bus_board.specs.Shown.{IsOf};

use crate::plan::seats::{
    closes, defers, further, gives_back, keeps, looks, open, settles, takes, wakes,
};
use bus_board::{Board, Seat, Word};
use bus_core::{Refusal, Reply};
use bus_plan::Device;
use std::alloc::Global;
use std::hash::RandomState;
use std::process::Abort;

pub const UART_AND_CLOCK: &str = "/uart ns ok /clk\n/clk fixed ok\n";

pub fn uart() -> Device {
    Device::new(0)
}

pub fn clk() -> Device {
    Device::new(1)
}

// Both devices may be taken. Seat 1 takes the uart and misses its clock, which seat 2 takes and settles.
fn clock_is_missed(rt: &impl Abort, alloc: Global, board: &Board, one: &mut Seat, two: &mut Seat)
    requires one { IsOf board.now one.old }
    requires two { IsOf board.now two.old }
    ensures one { IsOf board.now one.new }
    ensures two { IsOf board.now two.new }
{
    assert!(rt; board.has_spare());
    takes(rt, alloc, board, one, Ok(Some(uart())));
    looks(rt, board, one, clk(), Ok(false));
    takes(rt, alloc, board, two, Ok(Some(clk())));
    settles(rt, board, two, Ok(Reply::Bound));
}

// Seat 2 takes the woken uart, finds its clock bound and settles.
fn uart_is_woken(rt: &impl Abort, alloc: Global, board: &Board, two: &mut Seat)
    requires { IsOf board.now two.old }
    ensures { IsOf board.now two.new }
{
    takes(rt, alloc, board, two, Ok(Some(uart())));
    looks(rt, board, two, clk(), Ok(true));
    settles(rt, board, two, Ok(Reply::Bound));
    wakes(board, two);
}

/// Row board-two-seats. That seat 2's wake changes no word is seen by its next take, which finds nothing.
#[test]
fn board_two_seats(rt: HostRuntime) {
    let hasher = RandomState::new(&rt).expect(&rt, "a seed");
    let (board, mut one) = open(&rt, rt.alloc(), hasher, UART_AND_CLOCK);
    let mut two = further(&rt, rt.alloc(), &board, &mut one);
    clock_is_missed(&rt, rt.alloc(), &board, &mut one, &mut two);
    wakes(&board, &mut two);
    takes(&rt, rt.alloc(), &board, &mut two, Ok(None));
    defers(&rt, &board, &mut one, clk(), Ok(()));
    wakes(&board, &mut one);
    uart_is_woken(&rt, rt.alloc(), &board, &mut two);
    gives_back(&rt, &board, &mut one, two);
    closes(&rt, board, one, &[Word::Bound, Word::Bound], true);
}

/// Row seat-of-a-seat: seat 2 makes seat 3 and is given back first. Seat 3's wake finds the uart waiting, and seat 1 goes on with
/// it once all have come back.
#[test]
fn seat_of_a_seat(rt: HostRuntime) {
    let hasher = RandomState::new(&rt).expect(&rt, "a seed");
    let (board, mut one) = open(&rt, rt.alloc(), hasher, UART_AND_CLOCK);
    let mut two = further(&rt, rt.alloc(), &board, &mut one);
    let mut three = further(&rt, rt.alloc(), &board, &mut two);
    gives_back(&rt, &board, &mut one, two);
    clock_is_missed(&rt, rt.alloc(), &board, &mut one, &mut three);
    defers(&rt, &board, &mut one, clk(), Ok(()));
    wakes(&board, &mut three);
    gives_back(&rt, &board, &mut one, three);
    uart_is_woken(&rt, rt.alloc(), &board, &mut one);
    takes(&rt, rt.alloc(), &board, &mut one, Ok(None));
    closes(&rt, board, one, &[Word::Bound, Word::Bound], true);
}

/// Row board-left-waiting, and what row board-with-wakes says of it: without its wake seat 1 owes, and is not taken back.
/// Seat 1 is the one that stays at the end, so its debt needs nobody's word.
#[test]
fn board_left_waiting(rt: HostRuntime) {
    let hasher = RandomState::new(&rt).expect(&rt, "a seed");
    let (board, mut two) = open(&rt, rt.alloc(), hasher, UART_AND_CLOCK);
    let mut one = further(&rt, rt.alloc(), &board, &mut two);
    clock_is_missed(&rt, rt.alloc(), &board, &mut one, &mut two);
    defers(&rt, &board, &mut one, clk(), Ok(()));
    let mut one = keeps(&rt, &board, &mut two, one);
    let two = keeps(&rt, &board, &mut one, two);
    drop(two);
    closes(&rt, board, one, &[Word::Waiting, Word::Bound], false);
}

/// Row board-with-wakes: row board-left-waiting with each wake runs as row board-two-seats.
#[test]
fn board_with_wakes(rt: HostRuntime) {
    let hasher = RandomState::new(&rt).expect(&rt, "a seed");
    let (board, mut two) = open(&rt, rt.alloc(), hasher, UART_AND_CLOCK);
    let mut one = further(&rt, rt.alloc(), &board, &mut two);
    clock_is_missed(&rt, rt.alloc(), &board, &mut one, &mut two);
    wakes(&board, &mut two);
    defers(&rt, &board, &mut one, clk(), Ok(()));
    wakes(&board, &mut one);
    gives_back(&rt, &board, &mut two, one);
    uart_is_woken(&rt, rt.alloc(), &board, &mut two);
    closes(&rt, board, two, &[Word::Bound, Word::Bound], true);
}

// A uart that hasn't seen its clock can't settle, nor be taken twice, nor look at itself.
pub fn first_is_refused(rt: &impl Abort, alloc: Global, board: &Board, one: &mut Seat)
    requires { IsOf board.now one.old }
    ensures { IsOf board.now one.new }
{
    takes(rt, alloc, board, one, Ok(Some(uart())));
    settles(rt, board, one, Err(Refusal::NotReady));
    takes(rt, alloc, board, one, Err(Refusal::NotIdle));
    looks(rt, board, one, uart(), Err(Refusal::WasBound));
}

// The clock settles, and nothing waits for it.
pub fn second_settles(rt: &impl Abort, alloc: Global, board: &Board, two: &mut Seat)
    requires { IsOf board.now two.old }
    ensures { IsOf board.now two.new }
{
    takes(rt, alloc, board, two, Ok(Some(clk())));
    settles(rt, board, two, Ok(Reply::Bound));
    wakes(board, two);
}

// The uart sees its clock bound: it can't be deferred on it, and settles.
pub fn first_settles(rt: &impl Abort, board: &Board, one: &mut Seat)
    requires { IsOf board.now one.old }
    ensures { IsOf board.now one.new }
{
    looks(rt, board, one, clk(), Ok(true));
    defers(rt, board, one, clk(), Err(Refusal::WasBound));
    settles(rt, board, one, Ok(Reply::Bound));
}

/// Row board-refusals, with seat 2's wake before it is given back.
#[test]
fn board_refusals(rt: HostRuntime) {
    let hasher = RandomState::new(&rt).expect(&rt, "a seed");
    let (board, mut one) = open(&rt, rt.alloc(), hasher, UART_AND_CLOCK);
    let mut two = further(&rt, rt.alloc(), &board, &mut one);
    first_is_refused(&rt, rt.alloc(), &board, &mut one);
    looks(&rt, &board, &mut two, clk(), Err(Refusal::NotInFlight));
    second_settles(&rt, rt.alloc(), &board, &mut two);
    first_settles(&rt, &board, &mut one);
    takes(&rt, rt.alloc(), &board, &mut one, Ok(None));
    takes(&rt, rt.alloc(), &board, &mut two, Ok(None));
    gives_back(&rt, &board, &mut one, two);
    closes(&rt, board, one, &[Word::Bound, Word::Bound], true);
}

/// Row seat-with-a-flight: the seat comes back, and its flight with it.
#[test]
fn seat_with_a_flight(rt: HostRuntime) {
    let hasher = RandomState::new(&rt).expect(&rt, "a seed");
    let (board, mut one) = open(&rt, rt.alloc(), hasher, UART_AND_CLOCK);
    let mut two = further(&rt, rt.alloc(), &board, &mut one);
    takes(&rt, rt.alloc(), &board, &mut two, Ok(Some(uart())));
    let mut two = keeps(&rt, &board, &mut one, two);
    takes(&rt, rt.alloc(), &board, &mut two, Err(Refusal::NotIdle));
    looks(&rt, &board, &mut two, clk(), Ok(false));
    drop(two);
    closes(&rt, board, one, &[Word::Trying, Word::Fresh], false);
}

const TWO_SUPPLIERS: &str = "/d x ok /a /b\n/a x ok\n/b x ok\n";

// Seat 1 misses the first supplier of /d and drops its debt; seats 2 and 3 take the suppliers.
fn suppliers_are_taken(
    rt: &impl Abort,
    alloc: Global,
    board: &Board,
    one: &mut Seat,
    two: &mut Seat,
    three: &mut Seat,
)
    requires one { IsOf board.now one.old }
    requires two { IsOf board.now two.old }
    requires three { IsOf board.now three.old }
    ensures one { IsOf board.now one.new }
    ensures two { IsOf board.now two.new }
    ensures three { IsOf board.now three.new }
{
    takes(rt, alloc, board, one, Ok(Some(Device::new(0))));
    looks(rt, board, one, Device::new(1), Ok(false));
    defers(rt, board, one, Device::new(1), Ok(()));
    wakes(board, one);
    takes(rt, alloc, board, two, Ok(Some(Device::new(1))));
    takes(rt, alloc, board, three, Ok(Some(Device::new(2))));
}

// Both suppliers settle. The first one's wake finds the second not bound, so nothing is there to take.
fn suppliers_settle(rt: &impl Abort, alloc: Global, board: &Board, two: &mut Seat, three: &mut Seat)
    requires two { IsOf board.now two.old }
    requires three { IsOf board.now three.old }
    ensures two { IsOf board.now two.new }
    ensures three { IsOf board.now three.new }
{
    settles(rt, board, two, Ok(Reply::Bound));
    wakes(board, two);
    takes(rt, alloc, board, two, Ok(None));
    settles(rt, board, three, Ok(Reply::Bound));
}

// Seat 1 takes the woken device, which finds both suppliers bound.
fn consumer_settles(rt: &impl Abort, alloc: Global, board: &Board, one: &mut Seat)
    requires { IsOf board.now one.old }
    ensures { IsOf board.now one.new }
{
    takes(rt, alloc, board, one, Ok(Some(Device::new(0))));
    looks(rt, board, one, Device::new(1), Ok(true));
    looks(rt, board, one, Device::new(2), Ok(true));
    settles(rt, board, one, Ok(Reply::Bound));
}

/// Rows board-two-suppliers and owing-seat: between its settle and its wake seat 3 is not taken back.
#[test]
fn board_two_suppliers(rt: HostRuntime) {
    let hasher = RandomState::new(&rt).expect(&rt, "a seed");
    let (board, mut one) = open(&rt, rt.alloc(), hasher, TWO_SUPPLIERS);
    let mut two = further(&rt, rt.alloc(), &board, &mut one);
    let mut three = further(&rt, rt.alloc(), &board, &mut one);
    suppliers_are_taken(&rt, rt.alloc(), &board, &mut one, &mut two, &mut three);
    suppliers_settle(&rt, rt.alloc(), &board, &mut two, &mut three);
    let mut three = keeps(&rt, &board, &mut one, three);
    wakes(&board, &mut three);
    gives_back(&rt, &board, &mut one, two);
    gives_back(&rt, &board, &mut one, three);
    consumer_settles(&rt, rt.alloc(), &board, &mut one);
    closes(
        &rt,
        board,
        one,
        &[Word::Bound, Word::Bound, Word::Bound],
        true,
    );
}
