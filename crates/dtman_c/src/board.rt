//! The board, for kernels that probe on threads of their own: a seat behind a handle in the caller's memory, and each call the board's.
ghost use Rattle.std.specs.Prelude.{◌≡◌, None, IfOk, IfErr};
ghost use Rattle.bus_board.specs.Seats.Calls.{AreOfOne, Closes, Defers, GivesBack, Looks, OnSeat, Seats, Settles, Takes, WakesOwed};
ghost use Rattle.bus_board.specs.Seats.Handles.{seated};
ghost use Rattle.dtman_engine.specs.Fault.{fault_value};
ghost use Rattle.dtman_c.specs.Boards.{IsNoPlan, IsPlanOf, Opens, OpensPlan};

use crate::answer::{Answer, WRITTEN, occupied, refusal, told};
use crate::seed::hasher_of;
use bus_board::seats::{SeatHandle, Told};
use bus_plan::{Device, Plan, read_plan};
use dtman_engine::Fault;
use std::alloc::Global;

/// A board of the devices of a plan file on which nothing was begun, and its first seat.
#[unsafe(no_mangle)]
pub extern "C" fn dtman_board_open(
    alloc: Global,
    plan: &[u8],
    seed: u64,
    seat: &mut SeatHandle,
) -> Answer
    ensures { Opens plan.now (seated seat.old) (seated seat.new) result }
{
    if !seat.is_empty() {
        return occupied();
    }
    match planned(alloc, plan, seed) {
        Ok(plan) => open(alloc, plan, seat),
        Err(fault) => refusal(&fault),
    }
}

// The plan of a file.
fn planned(alloc: Global, text: &[u8], seed: u64) -> Result<Plan, Fault>
    ensures ok { IfOk result (λ plan. IsPlanOf text.now plan) }
    ensures err { IfErr result (λ fault. IsNoPlan text.now (fault_value fault)) }
{
    let hasher = hasher_of(seed)?;
    let plan = read_plan(alloc, hasher, text)?;
    Ok(plan)
}

// A board of a plan, and how many devices it has.
fn open(alloc: Global, plan: Plan, seat: &mut SeatHandle) -> Answer
    requires { seated seat.old ≡ None }
    ensures { OpensPlan plan (seated seat.new) result }
{
    let devices = plan.len();
    match seat.open(alloc, plan) {
        Ok(()) => told(WRITTEN, devices),
        Err(_) => refusal(&Fault::no_memory()),
    }
}

/// A further seat of the board.
#[unsafe(no_mangle)]
pub extern "C" fn dtman_board_seat(
    alloc: Global,
    from: &mut SeatHandle,
    seat: &mut SeatHandle,
) -> Told
    ensures { Seats (seated from.old) (seated from.new) (seated seat.old) (seated seat.new) result }
{
    from.seat(alloc, seat)
}

/// Claims a device to probe.
#[unsafe(no_mangle)]
pub extern "C" fn dtman_board_take(alloc: Global, seat: &mut SeatHandle) -> Told
    ensures { OnSeat Takes (seated seat.old) (seated seat.new) result }
{
    seat.take(alloc)
}

/// Whether a supplier of the flight's device is bound.
#[unsafe(no_mangle)]
pub extern "C" fn dtman_board_look(alloc: Global, seat: &mut SeatHandle, supplier: usize) -> Told
    ensures { OnSeat (Looks supplier) (seated seat.old) (seated seat.new) result }
{
    seat.look(alloc, Device::new(supplier))
}

/// Ends the flight: its device binds or fails.
#[unsafe(no_mangle)]
pub extern "C" fn dtman_board_settle(alloc: Global, seat: &mut SeatHandle) -> Told
    ensures { OnSeat Settles (seated seat.old) (seated seat.new) result }
{
    seat.settle(alloc)
}

/// Ends the flight, as this supplier wasn't bound.
#[unsafe(no_mangle)]
pub extern "C" fn dtman_board_defer(alloc: Global, seat: &mut SeatHandle, supplier: usize) -> Told
    ensures { OnSeat (Defers supplier) (seated seat.old) (seated seat.new) result }
{
    seat.defer(alloc, Device::new(supplier))
}

/// Wakes what the seat owes a wake.
#[unsafe(no_mangle)]
pub extern "C" fn dtman_board_wake_owed(alloc: Global, seat: &mut SeatHandle) -> Told
    ensures { OnSeat WakesOwed (seated seat.old) (seated seat.new) result }
{
    seat.wake_owed(alloc)
}

/// Gives a seat back to another one of its board.
#[unsafe(no_mangle)]
pub extern "C" fn dtman_board_give_back(
    alloc: Global,
    into: &mut SeatHandle,
    seat: &mut SeatHandle,
) -> Told
    requires { AreOfOne (seated into.old) (seated seat.old) }
    ensures { GivesBack (seated into.old) (seated seat.old) (seated into.new) (seated seat.new) result }
{
    into.give_back(alloc, seat)
}

/// Ends the board with its last seat.
#[unsafe(no_mangle)]
pub extern "C" fn dtman_board_close(alloc: Global, seat: &mut SeatHandle, out: &mut [u8]) -> Told
    ensures { Closes (seated seat.old) out.old (seated seat.new) out.new result }
{
    seat.close(alloc, out)
}
