//! The calls of a seat between its board's opening and its end.

ghost use Rattle.std.specs.Prelude.{◌≡◌, IfOk, IfErr};
ghost use Rattle.bus_core.specs.declared.refusal.Refusal.TheVariants.{NoMemory};
ghost use Rattle.bus_board.specs.Seats.Calls.{AreOfOne, Defers, GivesBack, IsFurther, Looks, OnSeat, Seats, Settles, Takes, WakesOwed};
ghost use Rattle.bus_board.specs.Seats.Handles.{seated};

use crate::seats::handle::{Lifted, SeatHandle};
use crate::seats::placed_seat::{PlacedSeat, Slot};
use crate::seats::told::{
    Told, done, no_seat, occupied, refused, told_look, told_settle, told_step, told_take,
};
use bus_core::Refusal;
use bus_plan::Device;
use std::alloc::Global;

impl SeatHandle {
    /// A further seat of the board, into an empty handle.
    pub fn seat(&mut self, alloc: Global, handle: &mut SeatHandle) -> Told
        ensures { Seats (seated self.old) (seated self.new) (seated handle.old) (seated handle.new) result }
    {
        if !handle.is_empty() {
            return occupied();
        }
        let Some(mut lifted) = self.lift(alloc) else {
            return no_seat();
        };
        let told = match further(alloc, &mut lifted.placed) {
            Ok(new) => {
                handle.put(new);
                done(0, 0)
            }
            Err(refusal) => refused(refusal),
        };
        self.put(lifted);
        told
    }

    /// Claims a device to probe.
    pub fn take(&mut self, alloc: Global) -> Told
        ensures { OnSeat Takes (seated self.old) (seated self.new) result }
    {
        let Some(mut lifted) = self.lift(alloc) else {
            return no_seat();
        };
        let answer = lifted.placed.take(alloc);
        self.put(lifted);
        told_take(answer)
    }

    /// Whether a supplier of the flight's device is bound.
    pub fn look(&mut self, alloc: Global, supplier: Device) -> Told
        ensures { OnSeat (Looks supplier) (seated self.old) (seated self.new) result }
    {
        let Some(mut lifted) = self.lift(alloc) else {
            return no_seat();
        };
        let answer = lifted.placed.look(supplier);
        self.put(lifted);
        told_look(answer)
    }

    /// Ends the flight: its device binds or fails.
    pub fn settle(&mut self, alloc: Global) -> Told
        ensures { OnSeat Settles (seated self.old) (seated self.new) result }
    {
        let Some(mut lifted) = self.lift(alloc) else {
            return no_seat();
        };
        let answer = lifted.placed.settle();
        self.put(lifted);
        told_settle(answer)
    }

    /// Ends the flight, as this supplier wasn't bound.
    pub fn defer(&mut self, alloc: Global, supplier: Device) -> Told
        ensures { OnSeat (Defers supplier) (seated self.old) (seated self.new) result }
    {
        let Some(mut lifted) = self.lift(alloc) else {
            return no_seat();
        };
        let answer = lifted.placed.defer(supplier);
        self.put(lifted);
        told_step(answer)
    }

    /// Wakes what the seat owes a wake.
    pub fn wake_owed(&mut self, alloc: Global) -> Told
        ensures { OnSeat WakesOwed (seated self.old) (seated self.new) result }
    {
        let Some(mut lifted) = self.lift(alloc) else {
            return no_seat();
        };
        lifted.placed.wake_owed();
        self.put(lifted);
        done(0, 0)
    }

    /// Gives the handle's seat back to this one, of the same board, and empties the handle.
    pub fn give_back(&mut self, alloc: Global, handle: &mut SeatHandle) -> Told
        requires { AreOfOne (seated self.old) (seated handle.old) }
        ensures { GivesBack (seated self.old) (seated handle.old) (seated self.new) (seated handle.new) result }
    {
        let Some(mut first) = self.lift(alloc) else {
            return no_seat();
        };
        let Some(lifted) = handle.lift(alloc) else {
            self.put(first);
            return no_seat();
        };
        let Lifted { block, placed } = lifted;
        let answer = first.placed.give_back(placed);
        self.put(first);
        match answer {
            Ok(()) => done(0, 0),
            Err((placed, refusal)) => {
                handle.put(Lifted { block, placed });
                refused(refusal)
            }
        }
    }
}

// A further seat, with the room that it wants.
fn further(alloc: Global, placed: &mut PlacedSeat) -> Result<Lifted, Refusal>
    ensures new { IfOk result (λ new. IsFurther placed.old placed.new new.placed) }
    ensures err { IfErr result (λ refusal. (placed.new ≡ placed.old) × (refusal ≡ NoMemory)) }
{
    let block = Box::new(alloc, Slot { placed: None })?;
    let placed = placed.further(alloc)?;
    Ok(Lifted { block, placed })
}
