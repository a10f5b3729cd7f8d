//! A seat, and the board that it is of, which it shares with the other seats.

ghost use Rattle.std.specs.Prelude.{◌≡◌, [], IfOk, IfErr, length, OnOk};
ghost use Rattle.bus_core.specs.declared.refusal.Refusal.TheVariants.{NoMemory};
ghost use Rattle.bus_board.specs.Learns.{GivenBack, NotGivenBack, Paid};
ghost use Rattle.bus_board.specs.Seats.Calls.{IsFurther};
ghost use Rattle.bus_board.specs.Seats.Steps.{HasDeferred, HasLooked, HasSettled, HasTaken};

use crate::{Board, Seat};
use bus_core::{Refusal, Reply};
use bus_plan::Device;
use std::alloc::Global;
use std::marker::Model;
use std::sync::Arc;

/// A seat, its board, and how many devices that has.
#[derive(Drop)]
pub struct PlacedSeat {
    pub(crate) board: Arc<Board, Global>,
    pub(crate) seat: Seat,
    pub(crate) devices: usize,
}

impl Model for PlacedSeat {
    ghost use Rattle.std.specs.Prelude.{◌≡◌, length};
    ghost use Rattle.bus_board.specs.Shown.{IsOf};
    ghost use Rattle.bus_board.specs.Seats.Shown.{Placed};

    ghost Value = { Placed };

    ghost view = { λ p. record { board = p.board.value; seat = p.seat } };

    ghost invariant = { λ p. IsOf p.board.value p.seat × (p.devices ≡ length p.board.value.plan) };
}

/// Room for a placed seat on the heap, which stays while a call has the seat out.
#[derive(Drop)]
pub struct Slot {
    pub placed: Option<PlacedSeat>,
}

impl PlacedSeat {
    /// How many devices the board has.
    pub(crate) fn devices(&self) -> usize
        ensures { result ≡ length self.now.board.plan }
    {
        self.devices
    }

    /// A further seat of the board.
    pub(crate) fn further(&mut self, alloc: Global) -> Result<PlacedSeat, Refusal>
        ensures new { IfOk result (IsFurther self.old self.new) }
        ensures err { IfErr result (λ refusal. (self.new ≡ self.old) × (refusal ≡ NoMemory)) }
    {
        let board = Arc::try_clone(&self.board)?;
        let seat = self.board.seat(alloc, &mut self.seat)?;
        let devices = self.devices;
        Ok(PlacedSeat {
            board,
            seat,
            devices,
        })
    }

    pub(crate) fn take(&mut self, alloc: Global) -> Result<Option<Device>, Refusal>
        ensures same { self.new.board ≡ self.old.board }
        ensures took { HasTaken self.old.seat.view self.new.seat.view result }
    {
        self.board.take(alloc, &mut self.seat)
    }

    pub(crate) fn look(&mut self, supplier: Device) -> Result<bool, Refusal>
        ensures same { self.new.board ≡ self.old.board }
        ensures looked { HasLooked supplier self.old.seat.view self.new.seat.view result }
    {
        self.board.look(&mut self.seat, supplier)
    }

    pub(crate) fn settle(&mut self) -> Result<Reply, Refusal>
        ensures same { self.new.board ≡ self.old.board }
        ensures settled { HasSettled self.old.seat.view self.new.seat.view result }
    {
        self.board.settle(&mut self.seat)
    }

    pub(crate) fn defer(&mut self, supplier: Device) -> Result<(), Refusal>
        ensures same { self.new.board ≡ self.old.board }
        ensures deferred { HasDeferred supplier self.old.seat.view self.new.seat.view result }
    {
        self.board.defer(&mut self.seat, supplier)
    }

    pub(crate) fn wake_owed(&mut self)
        ensures same { self.new.board ≡ self.old.board }
        ensures paid { Paid self.old.seat.view self.new.seat.view [] }
    {
        self.board.wake_owed(&mut self.seat);
    }

    /// Gives the other seat back to this one. It comes back from a refusal.
    pub(crate) fn give_back(&mut self, other: PlacedSeat) -> Result<(), (PlacedSeat, Refusal)>
        requires { other.board ≡ self.old.board }
        ensures same { self.new.board ≡ self.old.board }
        ensures given { OnOk result (GivenBack self.old.seat.view other.seat.view self.new.seat.view) }
        ensures err { IfErr result (λ r. (r.0 ≡ other) × (self.new ≡ self.old) × NotGivenBack other.seat.view r.1) }
    {
        let PlacedSeat {
            board,
            seat,
            devices,
        } = other;
        let Err((seat, refusal)) = self.board.give_back(&mut self.seat, seat) else {
            return Ok(());
        };
        let same = PlacedSeat {
            board,
            seat,
            devices,
        };
        Err((same, refusal))
    }
}
