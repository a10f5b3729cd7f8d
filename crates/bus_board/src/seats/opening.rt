//! How a board gets its first seat.

ghost use Rattle.std.specs.Prelude.{◌≡◌, None, OnOk, IfOk, IfErr};
ghost use Rattle.bus_core.specs.CoreState.{first_core};
ghost use Rattle.bus_core.specs.declared.refusal.Refusal.TheVariants.{NoMemory};
ghost use Rattle.bus_board.specs.Rule.{OpensAs};
ghost use Rattle.bus_board.specs.Views.{opener};
ghost use Rattle.bus_board.specs.Seats.Calls.{IsOpened};
ghost use Rattle.bus_board.specs.Seats.Handles.{seated};

use crate::Board;
use crate::seats::handle::{Lifted, SeatHandle};
use crate::seats::placed_seat::{PlacedSeat, Slot};
use bus_core::Refusal;
use bus_plan::Plan;
use std::alloc::Global;
use std::sync::Arc;

impl SeatHandle {
    /// A board of the plan on which nothing was begun: its first seat goes into this handle, which is empty.
    pub fn open(&mut self, alloc: Global, plan: Plan) -> Result<(), Refusal>
        requires { seated self.old ≡ None }
        ensures opened { OnOk result (IsOpened plan (seated self.new)) }
        ensures err { IfErr result (λ refusal. (refusal ≡ NoMemory) × (seated self.new ≡ None)) }
    {
        let block = Box::new(alloc, Slot { placed: None })?;
        let placed = first_seat(alloc, plan)?;
        self.put(Lifted { block, placed });
        Ok(())
    }
}

// The first seat of a board of the plan.
fn first_seat(alloc: Global, plan: Plan) -> Result<PlacedSeat, Refusal>
    ensures plan { IfOk result (λ p. p.board.plan ≡ plan) }
    ensures view { IfOk result (λ p. p.seat.view ≡ opener (first_core plan)) }
    ensures words { IfOk result (λ p. OpensAs (first_core plan) p.seat.view) }
    ensures err { IfErr result (λ refusal. refusal ≡ NoMemory) }
{
    let devices = plan.len();
    let (board, seat) = Board::open(alloc, plan)?;
    let board = Arc::new(alloc, board)?;
    Ok(PlacedSeat {
        board,
        seat,
        devices,
    })
}
