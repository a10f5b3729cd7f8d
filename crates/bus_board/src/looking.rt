//! How a flight looks at its suppliers.

ghost use Rattle.std.specs.Prelude.{◌≡◌, IfOk, IfErr};
ghost use Rattle.bus_board.specs.Learns.{LookedAt, NotLooked};
ghost use Rattle.bus_board.specs.Shown.{IsOf};

use crate::board::Board;
use crate::flight::{after_look, find_place};
use crate::order::Look;
use crate::seat::Seat;
use crate::words::BOUND;
use bus_core::Refusal;
use bus_plan::Device;

impl Board {
    /// Whether the supplier of the flight's device is bound.
    pub fn look(&self, seat: &mut Seat, supplier: Device) -> Result<bool, Refusal>
        requires { IsOf self.now seat.old }
        ensures board { IsOf self.now seat.new }
        ensures ok { IfOk result (λ bound. LookedAt seat.old.view seat.new.view supplier bound) }
        ensures err { IfErr result (λ refusal. (seat.new ≡ seat.old) × NotLooked seat.old.view supplier refusal) }
    {
        let Some(open) = &seat.flight else {
            return Err(Refusal::NotInFlight);
        };
        let Some(place) = find_place(&open.looks, open.next, supplier) else {
            return Err(Refusal::WasBound);
        };
        self.plan.check();
        let shared = &self.table.shared;
        let found = shared.load::<Look>(&mut seat.token, supplier.index());
        let bound = found == BOUND;
        seat.flight = after_look(seat.flight.take(), place, supplier, bound);
        Ok(bound)
    }
}
