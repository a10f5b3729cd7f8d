//! How a flight ends. Neither way takes memory: `take` made the room for the debts.

ghost use Rattle.std.specs.Prelude.{◌≡◌, IfOk, IfErr, OnOk};
ghost use Rattle.bus_board.specs.Learns.{DeferredOn, NotDeferred, NotSettled, SettledBy};
ghost use Rattle.bus_board.specs.Shown.{IsOf};

use crate::board::Board;
use crate::debts::{outcome_by, owe, reply_of};
use crate::flight::{find_look, missed, saw_all};
use crate::order::{Defer, Settling};
use crate::seat::Seat;
use crate::words::{WAITING, end_word};
use bus_core::{Refusal, Reply};
use bus_plan::Device;

impl Board {
    /// Ends the flight: its device binds or fails by its verdict, and where it binds the seat owes its consumers a wake.
    pub fn settle(&self, seat: &mut Seat) -> Result<Reply, Refusal>
        requires { IsOf self.now seat.old }
        ensures board { IsOf self.now seat.new }
        ensures ok { IfOk result (λ reply. SettledBy seat.old.view seat.new.view reply) }
        ensures err { IfErr result (λ refusal. (seat.new ≡ seat.old) × NotSettled seat.old.view refusal) }
    {
        let Some(open) = &seat.flight else {
            return Err(Refusal::NotInFlight);
        };
        if !saw_all(&open.looks) {
            return Err(Refusal::NotReady);
        }
        let device = open.device;
        let outcome = outcome_by(self.plan.verdict(device));
        let shared = &self.table.shared;
        shared.store::<Settling>(&mut seat.token, device.index(), end_word(outcome));
        seat.flight = None;
        owe(&mut seat.owed, outcome, self.plan.consumers(device));
        Ok(reply_of(outcome))
    }

    /// Ends the flight, as this supplier wasn't bound when it was last looked at. The device waits, and the seat owes it a
    /// wake.
    pub fn defer(&self, seat: &mut Seat, supplier: Device) -> Result<(), Refusal>
        requires { IsOf self.now seat.old }
        ensures board { IsOf self.now seat.new }
        ensures ok { OnOk result (DeferredOn seat.old.view seat.new.view supplier) }
        ensures err { IfErr result (λ refusal. (seat.new ≡ seat.old) × NotDeferred seat.old.view supplier refusal) }
    {
        let Some(open) = &seat.flight else {
            return Err(Refusal::NotInFlight);
        };
        let Some(last) = find_look(&open.looks, supplier) else {
            return Err(Refusal::WasBound);
        };
        if !missed(last) {
            return Err(Refusal::WasBound);
        }
        let device = open.device;
        let shared = &self.table.shared;
        shared.store::<Defer>(&mut seat.token, device.index(), WAITING);
        seat.flight = None;
        seat.owed.push_reserved(device);
        Ok(())
    }
}
