//! How a seat ends.

ghost use Rattle.std.specs.Prelude.{◌≡◌, ◌≢◌, ◌⊎◌, [], true, false, None, IfErr, OnOk};
ghost use Rattle.bus_board.specs.Learns.{GivenBack, NotGivenBack};
ghost use Rattle.bus_board.specs.Shown.{IsOf};

use crate::board::Board;
use crate::order::{Note, Together};
use crate::seat::Seat;
use bus_core::Refusal;

impl Board {
    /// Ends a seat that has no flight and owes nothing: the other gets what it has seen and done.
    pub fn give_back(&self, into: &mut Seat, seat: Seat) -> Result<(), (Seat, Refusal)>
        requires into { IsOf self.now into.old }
        requires seat { IsOf self.now seat }
        ensures board { IsOf self.now into.new }
        ensures ok { OnOk result (GivenBack into.old.view seat.view into.new.view) }
        ensures err { IfErr result (λ r. (r.0 ≡ seat) × (into.new ≡ into.old) × NotGivenBack seat.view r.1) }
    {
        if !seat.is_free() {
            return Err((seat, Refusal::NotIdle));
        }
        let Seat {
            token,
            flight: _,
            owed: _,
        } = seat;
        let shared = &self.table.shared;
        shared.join_seat::<Together>(&mut into.token, token);
        // a join tells nothing, so a load of the spare word tells the history so far
        shared.load::<Note>(&mut into.token, self.plan.len());
        Ok(())
    }
}

impl Seat {
    // Whether the seat has no flight and owes nothing.
    fn is_free(&self) -> bool
        ensures yes { result ≡ true → (self.now.view.flight ≡ None) × (self.now.view.owed ≡ []) }
        ensures no { result ≡ false → (self.now.view.flight ≢ None) ⊎ (self.now.view.owed ≢ []) }
    {
        if self.flight.is_some() {
            return false;
        }
        self.owed.is_empty()
    }
}
