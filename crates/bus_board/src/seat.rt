use crate::flight::Open;
use crate::view::View;
use bus_plan::Device;
use std::marker::Model;

/// The token by which a seat steps on the words of its board.
pub type Token = atomic_table::Seat<(), View>;

/// One caller's place at a board, with a view of its own: what has settled so far as it knows, what it settled, claimed and
/// passed itself, at most one flight, and the devices that it owes a wake.
#[derive(Drop)]
pub struct Seat {
    pub(crate) token: Token,
    pub(crate) flight: Option<Open>,
    pub(crate) owed: Vec<Device>,
}

impl Model for Seat {
    ghost use Rattle.std.specs.Prelude.{vec_len, vec_capacity};
    ghost use Rattle.bus_board.specs.Shown.{Seated};
    ghost use Rattle.bus_board.specs.Private.Ties.{IsTied};

    ghost Value = { Seated };

    ghost view = { λ s. record { table = s.token.table_id; view = s.token.me.0 } };

    ghost invariant = { λ s. IsTied s.token.me s.flight s.owed.items (vec_len s.owed) (vec_capacity s.owed) };
}
