//! The handle that a caller in C has of a seat.

ghost use Rattle.std.specs.Prelude.{◌≡◌, Some, None, MatchOption};
ghost use Rattle.bus_board.specs.Seats.Held.{IsTold, seat_in};

use crate::seats::held::Held;
use crate::seats::placed_seat::{PlacedSeat, Slot};
use std::alloc::Global;

/// Nothing is behind the pointer.
pub(crate) const EMPTY: u64 = 0;

/// A seat is.
pub(crate) const SEATED: u64 = 1;

/// A seat behind a pointer, or nothing: all zeros.
#[repr(C)]
pub struct SeatHandle {
    /// Whether a seat is there.
    pub(crate) state: u64,
    pub(crate) held: Held,
    ghost told: { IsTold state held.value },
}

/// A seat that was taken out of a handle, with the room that it had.
pub(crate) struct Lifted {
    pub block: Box<Slot, Global>,
    pub placed: PlacedSeat,
}

impl SeatHandle {
    /// The room with the seat.
    pub(crate) fn into_block(self) -> Option<Box<Slot, Global>>
        ensures { MatchOption result (seat_in self.held.value ≡ None) (λ block. self.held.value ≡ Some block.value) }
    {
        let SeatHandle { state, held } = self;
        if state == EMPTY {
            return None;
        }
        Some(held.into_box())
    }
}

impl Drop for SeatHandle {
    fn drop(self) {
        drop(self.into_block());
    }
}
