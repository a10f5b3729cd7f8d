//! How a seat gets out of a handle and into one.

ghost use Rattle.std.specs.Prelude.{◌≡◌, true, false, Some, None, IsSome, MatchOption};
ghost use Rattle.bus_board.specs.Seats.Handles.{seated};

use crate::seats::handle::{EMPTY, Lifted, SEATED, SeatHandle};
use crate::seats::held::Held;
use std::alloc::Global;
use std::mem;

impl SeatHandle {
    /// An empty handle.
    pub fn empty(alloc: Global) -> SeatHandle
        ensures { seated result ≡ None }
    {
        SeatHandle {
            state: EMPTY,
            held: Held::none(alloc),
        }
    }

    /// Whether no seat is there.
    pub fn is_empty(&self) -> bool
        ensures yes { result ≡ true → seated self.now ≡ None }
        ensures no { result ≡ false → IsSome (seated self.now) }
    {
        self.state == EMPTY
    }

    /// Takes the seat out, and leaves the handle empty.
    pub(crate) fn lift(&mut self, alloc: Global) -> Option<Lifted>
        ensures empty { seated self.new ≡ None }
        ensures lifted { MatchOption result (seated self.old ≡ None) (λ lifted. seated self.old ≡ Some lifted.placed) }
    {
        let handle = mem::replace(self, SeatHandle::empty(alloc));
        let Some(mut block) = handle.into_block() else {
            return None;
        };
        match block.placed.take() {
            Some(placed) => Some(Lifted { block, placed }),
            None => None,
        }
    }

    /// Puts a seat into the handle, which is empty.
    pub(crate) fn put(&mut self, lifted: Lifted)
        requires { seated self.old ≡ None }
        ensures { seated self.new ≡ Some lifted.placed }
    {
        let Lifted { mut block, placed } = lifted;
        block.placed = Some(placed);
        *self = SeatHandle {
            state: SEATED,
            held: Held::of(block),
        };
    }
}
