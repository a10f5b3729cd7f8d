//! A slot on the heap behind a pointer that C may have, or nothing.
ghost use Rattle.std.specs.Prelude.{◌≡◌, IsSome, Some, None};
ghost use Rattle.std.specs.declared.option.Option.{Option};
ghost use Rattle.std.specs.Coded.{coded_option};
ghost use Rattle.bus_board.specs.Seats.Held.{held_owns, slot_coded};
ghost use Rattle.bus_board.specs.declared.seats.placed_seat.Slot.{Slot};

use crate::seats::parts::Parts;
use crate::seats::placed_seat::Slot;
use std::alloc::Global;
use std::marker::Model;
use std::ptr;

/// What C has is a pointer whose type says nothing of what it owns. A slot that isn't taken out again is lost: `SeatHandle` sees to that.
#[repr(C)]
#[derive(Drop)]
pub struct Held {
    at: *mut u8,
    alloc: Global,
    pub ghost value: { Option Slot } by { coded_option slot_coded },
}

impl Model for Held {
    ghost also_owns = { λ h. held_owns h.alloc h.at h.value };
}

impl Held {
    /// Nothing.
    pub(crate) fn none(alloc: Global) -> Held
        ensures { result.value ≡ None }
    {
        Held {
            at: ptr::null_mut(),
            alloc,
        }
    }

    /// A slot.
    pub(crate) fn of(slot: Box<Slot, Global>) -> Held
        ensures { result.value ≡ Some slot.value }
    {
        Held::of_parts(Parts::of(slot))
    }

    /// The slot again.
    pub(crate) fn into_box(self) -> Box<Slot, Global>
        requires { IsSome self.value }
        ensures { self.value ≡ Some result.value }
    {
        self.into_parts().into_box()
    }

    fn of_parts(parts: Parts<Slot, Global>) -> Held
        ensures { result.value ≡ Some parts.value }
    {
        let Parts { ptr, alloc } = parts;
        Held {
            at: ptr as *mut u8,
            alloc,
        }
    }

    fn into_parts(self) -> Parts<Slot, Global>
        requires { IsSome self.value }
        ensures { self.value ≡ Some result.value }
    {
        let Held { at, alloc } = self;
        Parts {
            ptr: at as *mut Slot,
            alloc,
        }
    }
}

unsafe impl Send for Held {}
