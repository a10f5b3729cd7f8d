//! The rule that the words and the views keep, and what each step tells.

ghost use Rattle.bus_board.specs.Rule.{Holds};
ghost use Rattle.bus_board.specs.Steps.{Claims, Looks, Settles, Defers, Checks, Wakes, Notes};
ghost use Rattle.bus_board.specs.Views.{opener, newcomer, lender, both, spent};

use crate::view::View;
use atomic_table::{Join, Play, Split, TableRule};
use bus_core::Core;

pub struct Order;

impl TableRule<(), View, Core> for Order {
    ghost holds = { λ core. Holds core.plan };

    ghost first = { opener };
}

/// A claim: a compare-exchange on a device's word.
pub struct Claim;

impl Play<(), View> for Claim {
    ghost then = { Claims };
}

/// A flight's look at a supplier: a load.
pub struct Look;

impl Play<(), View> for Look {
    ghost then = { Looks };
}

/// The end of a flight that saw all suppliers bound: a store.
pub struct Settling;

impl Play<(), View> for Settling {
    ghost then = { Settles };
}

/// The end of a flight that missed a supplier: a store.
pub struct Defer;

impl Play<(), View> for Defer {
    ghost then = { Defers };
}

/// A look at a supplier of an owed device: a load.
pub struct Check;

impl Play<(), View> for Check {
    ghost then = { Checks };
}

/// A wake of an owed device: a compare-exchange on its word.
pub struct Wake;

impl Play<(), View> for Wake {
    ghost then = { Wakes };
}

/// A load that tells only what has settled so far.
pub struct Note;

impl Play<(), View> for Note {
    ghost then = { Notes };
}

/// A further seat, which takes half of the share of the given one.
pub struct Further;

impl Split<View> for Further {
    ghost left = { lender };

    ghost right = { newcomer };
}

/// One seat out of two.
pub struct Together;

impl Join<View> for Together {
    ghost both = { both };

    ghost spent = { spent };
}
