//! What a seat knows. It exists in proofs alone: no value of these types is made.

use bus_core::Settle;
use bus_plan::{Device, Plan};
use std::collections::LinkedList;

/// A flight: its device, how many devices had settled at its claim, whether it was claimed from WOKEN, and each of its looks
/// at a supplier with whether it found it BOUND, the last look first.
pub struct Flight {
    pub device: Device,
    pub at: usize,
    pub again: bool,
    pub looks: LinkedList<(Device, bool)>,
}

/// What had happened before a board was opened: the devices that had settled, in their order, and which were begun.
pub struct Opening {
    pub history: LinkedList<Settle>,
    /// Whether each device was.
    pub begun: LinkedList<bool>,
}

/// How much of its board is a seat's: so many parts, where the whole is halved so often.
pub struct Share {
    pub parts: usize,
    pub halvings: usize,
}

/// A seat's view of its board.
pub struct View {
    /// Whether it is a seat's: a seat that was given back leaves a view that isn't.
    pub live: bool,
    /// The first seat has the whole. A further seat has half of what the one had that it was made from, and a seat that is given
    /// back adds its own. So a seat that has the whole is the only one.
    pub share: Share,
    pub plan: Plan,
    pub opening: Opening,
    /// The settles that it has seen, the first ones of the board's history.
    pub seen: LinkedList<Settle>,
    /// What another seat had seen that was given back to it, where that was less.
    pub told: LinkedList<Settle>,
    /// The devices that it settled itself.
    pub mine: LinkedList<Device>,
    pub flight: Option<Flight>,
    /// Each device that it claimed, with the word that it was claimed from.
    pub claimed: LinkedList<(Device, u64)>,
    /// Each device whose claim it lost, with the word that it tried, in order.
    pub passed: LinkedList<(Device, u64)>,
    /// The devices that it has to wake, where they wait with all suppliers bound.
    pub owed: LinkedList<Device>,
}
