ghost use Rattle.std.specs.Prelude.{◌≡◌};

use std::marker::Model;

/// A device of a plan: its place in the plan's order, from 0.
#[derive(Clone, Copy, Debug, PartialEq, Eq)]
pub struct Device {
    index: usize,
}

impl Model for Device {
    ghost use Rattle.std.specs.Prelude.{ℕ};

    ghost Value = { ℕ };

    ghost view = { λ device. device.index };

    ghost inverse = { λ index. record { index = index } };
}

impl Device {
    /// The device at this place.
    pub fn new(index: usize) -> Self
        ensures { result ≡ index }
    {
        Self { index }
    }

    /// Its place in the plan's order.
    pub fn index(self) -> usize
        ensures { result ≡ self }
    {
        self.index
    }
}
