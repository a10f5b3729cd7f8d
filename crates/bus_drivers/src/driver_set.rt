ghost use Rattle.std.specs.Prelude.{◌≡◌, true};
ghost use Rattle.std.specs.List.{list_all};

use crate::driver::Driver;
use crate::fail_line::FailLine;
use std::marker::Model;

/// What a driver file says: drivers, whose names differ, and the devices whose driver fails.
#[derive(Debug, Drop)]
pub struct DriverSet {
    drivers: Vec<Driver>,
    fails: Vec<FailLine>,
}

impl Model for DriverSet {
    ghost use Rattle.bus_drivers.specs.Driver.{DriverSetData, IsDriverSet};

    ghost Value = { DriverSetData };

    ghost view = { λ s. record { drivers = s.drivers.items; fails = s.fails.items } };

    ghost invariant = { λ s. IsDriverSet (record { drivers = s.drivers.items; fails = s.fails.items }) };
}

impl DriverSet {
    ghost use Rattle.bus_drivers.specs.Driver.{IsDriverSet};

    pub(crate) fn new(drivers: Vec<Driver>, fails: Vec<FailLine>) -> Self
        requires { IsDriverSet (record { drivers = drivers.items; fails = fails.items }) }
        ensures { result ≡ record { drivers = drivers.items; fails = fails.items } }
    {
        Self { drivers, fails }
    }

    /// The drivers, in the file's order.
    pub fn drivers(&self) -> &[Driver]
        ensures { result.now ≡ self.now.drivers }
    {
        self.drivers.as_slice()
    }

    /// The lines `fail PATH`, in the file's order.
    pub fn fails(&self) -> &[FailLine]
        ensures { result.now ≡ self.now.fails }
    {
        self.fails.as_slice()
    }

    /// Costs nothing: tells a caller's proof that the names differ and none is `-`.
    pub fn check(&self)
        ensures { IsDriverSet self.now }
    {
        let _ = &self.drivers;
    }
}
