ghost use Rattle.std.specs.Prelude.{◌≡◌, IfOk, true, map};
ghost use Rattle.bus_plan.specs.Plan.{is_driver_name};

use dt_tree::{Bytes, Name};
use std::marker::Model;

/// A driver: its name, and the `compatible` strings that it matches.
#[derive(Debug, Drop)]
pub struct Driver {
    name: Name,
    compatibles: Vec<Bytes>,
}

impl Model for Driver {
    ghost use Rattle.std.specs.Prelude.{◌≡◌, true};
    ghost use Rattle.bus_plan.specs.Plan.{is_driver_name};
    ghost use Rattle.bus_drivers.specs.Driver.{DriverData};

    ghost Value = { DriverData };

    ghost view = { λ d. record { name = d.name; compatibles = d.compatibles.items } };

    ghost invariant = { λ d. is_driver_name d.name ≡ true };
}

impl Driver {
    pub(crate) fn new(name: Name, compatibles: Vec<Bytes>) -> Self
        requires { is_driver_name name ≡ true }
        ensures { result ≡ record { name = name; compatibles = compatibles.items } }
    {
        Self { name, compatibles }
    }

    /// The name, which isn't `-`.
    pub fn name(&self) -> &Name
        ensures value { result.now ≡ self.now.name }
        ensures lawful { is_driver_name self.now.name ≡ true }
    {
        &self.name
    }

    /// The strings that it matches, in the file's order.
    pub fn compatibles(&self) -> &[Bytes]
        ensures { result.now ≡ self.now.compatibles }
    {
        self.compatibles.as_slice()
    }
}
