ghost use Rattle.std.specs.Prelude.{◌≡◌};
ghost use Rattle.bus_drivers.specs.Driver.{IsDriverSet};

use bus_drivers::DriverSet;
use bus_plan::PathIndex;
use std::marker::Model;

/// What a driver file with lines `early` and `bus` says: the driver set, the `compatible` strings of the devices that are set up
/// before the bus begins, and those of the buses whose devices are made without a driver for the bus.
#[derive(Drop)]
pub struct LinkDrivers {
    drivers: DriverSet,
    early: PathIndex,
    buses: PathIndex,
}

impl Model for LinkDrivers {
    ghost use Rattle.bus_links.specs.LinkDrivers.{LinkDriversData};

    ghost Value = { LinkDriversData };

    ghost view = { λ s. record { drivers = s.drivers; early = s.early; buses = s.buses } };
}

impl LinkDrivers {
    /// The set of these parts.
    pub(crate) fn new(drivers: DriverSet, early: PathIndex, buses: PathIndex) -> Self
        ensures { result ≡ record { drivers = drivers; early = early; buses = buses } }
    {
        Self {
            drivers,
            early,
            buses,
        }
    }

    /// The drivers and the devices whose driver fails.
    pub fn drivers(&self) -> &DriverSet
        ensures { result.now ≡ self.now.drivers }
    {
        &self.drivers
    }

    /// The strings of early devices.
    pub fn early(&self) -> &PathIndex
        ensures { result.now ≡ self.now.early }
    {
        &self.early
    }

    /// The strings of buses whose devices are made without a driver.
    pub fn buses(&self) -> &PathIndex
        ensures { result.now ≡ self.now.buses }
    {
        &self.buses
    }
}
