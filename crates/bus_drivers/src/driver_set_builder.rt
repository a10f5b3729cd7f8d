ghost use Rattle.std.specs.Prelude.{◌≡◌, ◌⊎◌, [], IfErr, OnOk, OnErr, Ok, Err};
ghost use Rattle.bus_plan.specs.declared.error.PlanError.TheVariants.{NoMemory};
ghost use Rattle.bus_drivers.specs.DriverFile.{with_driver, with_fail, with_statement};

use crate::driver::Driver;
use crate::driver_set::DriverSet;
use crate::fail_line::FailLine;
use crate::statement::Statement;
use bus_plan::{PathIndex, PlanError};
use std::alloc::{AllocError, Global};
use std::hash::RandomState;
use std::marker::Model;

/// A driver set while its file is read: its names are looked up by their bytes.
#[derive(Drop)]
pub struct DriverSetBuilder {
    drivers: Vec<Driver>,
    fails: Vec<FailLine>,
    names: PathIndex,
}

impl Model for DriverSetBuilder {
    ghost use Rattle.bus_drivers.specs.Driver.{DriverSetData};
    ghost use Rattle.bus_drivers.specs.DriverSetBuilder.{IsDriverSetBuilder};

    ghost Value = { DriverSetData };

    ghost view = { λ s. record { drivers = s.drivers.items; fails = s.fails.items } };

    ghost invariant = { λ s. IsDriverSetBuilder s.drivers.items s.names };
}

impl DriverSetBuilder {
    /// No drivers yet.
    pub fn new(alloc: Global, hasher: RandomState) -> Self
        ensures { result ≡ record { drivers = []; fails = [] } }
    {
        Self {
            drivers: Vec::new(alloc),
            fails: Vec::new(alloc),
            names: PathIndex::new(alloc, hasher),
        }
    }

    // Room is made before the first change.
    fn add_driver(&mut self, alloc: Global, number: usize, driver: Driver) -> Result<(), PlanError>
        ensures ok { OnOk result (with_driver number self.old driver ≡ Ok self.new) }
        ensures err { IfErr result (λ e. (e ≡ NoMemory)
            ⊎ (with_driver number self.old driver ≡ Err e)) }
    {
        let name = driver.name().as_bytes();
        if self.names.contains(name) {
            return Err(PlanError::DuplicateDriver(number));
        }
        self.drivers.reserve(1)?;
        self.names.push(alloc, name)?;
        self.drivers.push(driver).unwrap();
        Ok(())
    }

    fn add_fail(&mut self, fail: FailLine) -> Result<(), AllocError>
        ensures { OnOk result (self.new ≡ with_fail self.old fail) }
    {
        self.fails.push(fail)?;
        Ok(())
    }

    /// Puts a line's statement last.
    pub fn add(
        &mut self,
        alloc: Global,
        number: usize,
        statement: Statement,
    ) -> Result<(), PlanError>
        ensures ok { OnOk result (with_statement number self.old statement ≡ Ok self.new) }
        ensures err { IfErr result (λ e. (e ≡ NoMemory)
            ⊎ (with_statement number self.old statement ≡ Err e)) }
    {
        match statement {
            Statement::Matches(driver) => self.add_driver(alloc, number, driver)?,
            Statement::Fails(fail) => self.add_fail(fail)?,
        }
        Ok(())
    }

    /// The set, once all lines are read.
    pub fn finish(self) -> DriverSet
        ensures { result ≡ self }
    {
        DriverSet::new(self.drivers, self.fails)
    }
}
