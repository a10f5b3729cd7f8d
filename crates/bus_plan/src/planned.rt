ghost use Rattle.std.specs.Prelude.{◌≡◌, IfOk};
ghost use Rattle.std.specs.Option.{option_copied};

use crate::device::Device;
use crate::strings::copy_strings;
use crate::verdict::Verdict;
use dt_tree::{Bytes, Name, Path};
use std::alloc::{AllocError, Global};
use std::marker::Model;

/// A device of a plan: its path, whether it may be used, its driver, what that driver does, the devices that it needs, and
/// the strings by which a late driver may match it.
#[derive(Debug, Drop)]
pub struct Planned {
    path: Path,
    available: bool,
    driver: Option<Name>,
    verdict: Verdict,
    suppliers: Vec<Device>,
    compatibles: Vec<Bytes>,
}

impl Model for Planned {
    ghost use Rattle.bus_plan.specs.Plan.{PlannedDevice};

    ghost Value = { PlannedDevice };

    ghost view = { λ d. record {
      path = d.path;
      available = d.available;
      driver = d.driver;
      verdict = d.verdict;
      suppliers = d.suppliers.items;
      compatibles = d.compatibles.items;
    } };
}

impl Planned {
    /// The device of these parts.
    pub fn new(
        path: Path,
        available: bool,
        driver: Option<Name>,
        verdict: Verdict,
        suppliers: Vec<Device>,
        compatibles: Vec<Bytes>,
    ) -> Self
        ensures { result ≡ record {
          path = path;
          available = available;
          driver = driver;
          verdict = verdict;
          suppliers = suppliers.items;
          compatibles = compatibles.items;
        } }
    {
        Self {
            path,
            available,
            driver,
            verdict,
            suppliers,
            compatibles,
        }
    }

    /// Its path.
    pub fn path(&self) -> &Path
        ensures { result.now ≡ self.now.path }
    {
        &self.path
    }

    /// Whether it may be used.
    pub fn available(&self) -> bool
        ensures { result ≡ self.now.available }
    {
        self.available
    }

    /// The driver that matches it.
    pub fn driver(&self) -> Option<&Name>
        ensures { option_copied result ≡ self.now.driver }
    {
        self.driver.as_ref()
    }

    /// What its driver does once it is ready.
    pub fn verdict(&self) -> Verdict
        ensures { result ≡ self.now.verdict }
    {
        self.verdict
    }

    /// The devices that have to be bound before it.
    pub fn suppliers(&self) -> &[Device]
        ensures { result.now ≡ self.now.suppliers }
    {
        self.suppliers.as_slice()
    }

    /// The strings by which a late driver may match it: none where it isn't available or has a driver.
    pub fn compatibles(&self) -> &[Bytes]
        ensures { result.now ≡ self.now.compatibles }
    {
        self.compatibles.as_slice()
    }

    ghost use Rattle.bus_plan.specs.LateDriver.{driven_by};
    ghost use Rattle.bus_plan.specs.Private.Waiting.{is_unmatched};

    /// Whether it is available and has no driver.
    pub(crate) fn is_unmatched(&self) -> bool
        ensures { result ≡ is_unmatched self.now }
    {
        self.available && self.driver.is_none()
    }

    /// Gives it a driver, whose verdict is ok.
    pub fn take_driver(&mut self, name: Name)
        ensures { self.new ≡ driven_by name self.old }
    {
        self.driver = Some(name);
        self.verdict = Verdict::Binds;
        self.compatibles.clear();
    }

    /// An equal device.
    pub fn copy(&self, alloc: Global) -> Result<Self, AllocError>
        ensures { IfOk result (λ copy. copy ≡ self.now) }
    {
        let path = self.path.copy(alloc)?;
        let driver = copy_driver(alloc, self.driver.as_ref())?;
        let suppliers = Vec::from_slice(alloc, self.suppliers.as_slice())?;
        let compatibles = copy_strings(alloc, self.compatibles.as_slice())?;
        Ok(Self {
            path,
            available: self.available,
            driver,
            verdict: self.verdict,
            suppliers,
            compatibles,
        })
    }
}

fn copy_driver(alloc: Global, driver: Option<&Name>) -> Result<Option<Name>, AllocError>
    ensures { IfOk result (λ copy. copy ≡ option_copied driver.entry) }
{
    match driver {
        None => Ok(None),
        Some(name) => Ok(Some(name.copy(alloc)?)),
    }
}
