//! Drivers that come late.

ghost use Rattle.std.specs.Prelude.{◌≡◌, true, None, IfOk, IfErr, OnOk, OnErr};
ghost use Rattle.bus_plan.specs.LateDriver.{gaining};
ghost use Rattle.bus_plan.specs.Plan.{is_driver_name};
ghost use Rattle.bus_core.specs.Step.{register_refusal, registered_core, registers, step, IsRefused};
ghost use Rattle.bus_core.specs.declared.refusal.Refusal.TheVariants.{NoMemory};

use crate::counts::mark;
use crate::refusal::Refusal;
use crate::state::Core;
use dt_tree::{Bytes, Name};
use std::alloc::Global;

impl Core {
    /// A driver comes late, by its name and the `compatible` strings that it matches: each available device without a
    /// driver that has one of them gets it, and is due. It tells how many did. A name that is a device's driver, or was
    /// registered before, is refused.
    pub fn register(
        &mut self,
        alloc: Global,
        name: &Name,
        compatibles: &[Bytes],
    ) -> Result<usize, Refusal>
        requires { is_driver_name name.now ≡ true }
        ensures refused { IfErr result (IsRefused (register_refusal self.old.plan self.old.state name.now)) }
        ensures allowed { OnOk result (register_refusal self.old.plan self.old.state name.now ≡ None) }
        ensures registered { OnOk result (self.new ≡ registered_core self.old name.now compatibles.now) }
        ensures gained { IfOk result (λ count. count ≡ gaining self.old.plan compatibles.now) }
        ensures err { OnErr result (self.new ≡ self.old) }
        ensures step { OnOk result (self.new ≡ step self.old (registers name.now compatibles.now)) }
    {
        match self.register_refusal(name) {
            Some(refusal) => Err(refusal),
            None => self.add_driver(alloc, name, compatibles),
        }
    }

    /// Why no driver of this name can come late, where none can: the name is a device's driver, or was registered before.
    pub fn register_refusal(&self, name: &Name) -> Option<Refusal>
        ensures { result ≡ register_refusal self.now.plan self.now.state name.now }
    {
        if self.plan.knows(name) {
            return Some(Refusal::KnownDriver);
        }
        if self.registered.contains(name.as_bytes()) {
            return Some(Refusal::KnownDriver);
        }
        None
    }

    // Registers a name that is new.
    fn add_driver(
        &mut self,
        alloc: Global,
        name: &Name,
        compatibles: &[Bytes],
    ) -> Result<usize, Refusal>
        requires named { is_driver_name name.now ≡ true }
        requires allowed { register_refusal self.old.plan self.old.state name.now ≡ None }
        ensures refused { IfErr result (λ refusal. refusal ≡ NoMemory) }
        ensures registered { OnOk result (self.new ≡ registered_core self.old name.now compatibles.now) }
        ensures gained { IfOk result (λ count. count ≡ gaining self.old.plan compatibles.now) }
        ensures err { OnErr result (self.new ≡ self.old) }
    {
        self.registered.push(alloc, name.as_bytes())?;
        match self.plan.register(alloc, name, compatibles) {
            // nobody gained, so the plan is what it was
            Ok(0) => Ok(0),
            Ok(count) => {
                mark(&self.plan, &self.phases, &self.missing, &mut self.due);
                Ok(count)
            }
            Err(_) => {
                self.registered.forget_last();
                Err(Refusal::NoMemory)
            }
        }
    }
}
