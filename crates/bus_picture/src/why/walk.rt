//! A walk from a device to its suppliers.

ghost use Rattle.std.specs.Prelude.{◌≡◌, ◌<◌, ◌+◌, ◌-◌, ◌^◌, ℕ, true, false, length, slice_index, IfOk, OnOk};
ghost use Rattle.bus_plan.specs.Plan.{suppliers_of};
ghost use Rattle.bus_picture.specs.Why.Private.Walk.{IsSoundWalk, IsWalkFrom, IsGone, IsLeft, steps_left};

use bus_plan::{Device, Plan};
use std::alloc::{AllocError, Global};

/// A walk that enters each device once, and leaves it behind all of its suppliers.
#[derive(Drop)]
pub struct Walk {
    /// Whether each device was entered.
    pub entered: Vec<bool>,
    /// To how many suppliers of each device the walk went.
    pub gone: Vec<usize>,
    /// The devices that were entered and not left: each is a supplier of the one before it.
    pub path: Vec<Device>,
    /// The devices that were left, in this order.
    pub left: Vec<Device>,
}

impl Walk {
    /// At its first device.
    pub fn at(alloc: Global, plan: &Plan, device: Device) -> Result<Self, AllocError>
        requires { device < length plan.now }
        ensures sound { IfOk result (IsSoundWalk plan.now) }
        ensures from { IfOk result (IsWalkFrom plan.now device) }
    {
        let mut entered = vec![in alloc; false; plan.len()]?;
        entered[device.index()] = true;
        let gone = vec![in alloc; 0; plan.len()]?;
        let mut path = Vec::new(alloc);
        path.push(device)?;
        Ok(Self {
            entered,
            gone,
            path,
            left: Vec::new(alloc),
        })
    }

    /// One step: to the next supplier of the last device of the path, or back from it where it has no other. Says whether there
    /// was a step to make.
    pub fn step(&mut self, plan: &Plan) -> Result<bool, AllocError>
        requires { IsSoundWalk plan.now self.old }
        ensures sound { OnOk result (IsSoundWalk plan.now self.new) }
        ensures from { OnOk result ((device : ℕ) → IsWalkFrom plan.now device self.old → IsWalkFrom plan.now device self.new) }
        ensures fewer { IfOk result (λ more. more ≡ true → steps_left plan.now self.new < steps_left plan.now self.old) }
        ensures ended { IfOk result (λ more. more ≡ false → length self.new.path.items ≡ 0) }
    {
        plan.check();
        let Some(device) = self.path.last().copied() else {
            return Ok(false);
        };
        let gone = self.gone[device.index()];
        let suppliers = plan.suppliers(device);
        if gone < suppliers.len() {
            self.go_to(device, suppliers[gone])?;
        } else {
            self.leave(device)?;
        }
        Ok(true)
    }

    // From a device to a supplier, which is entered where it wasn't.
    fn go_to(&mut self, device: Device, supplier: Device) -> Result<(), AllocError>
        requires device { device < length self.old.gone.items }
        requires more { slice_index self.old.gone.items device + 1 < 2 ^ 64 }
        requires supplier { supplier < length self.old.entered.items }
        ensures { OnOk result (IsGone self.old self.new device supplier) }
    {
        self.gone[device.index()] += 1;
        if self.entered[supplier.index()] {
            return Ok(());
        }
        self.entered[supplier.index()] = true;
        self.path.push(supplier)?;
        Ok(())
    }

    // Back from the last device of the path.
    fn leave(&mut self, device: Device) -> Result<(), AllocError>
        requires known { 0 < length self.old.path.items }
        requires last { slice_index self.old.path.items (length self.old.path.items - 1) ≡ device }
        ensures { OnOk result (IsLeft self.old self.new device) }
    {
        let _ = self.path.pop();
        self.left.push(device)?;
        Ok(())
    }
}
