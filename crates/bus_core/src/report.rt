//! The text of a report.

ghost use Rattle.std.specs.Prelude.{◌≡◌, ◌<◌, ◌++◌, length, IfOk, IfErr, IfSome, OnOk, codes, not, if◌then◌else◌};
ghost use Rattle.bus_core.specs.History.{bound_in};
ghost use Rattle.bus_core.specs.RefinementReport.{IsNamedSupplier};
ghost use Rattle.bus_core.specs.Report.{missing_supplier, core_line, core_lines, report_text};

use crate::refusal::Refusal;
use crate::report_line::push_line;
use crate::state::Core;
use crate::status::Status;
use bus_plan::Device;
use std::alloc::{AllocError, Global};

fn last_line(is_quiet: bool) -> &'static [u8]
    ensures { result.now ≡ (if is_quiet then codes "quiet\n" else codes "busy\n") }
{
    if is_quiet { b"quiet\n" } else { b"busy\n" }
}

impl Core {
    // The first supplier of a device that isn't bound.
    fn missing_supplier(&self, device: Device) -> Option<Device>
        requires { device < length self.now.plan }
        ensures { result ≡ missing_supplier self.now.plan (bound_in self.now.state.history) device }
    {
        self.plan
            .suppliers(device)
            .iter()
            .copied()
            .find(|supplier| self.is_missing(*supplier))
    }

    // Whether a supplier isn't bound.
    fn is_missing(&self, supplier: Device) -> bool
        ensures { result ≡ not (bound_in self.now.state.history supplier) }
    {
        !self.is_bound(supplier)
    }

    // The supplier that the line of a device with this status names: only that of a waiting device is looked for.
    fn named_supplier(&self, device: Device, status: Status) -> Option<Device>
        requires { device < length self.now.plan }
        ensures line { IsNamedSupplier self.now.plan (bound_in self.now.state.history) device status result }
        ensures within { IfSome result (λ supplier. supplier < length self.now.plan) }
    {
        self.plan.check();
        match status {
            Status::Waiting => self.missing_supplier(device),
            _ => None,
        }
    }

    fn push_device(&self, text: &mut Vec<u8>, device: Device) -> Result<(), AllocError>
        requires { device < length self.now.plan }
        ensures { OnOk result (text.new.items ≡ text.old.items ++ core_line self.now.plan self.now.state device) }
    {
        let status = self.status(device);
        let missing = self.named_supplier(device, status);
        push_line(text, &self.plan, device, status, missing)
    }

    fn device_lines(&self, alloc: Global) -> Result<Vec<u8>, AllocError>
        ensures { IfOk result (λ text. text.items ≡ core_lines self.now.plan self.now.state) }
    {
        let mut text = Vec::new(alloc);
        for index in 0..self.plan.len() {
            self.push_device(&mut text, Device::new(index))?;
        }
        Ok(text)
    }

    /// One line a device in the plan's order, and then whether the core is quiet or busy.
    pub fn report(&self, alloc: Global) -> Result<Vec<u8>, Refusal>
        ensures text { IfOk result (λ text. text.items ≡ report_text self.now.plan self.now.state) }
        ensures err { IfErr result (λ refusal. refusal ≡ Refusal.NoMemory) }
    {
        let mut text = self.device_lines(alloc)?;
        text.extend_from_slice(last_line(self.is_quiet()))?;
        Ok(text)
    }
}
