//! What is still waited for when `deferred_probe_timeout` ends.
ghost use Rattle.std.specs.Prelude.{◌≡◌, ◌++◌, [], IfOk, OnOk, if◌then◌else◌, map};
ghost use Rattle.std.specs.Option.{option_to_list};
ghost use Rattle.bus_links.specs.Bindings.BindingView.{is_strict};
ghost use Rattle.bus_links.specs.LinkPlan.{is_lasting, is_waited_for, lacks_driver, late_link, late_links, parent_at, with_supplier};

use crate::bindings::Strictness;
use crate::device_links::DeviceLinks;
use crate::flags::flag_at;
use crate::links::Link;
use crate::relaxing::{is_relaxed, parent_at};
use bus_plan::{Device, Plan};
use std::alloc::{AllocError, Global};

// Whether a link stays, though no driver matches its supplier.
fn is_lasting(link: &Link<'_>) -> bool
    ensures { result ≡ is_lasting link.now }
{
    if link.is_bus() || link.is_part() {
        return true;
    }
    let name = link.property();
    name == b"gpio".as_slice()
        || name == b"gpios".as_slice()
        || name == b"power-domains".as_slice()
        || name == b"assigned-clock-parents".as_slice()
}

/// What the end of the timeout goes by: whether optional bindings count, which devices are early, the components, the plan until
/// then, and the bus of each device.
#[derive(Clone, Copy)]
pub struct Timeout<'m> {
    pub strictness: Strictness,
    pub early: &'m [bool],
    pub components: &'m [usize],
    pub plan: &'m Plan,
    pub buses: &'m [Option<usize>],
}

impl<'m> Timeout<'m> {
    fn lacks_driver(&self, device: Device) -> bool
        ensures { result ≡ lacks_driver self.now.plan.now device }
    {
        if device.index() >= self.plan.len() {
            return true;
        }
        self.plan.driver(device).is_none()
    }

    // Adds the link to the bus of the supplier in place of the one to the supplier.
    fn add_to_bus<'t>(&self, left: &mut Vec<Link<'t>>, link: &Link<'t>) -> Result<(), AllocError>
        ensures { OnOk result (left.new.items ≡ left.old.items
            ++ map (with_supplier link.now) (option_to_list (parent_at self.now.buses.now link.now.supplier))) }
    {
        let Some(bus) = parent_at(self.buses, link.supplier().index()) else {
            return Ok(());
        };
        left.push(link.with_supplier(Device::new(bus)))?;
        Ok(())
    }

    // Adds what is left of a link that was waited for.
    fn add_left<'t>(&self, left: &mut Vec<Link<'t>>, link: &Link<'t>) -> Result<(), AllocError>
        ensures { OnOk result (left.new.items ≡ left.old.items
            ++ late_link (is_strict self.now.strictness) self.now.plan.now self.now.buses.now link.now) }
    {
        if !self.strictness.is_strict() && link.property() == b"iommus".as_slice() {
            return Ok(());
        }
        if !is_lasting(link) && self.lacks_driver(link.supplier()) {
            return self.add_to_bus(left, link);
        }
        left.push(link.with_supplier(link.supplier()))?;
        Ok(())
    }

    fn is_waited_for(&self, link: &Link<'_>) -> bool
        ensures { result ≡ is_waited_for self.now.early.now self.now.components.now link.now }
    {
        !flag_at(self.early, link.supplier().index()) && !is_relaxed(self.components, link)
    }

    // Adds what is left of a link.
    fn add_link<'t>(&self, left: &mut Vec<Link<'t>>, link: &Link<'t>) -> Result<(), AllocError>
        ensures { OnOk result (left.new.items ≡ left.old.items
            ++ (if is_waited_for self.now.early.now self.now.components.now link.now
            then late_link (is_strict self.now.strictness) self.now.plan.now self.now.buses.now link.now else [])) }
    {
        if !self.is_waited_for(link) {
            return Ok(());
        }
        self.add_left(left, link)
    }

    // What is left of the links of a device.
    fn left_of<'t>(&self, alloc: Global, links: &[Link<'t>]) -> Result<DeviceLinks<'t>, AllocError>
        ensures { IfOk result (λ left. left ≡ late_links (is_waited_for self.now.early.now self.now.components.now)
            (late_link (is_strict self.now.strictness) self.now.plan.now self.now.buses.now) links.now) }
    {
        let mut left = Vec::new(alloc);
        for link in links {
            self.add_link(&mut left, link)?;
        }
        Ok(DeviceLinks::new(left))
    }

    /// What is left of the links of each device.
    pub fn links<'t>(
        &self,
        alloc: Global,
        links: &[DeviceLinks<'t>],
    ) -> Result<Vec<DeviceLinks<'t>>, AllocError>
        ensures { IfOk result (λ left. left.items
            ≡ map (late_links (is_waited_for self.now.early.now self.now.components.now)
            (late_link (is_strict self.now.strictness) self.now.plan.now self.now.buses.now)) links.now) }
    {
        let mut left = Vec::with_capacity(alloc, links.len())?;
        for own in links {
            left.push(self.left_of(alloc, own.as_slice())?)?;
        }
        Ok(left)
    }
}
