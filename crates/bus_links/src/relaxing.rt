//! Which links are waited for: all but those to early devices and those that lie in a cycle.
ghost use Rattle.std.specs.Prelude.{◌≡◌, IfOk, OnOk, map, filter};
ghost use Rattle.std.specs.Option.{option_to_list};
ghost use Rattle.bus_drivers.specs.TreePlan.{planned_device};
ghost use Rattle.bus_drivers.specs.Private.Suppliers.{with_mentions};
ghost use Rattle.bus_plan.specs.Reach.Components.{component_of};
ghost use Rattle.bus_links.specs.LinkPlan.{is_relaxed, suppliers_by, links_at, parent_at, planned_by};
ghost use Rattle.bus_links.specs.Private.Counting.{passes};

use crate::device_links::DeviceLinks;
use crate::flags::flag_at;
use crate::links::Link;
use bus_drivers::{Matcher, Suppliers, TreeDevice};
use bus_plan::{Device, Planned};
use std::alloc::{AllocError, Global};
use std::hash::RandomState;

/// Which links count: all, or those between two of these components and those to buses.
#[derive(Clone, Copy)]
pub enum Counting<'c> {
    All,
    Relaxed(&'c [usize]),
}

/// The component of a device.
pub fn component_of(components: &[usize], device: usize) -> usize
    ensures { result ≡ component_of components.now device }
{
    if device >= components.len() {
        return 0;
    }
    components[device]
}

/// Whether a link lies in a cycle and is no link to a bus.
pub fn is_relaxed(components: &[usize], link: &Link<'_>) -> bool
    ensures { result ≡ is_relaxed components.now link.now }
{
    if link.is_bus() {
        return false;
    }
    component_of(components, link.consumer().index())
        == component_of(components, link.supplier().index())
}

impl<'c> Counting<'c> {
    fn passes(&self, early: &[bool], link: &Link<'_>) -> bool
        ensures { result ≡ passes early.now self.now link.now }
    {
        if flag_at(early, link.supplier().index()) {
            return false;
        }
        match self {
            Counting::All => true,
            Counting::Relaxed(components) => !is_relaxed(*components, link),
        }
    }
}

// Adds the suppliers of these links that count.
fn add_suppliers(
    suppliers: &mut Suppliers,
    early: &[bool],
    counting: &Counting<'_>,
    links: &[Link<'_>],
) -> Result<(), AllocError>
    ensures { OnOk result (suppliers.new ≡ with_mentions suppliers.old
        (map (λ l. l.supplier) (filter (passes early.now counting.now) links.now))) }
{
    for link in links {
        if counting.passes(early, link) {
            suppliers.add(link.supplier())?;
        }
    }
    Ok(())
}

fn add_parent(suppliers: &mut Suppliers, parent: Option<usize>) -> Result<(), AllocError>
    ensures { OnOk result (suppliers.new ≡ with_mentions suppliers.old (option_to_list parent)) }
{
    match parent {
        None => Ok(()),
        Some(parent) => suppliers.add(Device::new(parent)),
    }
}

// The suppliers of the device at this place.
fn suppliers_by(
    alloc: Global,
    hasher: RandomState,
    early: &[bool],
    counting: &Counting<'_>,
    own: usize,
    links: &[Link<'_>],
    parent: Option<usize>,
) -> Result<Vec<Device>, AllocError>
    ensures { IfOk result (λ suppliers. suppliers.items
        ≡ suppliers_by (passes early.now counting.now) own links.now parent) }
{
    let device = Device::new(own);
    let mut suppliers = Suppliers::new(alloc, hasher, device);
    add_suppliers(&mut suppliers, early, counting, links)?;
    add_parent(&mut suppliers, parent)?;
    Ok(suppliers.devices(alloc)?)
}

// The links of the device at a place.
fn links_at<'l, 't>(links: &'l [DeviceLinks<'t>], own: usize) -> &'l [Link<'t>]
    ensures { result.now ≡ links_at links.now own }
{
    if own >= links.len() {
        return &[];
    }
    links[own].as_slice()
}

/// The parent of the device at a place.
pub fn parent_at(parents: &[Option<usize>], own: usize) -> Option<usize>
    ensures { result ≡ parent_at parents.now own }
{
    if own >= parents.len() {
        return None;
    }
    parents[own]
}

// A device with its driver, the suppliers of its links that count, and its parent.
fn planned_device(
    alloc: Global,
    hasher: RandomState,
    matcher: &Matcher<'_>,
    early: &[bool],
    counting: &Counting<'_>,
    links: &[Link<'_>],
    parent: Option<usize>,
    own: usize,
    device: &TreeDevice<'_>,
) -> Result<Planned, AllocError>
    ensures { IfOk result (λ planned. planned ≡ planned_device matcher.now device.now
        (suppliers_by (passes early.now counting.now) own links.now parent)) }
{
    let suppliers = suppliers_by(alloc, hasher, early, counting, own, links, parent)?;
    matcher.planned(alloc, device, suppliers)
}

/// The devices, each with the suppliers of its links that count, and its parent.
pub fn planned_devices(
    alloc: Global,
    hasher: RandomState,
    matcher: &Matcher<'_>,
    devices: &[TreeDevice<'_>],
    links: &[DeviceLinks<'_>],
    parents: &[Option<usize>],
    early: &[bool],
    counting: &Counting<'_>,
) -> Result<Vec<Planned>, AllocError>
    ensures { IfOk result (λ planned. planned.items
        ≡ planned_by matcher.now (passes early.now counting.now) parents.now links.now 0 devices.now) }
{
    let mut planned = Vec::with_capacity(alloc, devices.len())?;
    for (own, device) in devices.iter().enumerate() {
        let (own_links, parent) = (links_at(links, own), parent_at(parents, own));
        planned.push(planned_device(
            alloc, hasher, matcher, early, counting, own_links, parent, own, device,
        )?)?;
    }
    Ok(planned)
}
