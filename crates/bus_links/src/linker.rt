//! The links of a tree's devices.
ghost use Rattle.std.specs.Prelude.{◌≡◌, ◌++◌, ◌<◌, ℕ, [], IfOk, OnOk, length, map};
ghost use Rattle.std.specs.List.{slice_index_or};
ghost use Rattle.std.specs.Option.{option_to_list};
ghost use Rattle.bus_links.specs.Bindings.BindingView.{is_strict};
ghost use Rattle.bus_links.specs.Bindings.Endpoints.{ends_of};
ghost use Rattle.bus_links.specs.Links.{supplier_at, supplier_of, link_by, links_by, bus_above, bus_link, links_of, warned, warnings_of, node_of, links_from, warnings_from};

use crate::bindings::{Ends, Fault, Found, Mention, Nodes, Strictness};
use crate::bus_above::{bus_above, node_of};
use crate::device_links::DeviceLinks;
use crate::links::{Link, Warning};
use bus_drivers::TreeDevice;
use bus_plan::Device;
use std::alloc::{AllocError, Global};

/// What links are made of: a tree's nodes, the endpoints of its devices, the devices, which of them are buses that Linux makes the
/// devices of by itself, and whether optional bindings count.
#[derive(Clone, Copy)]
pub struct Linker<'l, 't> {
    pub nodes: &'l Nodes<'t>,
    pub ends: &'l Ends,
    pub devices: &'l [TreeDevice<'t>],
    pub buses: &'l [bool],
    pub strictness: Strictness,
}

impl<'l, 't> Linker<'l, 't> {
    // The device at a place, if it may be used and isn't the consumer.
    fn supplier_at(&self, own: usize, place: usize) -> Option<usize>
        ensures { result ≡ supplier_at self.now.devices.now own place }
    {
        if place >= self.devices.len() || place == own {
            return None;
        }
        if !self.devices[place].available() {
            return None;
        }
        Some(place)
    }

    // The device that a node makes the consumer wait for.
    fn supplier_of(&self, own: usize, node: usize) -> Option<usize>
        ensures { result ≡ supplier_of self.now.nodes.now self.now.devices.now own node }
    {
        if !self.nodes.usable(node) {
            return None;
        }
        let Some(place) = self.nodes.device(node) else {
            return None;
        };
        self.supplier_at(own, place)
    }

    // Adds the link that a mention makes, if it makes one.
    fn add_link(
        &self,
        links: &mut Vec<Link<'t>>,
        own: usize,
        mention: &Mention<'t>,
    ) -> Result<(), AllocError>
        ensures { OnOk result (links.new.items ≡ links.old.items ++ map (link_by self.now.nodes.now own mention.now)
            (option_to_list (supplier_of self.now.nodes.now self.now.devices.now own mention.now.node))) }
    {
        let Some(supplier) = self.supplier_of(own, mention.node) else {
            return Ok(());
        };
        let (own, supplier) = (Device::new(own), Device::new(supplier));
        let is_part = !self.nodes.is_compatible(mention.node);
        links.push(Link::new(own, supplier, mention.property, mention.entry, is_part))?;
        Ok(())
    }

    fn add_links(
        &self,
        links: &mut Vec<Link<'t>>,
        own: usize,
        mentions: &[Mention<'t>],
    ) -> Result<(), AllocError>
        ensures { OnOk result (links.new.items ≡ links.old.items
            ++ links_by self.now.nodes.now self.now.devices.now own mentions.now) }
    {
        for mention in mentions {
            self.add_link(links, own, mention)?;
        }
        Ok(())
    }

    // Adds the link to the bus above the device of this node, if there is one.
    fn add_bus(&self, links: &mut Vec<Link<'t>>, own: usize, node: usize) -> Result<(), AllocError>
        ensures { OnOk result (links.new.items ≡ links.old.items ++ map (bus_link own)
            (option_to_list (bus_above self.now.nodes.now self.now.buses.now own node))) }
    {
        let Some(bus) = bus_above(self.nodes, self.buses, own, node) else {
            return Ok(());
        };
        links.push(Link::to_bus(Device::new(own), Device::new(bus)))?;
        Ok(())
    }

    // The links of an available device.
    fn links_by(
        &self,
        alloc: Global,
        own: usize,
        node: usize,
        found: &Found<'t>,
    ) -> Result<DeviceLinks<'t>, AllocError>
        ensures { IfOk result (λ links. links
            ≡ links_by self.now.nodes.now self.now.devices.now own found.now.mentions
            ++ map (bus_link own) (option_to_list (bus_above self.now.nodes.now self.now.buses.now own node))) }
    {
        let mut links = Vec::new(alloc);
        self.add_links(&mut links, own, found.mentions())?;
        self.add_bus(&mut links, own, node)?;
        Ok(DeviceLinks::new(links))
    }

    /// The links of the device at this place and node, and what its properties are warned of.
    fn links_of(
        &self,
        alloc: Global,
        warnings: &mut Vec<Warning<'t>>,
        consumer: &TreeDevice<'t>,
        own: usize,
        node: usize,
    ) -> Result<DeviceLinks<'t>, AllocError>
        requires { slice_index_or self.now.ends.now own [] ≡ ends_of self.now.nodes.now own }
        ensures links { IfOk result (λ links. links ≡ links_of self.now.nodes.now self.now.devices.now self.now.buses.now
            (is_strict self.now.strictness) consumer.now own node) }
        ensures warnings { OnOk result (warnings.new.items ≡ warnings.old.items
            ++ warnings_of self.now.nodes.now (is_strict self.now.strictness) consumer.now own node) }
    {
        if !consumer.available() {
            return Ok(DeviceLinks::new(Vec::new(alloc)));
        }
        let ends = self.ends.at(own);
        let found = Found::of_device(alloc, self.nodes, self.strictness, ends, node)?;
        add_warnings(warnings, own, found.faults())?;
        self.links_by(alloc, own, node, &found)
    }

    /// The links of each device, and what is warned of. `places` are the devices' nodes.
    pub fn all_links(
        &self,
        alloc: Global,
        warnings: &mut Vec<Warning<'t>>,
        places: &[usize],
    ) -> Result<Vec<DeviceLinks<'t>>, AllocError>
        requires { (d : ℕ) → d < length self.now.devices.now
            → slice_index_or self.now.ends.now d [] ≡ ends_of self.now.nodes.now d }
        ensures links { IfOk result (λ links. links.items
            ≡ links_from self.now.nodes.now self.now.devices.now self.now.buses.now
            (is_strict self.now.strictness) places.now 0 self.now.devices.now) }
        ensures warnings { OnOk result (warnings.new.items ≡ warnings.old.items
            ++ warnings_from self.now.nodes.now (is_strict self.now.strictness) places.now 0 self.now.devices.now) }
    {
        let mut links = Vec::with_capacity(alloc, self.devices.len())?;
        for (own, device) in self.devices.iter().enumerate() {
            let node = node_of(places, own);
            links.push(self.links_of(alloc, warnings, device, own, node)?)?;
        }
        Ok(links)
    }
}

fn add_warnings<'t>(
    warnings: &mut Vec<Warning<'t>>,
    own: usize,
    faults: &[Fault<'t>],
) -> Result<(), AllocError>
    ensures { OnOk result (warnings.new.items ≡ warnings.old.items ++ map (warned own) faults.now) }
{
    for fault in faults {
        warnings.push(Warning::new(Device::new(own), fault.property, fault.entry))?;
    }
    Ok(())
}
