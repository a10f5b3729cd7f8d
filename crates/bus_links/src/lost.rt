//! What devices name that is disabled. No link is made by it (drivers/of/property.c: `of_link_to_phandle`), so nothing waits for it, but
//! the driver won't find it.
ghost use Rattle.std.specs.Prelude.{◌≡◌, ◌++◌, ◌<◌, ℕ, [], IfOk, OnOk, length, map};
ghost use Rattle.std.specs.List.{slice_index_or};
ghost use Rattle.std.specs.Option.{option_to_list};
ghost use Rattle.bus_links.specs.Bindings.BindingView.{is_strict};
ghost use Rattle.bus_links.specs.Bindings.Endpoints.{ends_of};
ghost use Rattle.bus_links.specs.Links.{link_by};
ghost use Rattle.bus_links.specs.Lost.{lost_supplier, lost_by, lost_of, lost_from, tree_lost};

use crate::bindings::{Ends, Found, Mention, Nodes, Strictness};
use crate::bus_above::{device_places, node_of};
use crate::links::Link;
use bus_plan::Device;
use dt_tree::Tree;
use std::alloc::{AllocError, Global};
use std::hash::RandomState;

/// What the entries are sought by: a tree's nodes, the places of its devices, their endpoints, and whether optional bindings count.
#[derive(Clone, Copy)]
struct Search<'s, 't> {
    nodes: &'s Nodes<'t>,
    places: &'s [usize],
    ends: &'s Ends,
    strictness: Strictness,
}

impl<'s, 't> Search<'s, 't> {
    // The nearest device at or above a node, where it isn't usable.
    fn lost_supplier(&self, node: usize) -> Option<usize>
        ensures { result ≡ lost_supplier self.now.nodes.now self.now.places.now node }
    {
        let Some(device) = self.nodes.device(node) else {
            return None;
        };
        if self.nodes.usable(node_of(self.places, device)) {
            return None;
        }
        Some(device)
    }

    // Adds an entry, if it leads to a disabled device.
    fn add_mention(
        &self,
        lost: &mut Vec<Link<'t>>,
        own: usize,
        mention: &Mention<'t>,
    ) -> Result<(), AllocError>
        ensures { OnOk result (lost.new.items ≡ lost.old.items ++ map (link_by self.now.nodes.now own mention.now)
            (option_to_list (lost_supplier self.now.nodes.now self.now.places.now mention.now.node))) }
    {
        let Some(supplier) = self.lost_supplier(mention.node) else {
            return Ok(());
        };
        let (own, supplier) = (Device::new(own), Device::new(supplier));
        let is_part = !self.nodes.is_compatible(mention.node);
        lost.push(Link::new(own, supplier, mention.property, mention.entry, is_part))?;
        Ok(())
    }

    fn add_mentions(
        &self,
        lost: &mut Vec<Link<'t>>,
        own: usize,
        mentions: &[Mention<'t>],
    ) -> Result<(), AllocError>
        ensures { OnOk result (lost.new.items ≡ lost.old.items
            ++ lost_by self.now.nodes.now self.now.places.now own mentions.now) }
    {
        for mention in mentions {
            self.add_mention(lost, own, mention)?;
        }
        Ok(())
    }

    // Adds those of the device at this place and node.
    fn add_device(
        &self,
        alloc: Global,
        lost: &mut Vec<Link<'t>>,
        own: usize,
        node: usize,
    ) -> Result<(), AllocError>
        requires { slice_index_or self.now.ends.now own [] ≡ ends_of self.now.nodes.now own }
        ensures { OnOk result (lost.new.items ≡ lost.old.items
            ++ lost_of self.now.nodes.now self.now.places.now (is_strict self.now.strictness) own node) }
    {
        if !self.nodes.usable(node) {
            return Ok(());
        }
        let ends = self.ends.at(own);
        let found = Found::of_device(alloc, self.nodes, self.strictness, ends, node)?;
        self.add_mentions(lost, own, found.mentions())
    }

    // Those of each device.
    fn all(&self, alloc: Global) -> Result<Vec<Link<'t>>, AllocError>
        requires { (d : ℕ) → d < length self.now.places.now
            → slice_index_or self.now.ends.now d [] ≡ ends_of self.now.nodes.now d }
        ensures { IfOk result (λ lost. lost.items ≡ lost_from self.now.nodes.now self.now.places.now
            (is_strict self.now.strictness) 0 self.now.places.now) }
    {
        let mut lost = Vec::new(alloc);
        for (own, node) in self.places.iter().enumerate() {
            self.add_device(alloc, &mut lost, own, *node)?;
        }
        Ok(lost)
    }
}

/// The entries by which a tree's usable devices name a disabled device, or a part of one, as links in the order of consumers.
pub fn lost_links<'t>(
    alloc: Global,
    hasher: RandomState,
    tree: &'t Tree,
    strictness: Strictness,
) -> Result<Vec<Link<'t>>, AllocError>
    ensures { IfOk result (λ lost. lost.items ≡ tree_lost tree.now.root (is_strict strictness)) }
{
    let nodes = Nodes::of(alloc, hasher, tree)?;
    let places = device_places(alloc, nodes.as_slice())?;
    let ends = Ends::of(alloc, &nodes, places.len())?;
    let search = Search {
        nodes: &nodes,
        places: places.as_slice(),
        ends: &ends,
        strictness,
    };
    search.all(alloc)
}
