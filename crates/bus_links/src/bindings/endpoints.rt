//! The endpoints below each device, and what they name.
ghost use Rattle.std.specs.Prelude.{◌≡◌, ◌<◌, ℕ, [], IfOk, OnOk, map, replicate};
ghost use Rattle.std.specs.List.{slice_index_or};
ghost use Rattle.bus_links.specs.Bindings.BindingView.{is_strict};
ghost use Rattle.bus_links.specs.Bindings.Endpoints.{is_end_of, ends_of, holds_ports, port_holder, found_other_end, found_end, found_ends};
ghost use Rattle.bus_links.specs.Bindings.Mentions.{and_then, found_at};
ghost use Rattle.bus_links.specs.Bindings.Private.Ends.{end_device, GainsEnd};

use crate::bindings::binding::Strictness;
use crate::bindings::link_node::LinkNode;
use crate::bindings::mentions::Found;
use crate::bindings::naming::bytes;
use crate::bindings::nexus::before;
use crate::bindings::nodes::Nodes;
use dt_tree::cell_in;
use std::alloc::{AllocError, Global};
use std::marker::Model;

/// The places of the endpoints of each device.
#[derive(Drop)]
pub struct Ends {
    lists: Vec<Vec<usize>>,
}

impl Model for Ends {
    ghost use Rattle.std.specs.Prelude.{List, ℕ, map};

    ghost Value = { List (List ℕ) };

    ghost view = { λ e. map (λ list. list.items) e.lists.items };
}

fn empty_lists(alloc: Global, count: usize) -> Result<Vec<Vec<usize>>, AllocError>
    ensures { IfOk result (λ lists. map (λ list. list.items) lists.items ≡ replicate count []) }
{
    let mut lists = Vec::with_capacity(alloc, count)?;
    for _ in 0..count {
        lists.push(Vec::new(alloc))?;
    }
    Ok(lists)
}

// The device of which a node is an endpoint.
fn end_device(nodes: &Nodes<'_>, node: &LinkNode<'_>) -> Option<usize>
    ensures { result ≡ end_device nodes.now node.now }
{
    if node.node().value(b"remote-endpoint").is_some() && node.usable() {
        return nodes.device(node.above());
    }
    None
}

// Puts a node behind the endpoints of its device, if it is one.
fn add_end(
    lists: &mut Vec<Vec<usize>>,
    nodes: &Nodes<'_>,
    place: usize,
    node: &LinkNode<'_>,
) -> Result<(), AllocError>
    ensures { OnOk result (GainsEnd nodes.now place node.now
        (map (λ list. list.items) lists.old.items) (map (λ list. list.items) lists.new.items)) }
{
    let Some(device) = end_device(nodes, node) else {
        return Ok(());
    };
    if device >= lists.len() {
        return Ok(());
    }
    lists[device].push(place)?;
    Ok(())
}

impl Ends {
    /// Those of so many devices.
    pub fn of(alloc: Global, nodes: &Nodes<'_>, count: usize) -> Result<Self, AllocError>
        ensures { IfOk result (λ ends. (d : ℕ) → d < count → slice_index_or ends d [] ≡ ends_of nodes.now d) }
    {
        let mut lists = empty_lists(alloc, count)?;
        for (place, node) in nodes.as_slice().iter().enumerate() {
            add_end(&mut lists, nodes, place, node)?;
        }
        Ok(Self { lists })
    }

    /// Those of a device, in order.
    pub fn at(&self, device: usize) -> &[usize]
        ensures { result.now ≡ slice_index_or self.now device [] }
    {
        if device >= self.lists.len() {
            return &[];
        }
        self.lists[device].as_slice()
    }
}

// Whether a node holds ports alone.
fn holds_ports(nodes: &Nodes<'_>, place: usize) -> bool
    ensures { result ≡ holds_ports nodes.now place }
{
    let name = nodes.name(place);
    name == b"ports".as_slice() || name == b"in-ports".as_slice() || name == b"out-ports".as_slice()
}

// The node that holds the port of an endpoint.
fn port_holder(nodes: &Nodes<'_>, place: usize) -> usize
    ensures { result ≡ port_holder nodes.now place }
{
    let holder = nodes.above(nodes.above(place));
    if holds_ports(nodes, holder) {
        return nodes.above(holder);
    }
    holder
}

impl<'t> Found<'t> {
    // Adds the holder of the port to whose endpoint a phandle leads.
    fn add_other_end(&mut self, nodes: &Nodes<'_>, phandle: u32) -> Result<(), AllocError>
        ensures { OnOk result (self.new ≡ and_then self.old (found_other_end nodes.now phandle)) }
    {
        if phandle == 0 {
            return Ok(());
        }
        match nodes.with_phandle(phandle) {
            None => self.add_fault(b"remote-endpoint", 0),
            Some(place) => self.add(b"remote-endpoint", 0, port_holder(nodes, place)),
        }
    }

    // Adds what an endpoint names.
    fn add_end(&mut self, nodes: &Nodes<'_>, place: usize) -> Result<(), AllocError>
        ensures { OnOk result (self.new ≡ and_then self.old (found_end nodes.now place)) }
    {
        match cell_in(before(bytes(nodes, place, b"remote-endpoint"), 4)) {
            None => Ok(()),
            Some(phandle) => self.add_other_end(nodes, phandle),
        }
    }

    fn add_ends(&mut self, nodes: &Nodes<'_>, ends: &[usize]) -> Result<(), AllocError>
        ensures { OnOk result (self.new ≡ and_then self.old (found_ends nodes.now ends.now)) }
    {
        for place in ends {
            self.add_end(nodes, *place)?;
        }
        Ok(())
    }

    /// What the device of a node names: by the node's properties, and then by these endpoints.
    pub fn of_device(
        alloc: Global,
        nodes: &Nodes<'t>,
        strictness: Strictness,
        ends: &[usize],
        node: usize,
    ) -> Result<Self, AllocError>
        ensures { IfOk result (λ found. found
            ≡ and_then (found_at nodes.now (is_strict strictness) node) (found_ends nodes.now ends.now)) }
    {
        let mut found = Found::at(alloc, nodes, strictness, node)?;
        found.add_ends(nodes, ends)?;
        Ok(found)
    }
}
