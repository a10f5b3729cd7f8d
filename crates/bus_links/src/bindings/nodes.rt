//! A tree's nodes, each found by its place or its phandle.
ghost use Rattle.std.specs.Prelude.{◌≡◌, ℕ, nat_eq, IfOk, OnOk, None};
ghost use Rattle.std.specs.Option.{option_copied};
ghost use Rattle.dt_tree.specs.Phandle.{or_else};
ghost use Rattle.indexmap.specs.IndexMap.{get};
ghost use Rattle.bus_links.specs.Bindings.LinkNodes.{has_phandle, place_from, is_power_core, is_power};
ghost use Rattle.bus_links.specs.Bindings.Private.Walk.{own_place};

use crate::bindings::link_node::LinkNode;
use crate::bindings::nexus::before;
use crate::bindings::walk::Walk;
use bus_drivers::{is_compatible, is_okay};
use dt_tree::{Bytes, Node, Property, Tree};
use indexmap::IndexMap;
use std::alloc::{AllocError, Global};
use std::hash::RandomState;
use std::marker::Model;

/// The nodes of a tree in preorder, the first with each phandle, and whether it is that of a PowerPC machine.
#[derive(Drop)]
pub struct Nodes<'t> {
    nodes: Vec<LinkNode<'t>>,
    places: IndexMap<u32, usize, RandomState>,
    power: bool,
}

impl<'t> Model for Nodes<'t> {
    ghost use Rattle.std.specs.Prelude.{◌≡◌, ℕ, List, nat_eq};
    ghost use Rattle.indexmap.specs.IndexMap.{get};
    ghost use Rattle.bus_links.specs.Bindings.LinkNodes.{LinkNode as Data, place_with, is_power};

    ghost Value = { List Data };

    ghost view = { λ n. n.nodes.items };

    ghost invariant = { λ n. ((phandle : ℕ) → get nat_eq n.places phandle ≡ place_with n.nodes.items phandle)
        × (n.power ≡ is_power n.nodes.items) };
}

// Of several nodes with one phandle, the first stays.
fn keep_place(
    places: &mut IndexMap<u32, usize, RandomState>,
    node: &Node,
    place: usize,
) -> Result<(), AllocError>
    ensures { OnOk result ((q : ℕ) → get nat_eq places.new q
        ≡ or_else (get nat_eq places.old q) (own_place node.now.properties place q)) }
{
    let Some(phandle) = node.phandle() else {
        return Ok(());
    };
    if !places.contains_key(&phandle) {
        places.insert(phandle, place)?;
    }
    Ok(())
}

fn keep_places(
    places: &mut IndexMap<u32, usize, RandomState>,
    nodes: &[LinkNode<'_>],
) -> Result<(), AllocError>
    requires { (q : ℕ) → get nat_eq places.old q ≡ None }
    ensures { OnOk result ((q : ℕ) → get nat_eq places.new q ≡ place_from 0 q nodes.now) }
{
    for (place, node) in nodes.iter().enumerate() {
        keep_place(places, node.node(), place)?;
    }
    Ok(())
}

fn is_power_core(node: &LinkNode<'_>) -> bool
    ensures { result ≡ is_power_core node.now }
{
    before(node.node().name_bytes(), 8) == b"PowerPC,".as_slice()
}

fn is_power(nodes: &[LinkNode<'_>]) -> bool
    ensures { result ≡ is_power nodes.now }
{
    for node in nodes {
        if is_power_core(node) {
            return true;
        }
    }
    false
}

impl<'t> Nodes<'t> {
    ghost use Rattle.bus_drivers.specs.Nodes.{is_compatible, is_okay};
    ghost use Rattle.bus_links.specs.Bindings.LinkNodes.{node_at, value_at, place_with, is_power, tree_nodes};

    /// The nodes of a tree.
    pub fn of(alloc: Global, hasher: RandomState, tree: &'t Tree) -> Result<Self, AllocError>
        ensures { IfOk result (λ nodes. nodes ≡ tree_nodes tree.now.root) }
    {
        let nodes = Walk::over(alloc, tree.root())?;
        let mut places = IndexMap::with_hasher(alloc, hasher);
        keep_places(&mut places, nodes.as_slice())?;
        let power = is_power(nodes.as_slice());
        Ok(Self {
            nodes,
            places,
            power,
        })
    }

    /// All of them, in preorder.
    pub fn as_slice(&self) -> &[LinkNode<'t>]
        ensures { result.now ≡ self.now }
    {
        self.nodes.as_slice()
    }

    /// The first with this phandle.
    pub fn with_phandle(&self, phandle: u32) -> Option<usize>
        ensures { result ≡ place_with self.now phandle }
    {
        self.places.get(&phandle).copied()
    }

    /// Whether the tree is that of a PowerPC machine.
    pub fn is_power(&self) -> bool
        ensures { result ≡ is_power self.now }
    {
        self.power
    }

    /// A node's name.
    pub fn name(&self, place: usize) -> &[u8]
        ensures { result.now ≡ (node_at self.now place).name }
    {
        if place >= self.nodes.len() {
            return &[];
        }
        self.nodes[place].node().name_bytes()
    }

    /// Whether a node has `compatible`.
    pub fn is_compatible(&self, place: usize) -> bool
        ensures { result ≡ is_compatible (node_at self.now place).properties }
    {
        if place >= self.nodes.len() {
            return false;
        }
        is_compatible(self.nodes[place].node())
    }

    /// The value of a node's property of this name.
    pub fn value(&self, place: usize, name: &[u8]) -> Option<&'t Bytes>
        ensures { option_copied result ≡ value_at self.now place name.now }
    {
        if place >= self.nodes.len() {
            return None;
        }
        self.nodes[place].node().value(name)
    }

    /// A node's properties, in order.
    pub fn properties(&self, place: usize) -> &'t [Property]
        ensures { result.now ≡ (node_at self.now place).properties }
    {
        if place >= self.nodes.len() {
            return &[];
        }
        self.nodes[place].node().properties()
    }

    /// The place of the node above one.
    pub fn above(&self, place: usize) -> usize
        ensures { result ≡ (node_at self.now place).above }
    {
        if place >= self.nodes.len() {
            return 0;
        }
        self.nodes[place].above()
    }

    /// Whether a node and each above it is okay.
    pub fn usable(&self, place: usize) -> bool
        ensures { result ≡ (node_at self.now place).usable }
    {
        if place >= self.nodes.len() {
            return false;
        }
        self.nodes[place].usable()
    }

    /// Whether a node by itself is okay.
    pub fn okay(&self, place: usize) -> bool
        ensures { result ≡ is_okay (node_at self.now place).properties }
    {
        if place >= self.nodes.len() {
            return true;
        }
        is_okay(self.nodes[place].node())
    }

    /// The nearest device at or above a node, by its place among the devices.
    pub fn device(&self, place: usize) -> Option<usize>
        ensures { result ≡ (node_at self.now place).device }
    {
        if place >= self.nodes.len() {
            return None;
        }
        self.nodes[place].device()
    }
}
