//! A tree's nodes, each found by its place or its phandle.
ghost use Rattle.std.specs.Prelude.{◌≡◌, ◌<◌, ℕ, nat_eq, length, take, IfOk, OnOk, None};
ghost use Rattle.std.specs.Option.{option_copied};
ghost use Rattle.dt_tree.specs.Phandle.{or_else};
ghost use Rattle.indexmap.specs.IndexMap.{get};
ghost use Rattle.dt_check.specs.Nodes.{number_of, place_from};
ghost use Rattle.dt_check.specs.Private.Places.{own_place};

use crate::here::Here;
use crate::message::Bus;
use crate::placed::Placed;
use crate::walk::nodes_of;
use dt_tree::{Bytes, Node, Tree};
use indexmap::IndexMap;
use std::alloc::{AllocError, Global};
use std::hash::RandomState;
use std::marker::Model;

/// The nodes of a tree in preorder, and the first with each phandle.
#[derive(Drop)]
pub struct Survey<'t> {
    nodes: Vec<Placed<'t>>,
    places: IndexMap<u32, usize, RandomState>,
}

impl<'t> Model for Survey<'t> {
    ghost use Rattle.std.specs.Prelude.{◌≡◌, ℕ, List, nat_eq};
    ghost use Rattle.std.specs.Coded.{coded_list};
    ghost use Rattle.indexmap.specs.IndexMap.{get};
    ghost use Rattle.dt_check.specs.Nodes.{PlacedData, place_with, coded_placed};

    ghost Value = { List PlacedData };

    ghost coded = { coded_list coded_placed };

    ghost view = { λ s. s.nodes.items };

    ghost invariant = { λ s. (phandle : ℕ) → get nat_eq s.places phandle ≡ place_with s.nodes.items phandle };
}

// The phandle of a node.
fn number_of(placed: &Placed<'_>) -> Option<u32>
    ensures { result ≡ number_of placed.now.node.properties }
{
    if let Some(phandle) = placed.node().phandle() {
        return Some(phandle);
    }
    match placed.value(b"linux,phandle") {
        None => None,
        Some(value) => value.phandle(),
    }
}

// Of several nodes with one phandle, the first stays.
fn keep_place(
    places: &mut IndexMap<u32, usize, RandomState>,
    placed: &Placed<'_>,
    place: usize,
) -> Result<(), AllocError>
    ensures { OnOk result ((q : ℕ) → get nat_eq places.new q
        ≡ or_else (get nat_eq places.old q) (own_place placed.now.node.properties place q)) }
{
    let Some(phandle) = number_of(placed) else {
        return Ok(());
    };
    if !places.contains_key(&phandle) {
        places.insert(phandle, place)?;
    }
    Ok(())
}

fn keep_places(
    places: &mut IndexMap<u32, usize, RandomState>,
    nodes: &[Placed<'_>],
) -> Result<(), AllocError>
    requires { (q : ℕ) → get nat_eq places.old q ≡ None }
    ensures { OnOk result ((q : ℕ) → get nat_eq places.new q ≡ place_from 0 q nodes.now) }
{
    for (place, placed) in nodes.iter().enumerate() {
        keep_place(places, placed, place)?;
    }
    Ok(())
}

impl<'t> Survey<'t> {
    ghost use Rattle.dt_check.specs.Bridges.{is_below};
    ghost use Rattle.dt_check.specs.Links.Interrupts.{is_provider_at};
    ghost use Rattle.dt_check.specs.Nodes.{tree_nodes, place_with, here_of, node_at, value_at, above_at};

    /// Of the nodes of a tree.
    pub fn of(alloc: Global, hasher: RandomState, tree: &'t Tree) -> Result<Self, AllocError>
        ensures { IfOk result (λ survey. survey ≡ tree_nodes tree.now.root) }
    {
        let nodes = nodes_of(alloc, tree.root())?;
        let mut places = IndexMap::with_hasher(alloc, hasher);
        keep_places(&mut places, nodes.as_slice())?;
        Ok(Self { nodes, places })
    }

    /// Of so many nodes of a tree, the first in preorder.
    pub fn of_first(
        alloc: Global,
        hasher: RandomState,
        tree: &'t Tree,
        count: usize,
    ) -> Result<Self, AllocError>
        ensures { IfOk result (λ survey. survey ≡ take count (tree_nodes tree.now.root)) }
    {
        let mut nodes = nodes_of(alloc, tree.root())?;
        nodes.truncate(count);
        let mut places = IndexMap::with_hasher(alloc, hasher);
        keep_places(&mut places, nodes.as_slice())?;
        Ok(Self { nodes, places })
    }

    /// How many nodes there are.
    pub fn len(&self) -> usize
        ensures { result ≡ length self.now }
    {
        self.nodes.len()
    }

    /// All of them, in preorder.
    pub fn as_slice(&self) -> &[Placed<'t>]
        ensures { result.now ≡ self.now }
    {
        self.nodes.as_slice()
    }

    /// The node at this place.
    pub fn node(&self, place: usize) -> Option<&'t Node>
        ensures { option_copied result ≡ node_at self.now place }
    {
        match self.nodes.get(place) {
            None => None,
            Some(placed) => Some(placed.node()),
        }
    }

    /// The value of a node's property of this name.
    pub fn value(&self, place: usize, name: &[u8]) -> Option<&'t Bytes>
        ensures { option_copied result ≡ value_at self.now place name.now }
    {
        match self.nodes.get(place) {
            None => None,
            Some(placed) => placed.value(name),
        }
    }

    /// Whether the node at this place is the parent of interrupts.
    pub fn is_provider(&self, place: usize) -> bool
        ensures { result ≡ is_provider_at self.now place }
    {
        match self.nodes.get(place) {
            None => false,
            Some(placed) => placed.is_provider(),
        }
    }

    /// The place of the node above one.
    pub fn above(&self, place: usize) -> Option<usize>
        ensures { result ≡ above_at self.now place }
    {
        match self.nodes.get(place) {
            None => None,
            Some(placed) => placed.above(),
        }
    }

    /// One of the nodes, and the one above it.
    pub fn here(&self, placed: &Placed<'t>) -> Here<'t>
        ensures { result ≡ here_of self.now placed.now }
    {
        let above = match placed.above() {
            None => None,
            Some(place) => self.nodes.get(place),
        };
        Here::new(placed, above)
    }

    /// Whether one of the nodes is below a bus of this kind.
    pub fn is_below(&self, placed: &Placed<'t>, bus: Bus) -> bool
        ensures { result ≡ is_below bus (here_of self.now placed.now) }
    {
        match placed.above() {
            None => false,
            Some(place) => match self.nodes.get(place) {
                None => false,
                Some(above) => above.is_bus(bus),
            },
        }
    }

    /// The first with this phandle.
    pub fn with_phandle(&self, phandle: u32) -> Option<usize>
        ensures { result ≡ place_with self.now phandle }
    {
        self.places.get(&phandle).copied()
    }
}
