//! A node of a tree in preorder.
use crate::marks::Marks;
use crate::message::Bus;
use crate::traits::Traits;
use dt_tree::{Bytes, Node};
use std::marker::Model;

/// A node, and the place of the node above it among the nodes of the tree: none for the root.
#[derive(Drop)]
pub struct Placed<'t> {
    node: &'t Node,
    above: Option<usize>,
    // found once, since some take a look at all children
    traits: Traits,
    // the names that its properties may have
    marks: Marks,
}

impl<'t> Model for Placed<'t> {
    ghost use Rattle.dt_check.specs.Nodes.{PlacedData, coded_placed};
    ghost use Rattle.dt_check.specs.Private.Marks.{AreMarked};
    ghost use Rattle.dt_check.specs.Private.Traits.{AreTraits};

    ghost Value = { PlacedData };

    ghost coded = { coded_placed };

    ghost view = { λ p. record { node = p.node.now; above = p.above } };

    ghost invariant = { λ p. AreTraits p.node.now p.traits × AreMarked p.node.now.properties p.marks.classes };
}

impl<'t> Placed<'t> {
    ghost use Rattle.std.specs.Prelude.{◌≡◌};
    ghost use Rattle.dt_check.specs.Bridges.{is_bridge};
    ghost use Rattle.dt_check.specs.Buses.{is_provider};
    ghost use Rattle.dt_check.specs.Ports.{is_port};
    ghost use Rattle.dt_check.specs.UnitRules.{has_unit};
    ghost use Rattle.std.specs.Prelude.{ℕ, List, false};
    ghost use Rattle.std.specs.Option.{option_copied};
    ghost use Rattle.dt_tree.specs.PathMap.{value_of};
    ghost use Rattle.dt_check.specs.Private.Traits.{AreTraits};
    ghost use Rattle.dt_check.specs.Cells.{has};
    ghost use Rattle.dt_check.specs.Private.Marks.{class_of};

    /// The node at its place.
    pub fn new(node: &'t Node, above: Option<usize>) -> Self
        ensures { result ≡ record { node = node.now; above = above } }
    {
        let marks = Marks::of(node.properties());
        Self {
            node,
            above,
            traits: Traits::of(node, &marks),
            marks,
        }
    }

    /// The node itself.
    pub fn node(&self) -> &'t Node
        ensures { result.now ≡ self.now.node }
    {
        self.node
    }

    /// The place of the node above it.
    pub fn above(&self) -> Option<usize>
        ensures { result ≡ self.now.above }
    {
        self.above
    }

    /// Whether the node is a port of a graph.
    pub fn is_port(&self) -> bool
        ensures { result ≡ is_port self.now.node }
    {
        self.traits.port
    }

    /// Whether the node is the parent of interrupts.
    pub fn is_provider(&self) -> bool
        ensures { result ≡ is_provider self.now.node }
    {
        self.traits.provider
    }

    /// Whether the node has a unit address.
    pub fn has_unit(&self) -> bool
        ensures { result ≡ has_unit self.now.node }
    {
        self.traits.unit
    }

    /// Whether the node is a bus of this kind.
    pub fn is_bus(&self, bus: Bus) -> bool
        ensures { result ≡ is_bridge bus self.now.node }
    {
        match bus {
            Bus::Pci => self.traits.pci,
            Bus::Simple => self.traits.simple,
            Bus::I2c => self.traits.i2c,
            Bus::Spi => self.traits.spi,
        }
    }

    pub(crate) fn traits(&self) -> Traits
        ensures { AreTraits self.now.node result }
    {
        self.traits
    }

    /// The value of the node's property of this name.
    pub fn value(&self, name: &[u8]) -> Option<&'t Bytes>
        ensures { option_copied result ≡ value_of self.now.node.properties name.now }
    {
        self.marks.value(self.node, name)
    }

    /// Whether the node may have a property whose name has this class: a quick look.
    #[inline(always)]
    pub fn may_have(&self, class: usize) -> bool
        ensures { result ≡ false → (name : List ℕ) → class_of name ≡ class
            → has self.now.node.properties name ≡ false }
    {
        self.marks.may_have(class)
    }
}
