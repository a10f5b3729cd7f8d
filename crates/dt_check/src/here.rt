//! A node and the one above it: what most checks look at.
ghost use Rattle.std.specs.Prelude.{◌≡◌};
ghost use Rattle.std.specs.Option.{option_copied};
ghost use Rattle.dt_tree.specs.PathMap.{value_of};
ghost use Rattle.dt_tree.specs.NodeData.{nodes_of};
ghost use Rattle.dt_check.specs.Cells.{has, number_of};

use crate::message::Bus;
use crate::placed::Placed;
use crate::texts::is_same;
use crate::traits::Traits;
use dt_tree::{Bytes, Node, cell_in};
use std::marker::Model;

/// A node, and the one above it: none above the root.
#[derive(Drop)]
pub struct Here<'t> {
    node: &'t Node,
    above: Option<&'t Node>,
    // what is known of the node
    own: Traits,
    // and of the one above it
    outer: Traits,
}

impl<'t> Model for Here<'t> {
    ghost use Rattle.std.specs.Option.{option_copied};
    ghost use Rattle.dt_check.specs.Nodes.{HereData, coded_here};
    ghost use Rattle.dt_check.specs.Private.Traits.{AreTraits, AreOuter};

    ghost Value = { HereData };

    ghost coded = { coded_here };

    ghost view = { λ h. record { node = h.node.now; above = option_copied h.above } };

    ghost invariant = { λ h. AreTraits h.node.now h.own × AreOuter (option_copied h.above) h.outer };
}

impl<'t> Here<'t> {
    ghost use Rattle.std.specs.Prelude.{false};
    ghost use Rattle.std.specs.Option.{option_map, option_map_or};
    ghost use Rattle.dt_check.specs.Bridges.{is_below};
    ghost use Rattle.dt_check.specs.Buses.{is_pci, is_simple, is_i2c, is_spi_like, is_spi, is_provider};
    ghost use Rattle.dt_check.specs.Cells.{address_cells, size_cells};
    ghost use Rattle.dt_check.specs.Ports.{is_port};
    ghost use Rattle.dt_check.specs.UnitRules.{has_unit};

    /// The node at its place, and what is above it.
    pub fn new(placed: &Placed<'t>, above: Option<&Placed<'t>>) -> Self
        ensures { result ≡ record {
          node = placed.now.node;
          above = option_map (λ p. p.node) (option_copied above.entry);
        } }
    {
        match above {
            None => Self {
                node: placed.node(),
                above: None,
                own: placed.traits(),
                outer: Traits::none(),
            },
            Some(above) => Self {
                node: placed.node(),
                above: Some(above.node()),
                own: placed.traits(),
                outer: above.traits(),
            },
        }
    }

    /// The node.
    pub fn node(&self) -> &'t Node
        ensures { result.now ≡ self.now.node }
    {
        self.node
    }

    /// The node above it.
    pub fn above(&self) -> Option<&'t Node>
        ensures { option_copied result ≡ self.now.above }
    {
        self.above
    }

    /// Whether the node is a port of a graph.
    pub fn is_port(&self) -> bool
        ensures { result ≡ is_port self.now.node }
    {
        self.own.port
    }

    /// Whether the node above it is one.
    pub fn is_below_port(&self) -> bool
        ensures { result ≡ option_map_or is_port self.now.above false }
    {
        self.outer.port
    }

    /// Whether the node above it is an SPI bus.
    pub fn is_below_spi(&self) -> bool
        ensures { result ≡ option_map_or is_spi self.now.above false }
    {
        self.outer.spi
    }

    /// Whether the node is a bridge to PCI.
    pub fn is_pci(&self) -> bool
        ensures { result ≡ is_pci self.now.node }
    {
        self.own.pci
    }

    /// Whether it is a bus whose devices are found without it.
    pub fn is_simple(&self) -> bool
        ensures { result ≡ is_simple self.now.node }
    {
        self.own.simple
    }

    /// Whether it is an I2C bus.
    pub fn is_i2c(&self) -> bool
        ensures { result ≡ is_i2c self.now.node }
    {
        self.own.i2c
    }

    /// Whether it is an SPI bus.
    pub fn is_spi(&self) -> bool
        ensures { result ≡ is_spi self.now.node }
    {
        self.own.spi
    }

    /// Whether it is one without the name of one.
    pub fn is_spi_like(&self) -> bool
        ensures { result ≡ is_spi_like self.now.node }
    {
        self.own.spi_like
    }

    /// Whether it is the parent of interrupts.
    pub fn is_provider(&self) -> bool
        ensures { result ≡ is_provider self.now.node }
    {
        self.own.provider
    }

    /// Whether the node above it is a bridge to PCI.
    pub fn is_below_pci(&self) -> bool
        ensures { result ≡ option_map_or is_pci self.now.above false }
    {
        self.outer.pci
    }

    /// Whether that is a bus whose devices are found without it.
    pub fn is_below_simple(&self) -> bool
        ensures { result ≡ option_map_or is_simple self.now.above false }
    {
        self.outer.simple
    }

    /// Whether that is an I2C bus.
    pub fn is_below_i2c(&self) -> bool
        ensures { result ≡ option_map_or is_i2c self.now.above false }
    {
        self.outer.i2c
    }

    /// Whether that is a bus of this kind.
    pub fn is_below(&self, bus: Bus) -> bool
        ensures { result ≡ is_below bus self.now }
    {
        match bus {
            Bus::Pci => self.outer.pci,
            Bus::Simple => self.outer.simple,
            Bus::I2c => self.outer.i2c,
            Bus::Spi => self.outer.spi,
        }
    }

    /// Whether the node has a unit address.
    pub fn has_unit(&self) -> bool
        ensures { result ≡ has_unit self.now.node }
    {
        self.own.unit
    }

    /// How many cells an address has by the node above it: without one, 2.
    pub fn outer_address_cells(&self) -> u32
        ensures { result ≡ option_map_or (λ a. address_cells a.properties) self.now.above 2 }
    {
        self.outer.address_cells
    }

    /// How many cells a size has: without one, 1.
    pub fn outer_size_cells(&self) -> u32
        ensures { result ≡ option_map_or (λ a. size_cells a.properties) self.now.above 1 }
    {
        self.outer.size_cells
    }

    /// The value of the node's property of this name.
    pub fn value(&self, name: &[u8]) -> Option<&'t Bytes>
        ensures { option_copied result ≡ value_of self.now.node.properties name.now }
    {
        value_of(self.node, name)
    }
}

/// The value of a node's property of this name.
pub(crate) fn value_of<'t>(node: &'t Node, name: &[u8]) -> Option<&'t Bytes>
    ensures { option_copied result ≡ value_of node.now.properties name.now }
{
    for property in node.properties() {
        if is_same(property.name.as_bytes(), name) {
            return Some(&property.value);
        }
    }
    None
}

/// Whether a node has a property of this name.
pub fn has(node: &Node, name: &[u8]) -> bool
    ensures { result ≡ has node.now.properties name.now }
{
    value_of(node, name).is_some()
}

/// The nodes below a node.
pub fn children(node: &Node) -> &[Node]
    ensures { result.now ≡ nodes_of node.now.children }
{
    node.children()
}

/// The number in a node's property of this name, or else this one.
pub fn number_of(node: &Node, name: &[u8], otherwise: u32) -> u32
    ensures { result ≡ number_of node.now.properties name.now otherwise }
{
    match value_of(node, name) {
        None => otherwise,
        Some(value) => match cell_in(value.as_slice()) {
            None => otherwise,
            Some(number) => number,
        },
    }
}
