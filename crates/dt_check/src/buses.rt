//! Which bus a node is, found once of each: rules ask `Here`. What its properties may be named is known by then.
ghost use Rattle.std.specs.Prelude.{◌≡◌};
ghost use Rattle.std.specs.List.{list_any};
ghost use Rattle.dt_check.specs.Buses.{is_pci, is_simple, is_i2c, is_spi_like, starts_spi, has_spi_property, is_called, is_provider};
ghost use Rattle.dt_check.specs.Private.Marks.{AreMarked};

use crate::here::children;
use crate::marks::Marks;
use crate::texts::{has_string, is_same};
use crate::unit::base_name;
use dt_tree::{Node, Property};

/// Whether the base of a node's name is this one.
pub fn is_called(node: &Node, name: &[u8]) -> bool
    ensures { result ≡ is_called name.now node.now }
{
    is_same(base_name(node.name_bytes()), name)
}

/// Whether a node is a bridge to PCI.
pub(crate) fn is_pci(node: &Node, marks: &Marks) -> bool
    requires { AreMarked node.now.properties marks.now.classes }
    ensures { result ≡ is_pci node.now }
{
    match marks.value(node, b"device_type") {
        None => false,
        Some(value) => is_same(value.as_slice(), b"pci\0"),
    }
}

/// Whether a node is a bus whose devices are found without it.
pub(crate) fn is_simple(node: &Node, marks: &Marks) -> bool
    requires { AreMarked node.now.properties marks.now.classes }
    ensures { result ≡ is_simple node.now }
{
    match marks.value(node, b"compatible") {
        None => false,
        Some(value) => has_string(value.as_slice(), b"simple-bus"),
    }
}

/// Whether a node is an I2C bus.
pub(crate) fn is_i2c(node: &Node) -> bool
    ensures { result ≡ is_i2c node.now }
{
    let name = base_name(node.name_bytes());
    is_same(name, b"i2c-bus") || is_same(name, b"i2c-arb") || is_same(name, b"i2c")
}

fn starts_spi(name: &[u8]) -> bool
    ensures { result ≡ starts_spi name.now }
{
    name.len() >= 4 && is_same(&name[..4], b"spi-")
}

fn names_spi(properties: &[Property]) -> bool
    ensures { result ≡ list_any (λ p. starts_spi p.name) properties.now }
{
    properties
        .iter()
        .any(|property| starts_spi(property.name.as_bytes()))
}

fn has_spi_property(node: &Node) -> bool
    ensures { result ≡ has_spi_property node.now }
{
    names_spi(node.properties())
}

fn any_spi(nodes: &[Node]) -> bool
    ensures { result ≡ list_any has_spi_property nodes.now }
{
    nodes.iter().any(|node| has_spi_property(node))
}

/// Whether a node is an SPI bus without the name of one: may look at all its children.
pub(crate) fn is_spi_like(node: &Node, marks: &Marks) -> bool
    requires { AreMarked node.now.properties marks.now.classes }
    ensures { result ≡ is_spi_like node.now }
{
    !children(node).is_empty()
        && !is_called(node, b"spi")
        && marks.address_cells(node) == 1
        && marks.size_cells(node) == 0
        && any_spi(children(node))
}

/// Whether a node is the parent of interrupts.
pub(crate) fn is_provider(node: &Node, marks: &Marks) -> bool
    requires { AreMarked node.now.properties marks.now.classes }
    ensures { result ≡ is_provider node.now }
{
    marks.has(node, b"interrupt-controller") || marks.has(node, b"interrupt-map")
}
