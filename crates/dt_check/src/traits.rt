//! What is known of a node, found once: rules ask it of a node and of the one above it again and again.
ghost use Rattle.std.specs.Prelude.{◌≡◌, None};
ghost use Rattle.dt_check.specs.Private.Marks.{AreMarked};
ghost use Rattle.dt_check.specs.Private.Traits.{AreTraits, AreOuter};

use crate::buses::{is_called, is_i2c, is_pci, is_provider, is_simple, is_spi_like};
use crate::marks::Marks;
use crate::ports::is_port;
use crate::unit::unit_address;
use dt_tree::Node;

/// Which bus a node is, and what to graphs and interrupts; how many cells addresses and sizes below it have.
#[derive(Clone, Copy)]
pub(crate) struct Traits {
    // a unit address
    pub(crate) unit: bool,
    pub(crate) port: bool,
    pub(crate) pci: bool,
    pub(crate) simple: bool,
    pub(crate) i2c: bool,
    pub(crate) spi: bool,
    // an SPI bus without the name of one
    pub(crate) spi_like: bool,
    // the parent of interrupts
    pub(crate) provider: bool,
    pub(crate) address_cells: u32,
    pub(crate) size_cells: u32,
}

impl Traits {
    /// Of no node: as of one that says nothing.
    pub(crate) fn none() -> Self
        ensures { AreOuter None result }
    {
        Self {
            unit: false,
            port: false,
            pci: false,
            simple: false,
            i2c: false,
            spi: false,
            spi_like: false,
            provider: false,
            address_cells: 2,
            size_cells: 1,
        }
    }

    /// Of a node, by the names that its properties may have.
    pub(crate) fn of(node: &Node, marks: &Marks) -> Self
        requires { AreMarked node.now.properties marks.now.classes }
        ensures { AreTraits node.now result }
    {
        let spi_like = is_spi_like(node, marks);
        Self {
            unit: !unit_address(node.name_bytes()).is_empty(),
            port: is_port(node),
            pci: is_pci(node, marks),
            simple: is_simple(node, marks),
            i2c: is_i2c(node),
            spi: is_called(node, b"spi") || spi_like,
            spi_like,
            provider: is_provider(node, marks),
            address_cells: marks.address_cells(node),
            size_cells: marks.size_cells(node),
        }
    }
}
