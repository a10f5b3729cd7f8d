//! Buses by their own nodes: how many cells addresses and sizes of the devices on them have.
ghost use Rattle.std.specs.Prelude.{◌≡◌};
ghost use Rattle.dt_check.specs.Bridges.{is_bridge, is_used, wanted_address, wanted_size, bridge_address_fault, bridge_size_fault, spi_name_fault};

use crate::fault::Fault;
use crate::here::{Here, children, has};
use crate::message::{Bus, Message};
use crate::reg::{address_cells, size_cells};
use dt_tree::Node;

// Whether the node is a bus of this kind.
fn is_bridge(here: &Here<'_>, bus: Bus) -> bool
    ensures { result ≡ is_bridge bus here.now.node }
{
    match bus {
        Bus::Pci => here.is_pci(),
        Bus::Simple => here.is_simple(),
        Bus::I2c => here.is_i2c(),
        Bus::Spi => here.is_spi(),
    }
}

// A bus that has to say something: one of I2C or SPI has devices on it.
fn is_used(node: &Node, bus: Bus) -> bool
    ensures { result ≡ is_used bus node.now }
{
    match bus {
        Bus::Pci | Bus::Simple => true,
        Bus::I2c | Bus::Spi => !children(node).is_empty(),
    }
}

fn wanted_address(node: &Node, bus: Bus) -> u32
    ensures { result ≡ wanted_address bus node.now }
{
    match bus {
        Bus::Pci => 3,
        Bus::Simple | Bus::I2c => 1,
        Bus::Spi => { if has(node, b"spi-slave") { 0 } else { 1 } }
    }
}

fn wanted_size(bus: Bus) -> u32
    ensures { result ≡ wanted_size bus }
{
    match bus {
        Bus::Pci => 2,
        Bus::Simple => 1,
        Bus::I2c | Bus::Spi => 0,
    }
}

/// Addresses of the wrong number of cells.
pub fn bridge_address_fault(here: &Here<'_>, bus: Bus) -> Option<Fault<'static>>
    ensures { result ≡ bridge_address_fault bus here.now }
{
    let node = here.node();
    if !is_used(node, bus) || !is_bridge(here, bus) {
        return None;
    }
    if address_cells(node) == wanted_address(node, bus) {
        return None;
    }
    Some(Fault::of_node(Message::BridgeAddress(bus)))
}

/// Sizes of the wrong number of cells.
pub fn bridge_size_fault(here: &Here<'_>, bus: Bus) -> Option<Fault<'static>>
    ensures { result ≡ bridge_size_fault bus here.now }
{
    let node = here.node();
    if !is_used(node, bus) || !is_bridge(here, bus) {
        return None;
    }
    if size_cells(node) == wanted_size(bus) {
        return None;
    }
    Some(Fault::of_node(Message::BridgeSize(bus)))
}

/// An SPI bus that isn't named as one.
pub fn spi_name_fault(here: &Here<'_>) -> Option<Fault<'static>>
    ensures { result ≡ spi_name_fault here.now }
{
    let node = here.node();
    if here.is_spi_like() && has(node, b"reg") {
        return Some(Fault::of_node(Message::BridgeName(Bus::Spi)));
    }
    None
}
