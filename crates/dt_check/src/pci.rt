//! PCI (PCI Bus Binding to IEEE 1275, sections 2.1.4 and 2.2.1).
ghost use Rattle.std.specs.Prelude.{◌≡◌, ◌<◌, length, position, IfSome};
ghost use Rattle.std.specs.Option.{option_copied};
ghost use Rattle.dt_check.specs.Pci.{is_comma, pci_name_fault, no_ranges_fault, bus_range, two_cells_fault, order_fault, end_fault, pci_address, first_cell, later_cells_fault, space_fault, register_fault, is_pci_unit, pci_unit_fault, last_bus, first_bus, pci_bus_fault, bus_fault_in};

use crate::buses::is_called;
use crate::cells::cell_from;
use crate::fault::Fault;
use crate::here::{Here, has};
use crate::message::{Bus, Message};
use crate::unit::{is_hex_of, unit_address};
use dt_tree::{Bytes, Node};

/// A bridge that isn't named as one.
pub fn pci_name_fault(here: &Here<'_>) -> Option<Fault<'static>>
    ensures { result ≡ pci_name_fault here.now }
{
    let node = here.node();
    if !here.is_pci() || is_called(node, b"pci") || is_called(node, b"pcie") {
        return None;
    }
    Some(Fault::of_node(Message::BridgeName(Bus::Pci)))
}

/// A bridge without `ranges`.
pub fn no_ranges_fault(here: &Here<'_>) -> Option<Fault<'static>>
    ensures { result ≡ no_ranges_fault here.now }
{
    let node = here.node();
    if !here.is_pci() || has(node, b"ranges") {
        return None;
    }
    Some(Fault::of_node(Message::NoBridgeRanges))
}

fn bus_range<'t>(here: &Here<'t>) -> Option<&'t Bytes>
    ensures { option_copied result ≡ bus_range here.now }
{
    if !here.is_pci() {
        return None;
    }
    here.value(b"bus-range")
}

/// A range of buses that isn't two cells.
pub fn two_cells_fault(here: &Here<'_>) -> Option<Fault<'static>>
    ensures { result ≡ two_cells_fault here.now }
{
    let Some(value) = bus_range(here) else {
        return None;
    };
    if value.as_slice().len() == 8 {
        return None;
    }
    Some(Fault::of_property(b"bus-range", Message::NotTwoCells))
}

// The cell at an offset, or 0.
fn cell_or_zero(value: &[u8], offset: usize) -> u32
    ensures { result ≡ first_cell offset value.now }
{
    match cell_from(value, offset) {
        None => 0,
        Some(cell) => cell,
    }
}

/// A range of buses whose first is behind its last.
pub fn order_fault(here: &Here<'_>) -> Option<Fault<'static>>
    ensures { result ≡ order_fault here.now }
{
    let Some(value) = bus_range(here) else {
        return None;
    };
    let cells = value.as_slice();
    if cells.len() == 8 && cell_or_zero(cells, 4) < cell_or_zero(cells, 0) {
        return Some(Fault::of_property(b"bus-range", Message::RangeOrder));
    }
    None
}

/// A range of buses whose last has no number.
pub fn end_fault(here: &Here<'_>) -> Option<Fault<'static>>
    ensures { result ≡ end_fault here.now }
{
    let Some(value) = bus_range(here) else {
        return None;
    };
    let cells = value.as_slice();
    if cells.len() == 8 && 255 < cell_or_zero(cells, 4) {
        return Some(Fault::of_property(b"bus-range", Message::RangeEnd));
    }
    None
}

// The address of a device on PCI: at least one cell.
fn pci_address<'t>(here: &Here<'t>) -> Option<&'t Bytes>
    ensures { option_copied result ≡ pci_address here.now }
{
    if !here.is_below_pci() || here.is_below_simple() {
        return None;
    }
    let Some(value) = here.value(b"reg") else {
        return None;
    };
    if value.as_slice().len() < 4 {
        return None;
    }
    Some(value)
}

/// An address whose second and third cell aren't 0.
pub fn later_cells_fault(here: &Here<'_>) -> Option<Fault<'static>>
    ensures { result ≡ later_cells_fault here.now }
{
    let Some(value) = pci_address(here) else {
        return None;
    };
    let cells = value.as_slice();
    if cell_or_zero(cells, 4) == 0 && cell_or_zero(cells, 8) == 0 {
        return None;
    }
    Some(Fault::of_property(b"reg", Message::PciCells))
}

/// An address of another space.
pub fn space_fault(here: &Here<'_>) -> Option<Fault<'static>>
    ensures { result ≡ space_fault here.now }
{
    let Some(value) = pci_address(here) else {
        return None;
    };
    if cell_or_zero(value.as_slice(), 0) < 16777216 {
        return None;
    }
    Some(Fault::of_property(b"reg", Message::PciSpace))
}

/// An address of a register.
pub fn register_fault(here: &Here<'_>) -> Option<Fault<'static>>
    ensures { result ≡ register_fault here.now }
{
    let Some(value) = pci_address(here) else {
        return None;
    };
    if cell_or_zero(value.as_slice(), 0) % 256 == 0 {
        return None;
    }
    Some(Fault::of_property(b"reg", Message::PciRegister))
}

fn comma_in(unit: &[u8]) -> Option<usize>
    ensures place { result ≡ position is_comma unit.now }
    ensures within { IfSome result (λ comma. comma < length unit.now) }
{
    unit.iter().position(|byte| *byte == b',')
}

fn is_pci_unit(device: u32, function: u32, unit: &[u8]) -> bool
    ensures { result ≡ is_pci_unit device function unit.now }
{
    match comma_in(unit) {
        None => function == 0 && is_hex_of(u64::from(device), unit),
        Some(comma) => {
            is_hex_of(u64::from(device), &unit[..comma])
                && is_hex_of(u64::from(function), &unit[comma + 1..])
        }
    }
}

/// A unit address that isn't the device and function.
pub fn pci_unit_fault(here: &Here<'_>) -> Option<Fault<'static>>
    ensures { result ≡ pci_unit_fault here.now }
{
    let Some(value) = pci_address(here) else {
        return None;
    };
    let address = cell_or_zero(value.as_slice(), 0);
    let device = address / 2048 % 32;
    let function = address / 256 % 8;
    if is_pci_unit(device, function, unit_address(here.node().name_bytes())) {
        return None;
    }
    Some(Fault::of_node(Message::PciUnit(device, function)))
}

fn first_bus(above: &Node) -> u32
    ensures { result ≡ first_bus above.now.properties }
{
    match above.value(b"bus-range") {
        None => 0,
        Some(value) => cell_or_zero(value.as_slice(), 0),
    }
}

fn last_bus(above: &Node) -> u32
    ensures { result ≡ last_bus above.now.properties }
{
    match above.value(b"bus-range") {
        None => 0,
        Some(value) => cell_or_zero(value.as_slice(), 4),
    }
}

fn bus_fault_in(above: &Node, number: u32) -> Option<Fault<'static>>
    ensures { result ≡ bus_fault_in above.now.properties number }
{
    let first = first_bus(above);
    let last = last_bus(above);
    if first <= number && number <= last {
        return None;
    }
    let message = Message::PciBus {
        number,
        first,
        last,
    };
    if has(above, b"bus-range") {
        return Some(Fault::of_property(b"bus-range", message));
    }
    Some(Fault::of_node(message))
}

/// A bus number that the bridge doesn't have.
pub fn pci_bus_fault(here: &Here<'_>) -> Option<Fault<'static>>
    ensures { result ≡ pci_bus_fault here.now }
{
    let Some(value) = pci_address(here) else {
        return None;
    };
    let Some(above) = here.above() else {
        return None;
    };
    bus_fault_in(above, cell_or_zero(value.as_slice(), 0) / 65536 % 256)
}
