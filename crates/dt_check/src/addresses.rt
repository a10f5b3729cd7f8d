//! Where a device is on its bus, by its unit address.
ghost use Rattle.std.specs.Prelude.{◌≡◌};
ghost use Rattle.dt_check.specs.Addresses.{number_in, translated, simple_number, simple_fault, is_missing, has_entries, no_reg_fault, first_address, without_own, i2c_fault, spi_fault, unit_fault_by, bits_fault, first_bits_fault, i2c_bits_fault};
ghost use Rattle.dt_check.specs.Cells.{address_cells, cells_of};

use crate::cells::{cell_from, next_cell};
use crate::fault::Fault;
use crate::here::{Here, has};
use crate::message::{Bus, Message};
use crate::reg::address_cells;
use crate::unit::{is_hex_of, unit_address};
use dt_tree::{Node, behind, cell_at};

// The number in so many cells, of which the last two count.
fn number_in(value: &[u8], cells: u32) -> Option<u64>
    ensures { result ≡ number_in cells value.now }
{
    let bytes = 4 * cells as usize;
    if value.len() < bytes {
        return None;
    }
    if bytes == 0 {
        return Some(0);
    }
    let low = cell_at(value, bytes - 4);
    if bytes == 4 {
        return Some(u64::from(low));
    }
    let high = cell_at(value, bytes - 8);
    Some(u64::from(high) * 4294967296 + u64::from(low))
}

// The first address above that `ranges` names, behind the first of the node itself.
fn translated(node: &Node, above: &Node) -> Option<u64>
    ensures { result ≡ translated node.now above.now }
{
    let Some(value) = node.value(b"ranges") else {
        return None;
    };
    if value.as_slice().is_empty() {
        return None;
    }
    let own = 4 * address_cells(node) as usize;
    number_in(behind(value.as_slice(), own), address_cells(above))
}

fn simple_number(node: &Node, above: &Node, cells: u32) -> Option<u64>
    requires { cells ≡ address_cells above.now.properties }
    ensures { result ≡ simple_number node.now above.now }
{
    match node.value(b"reg") {
        None => translated(node, above),
        Some(value) => number_in(value.as_slice(), cells),
    }
}

fn unit_fault_by(node: &Node, bus: Bus, number: u64) -> Option<Fault<'static>>
    ensures { result ≡ unit_fault_by bus number node.now }
{
    if is_hex_of(number, unit_address(node.name_bytes())) {
        return None;
    }
    Some(Fault::of_node(Message::Unit(bus, number)))
}

fn has_entries(node: &Node) -> bool
    ensures { result ≡ has_entries node.now }
{
    match node.value(b"ranges") {
        None => false,
        Some(value) => !value.as_slice().is_empty(),
    }
}

// A device of a bus below the root, which is no bus itself, without an address.
fn is_missing(here: &Here<'_>, above: &Node) -> bool
    ensures { result ≡ is_missing here.now.node above.now }
{
    let node = here.node();
    !has(node, b"reg") && !has_entries(node) && !above.name_bytes().is_empty() && !here.is_simple()
}

/// A device on a simple bus.
pub fn simple_fault(here: &Here<'_>) -> Option<Fault<'static>>
    ensures { result ≡ simple_fault here.now }
{
    let Some(above) = here.above() else {
        return None;
    };
    if !here.is_below_simple() {
        return None;
    }
    if is_missing(here, above) {
        return Some(Fault::of_node(Message::NoAddress(Bus::Simple)));
    }
    match simple_number(here.node(), above, here.outer_address_cells()) {
        None => None,
        Some(number) => unit_fault_by(here.node(), Bus::Simple, number),
    }
}

// A device without `reg`.
fn no_reg_fault(node: &Node, bus: Bus) -> Option<Fault<'static>>
    ensures { result ≡ no_reg_fault bus node.now }
{
    if has(node, b"reg") {
        return None;
    }
    Some(Fault::of_node(Message::NoAddress(bus)))
}

// The first address of a device on I2C or SPI.
fn first_address(node: &Node) -> Option<u32>
    ensures { result ≡ first_address node.now }
{
    match node.value(b"reg") {
        None => None,
        Some(value) => cell_from(value.as_slice(), 0),
    }
}

// An address on I2C without the mark that it is the bus's own.
fn without_own(address: u32) -> u32
    ensures { result ≡ without_own address }
{
    address / 2147483648 * 2147483648 + address % 1073741824
}

/// A device on I2C that has no `reg`, or another unit address.
pub fn i2c_fault(here: &Here<'_>) -> Option<Fault<'static>>
    ensures { result ≡ i2c_fault here.now }
{
    if !here.is_below_i2c() {
        return None;
    }
    match first_address(here.node()) {
        None => no_reg_fault(here.node(), Bus::I2c),
        Some(address) => unit_fault_by(here.node(), Bus::I2c, u64::from(without_own(address))),
    }
}

/// A device on SPI that has no `reg`, or another unit address.
pub fn spi_fault(here: &Here<'_>) -> Option<Fault<'static>>
    ensures { result ≡ spi_fault here.now }
{
    let Some(above) = here.above() else {
        return None;
    };
    if !here.is_below_spi() || has(above, b"spi-slave") {
        return None;
    }
    match first_address(here.node()) {
        None => no_reg_fault(here.node(), Bus::Spi),
        Some(address) => unit_fault_by(here.node(), Bus::Spi, u64::from(address)),
    }
}

// An address on I2C that has too many bits.
fn bits_fault(address: u32) -> Option<Fault<'static>>
    ensures { result ≡ bits_fault address }
{
    let address = without_own(address);
    if 2147483648 + 1023 < address {
        return Some(Fault::of_property(b"reg", Message::TenBits(address)));
    }
    if 127 < address {
        return Some(Fault::of_property(b"reg", Message::SevenBits(address)));
    }
    None
}

fn first_bits_fault(value: &[u8]) -> Option<Fault<'static>>
    ensures { result ≡ first_bits_fault (cells_of value.now) }
{
    let mut rest = value;
    while let Some((address, behind)) = next_cell(rest) {
        rest = behind;
        if let Some(fault) = bits_fault(address) {
            return Some(fault);
        }
    }
    None
}

/// The first of a device's addresses on I2C that has too many bits.
pub fn i2c_bits_fault(here: &Here<'_>) -> Option<Fault<'static>>
    ensures { result ≡ i2c_bits_fault here.now }
{
    if !here.is_below_i2c() {
        return None;
    }
    match here.value(b"reg") {
        None => None,
        Some(value) => first_bits_fault(value.as_slice()),
    }
}
