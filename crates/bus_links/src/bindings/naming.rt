//! What nodes say of the nodes that they name.
ghost use Rattle.std.specs.Prelude.{◌≡◌};
ghost use Rattle.bus_drivers.specs.References.{cells_of};
ghost use Rattle.bus_links.specs.Bindings.Interrupts.{has, bytes_at, first_of, first_in, named_by, number_in, number_at};

use crate::bindings::nodes::Nodes;
use bus_drivers::next_cell;
use dt_tree::cell_in;

fn first_cell(value: &[u8]) -> Option<u32>
    ensures { result ≡ first_of (cells_of value.now) }
{
    match next_cell(value) {
        None => None,
        Some((cell, _)) => Some(cell),
    }
}

/// Whether a node has a property of this name.
pub fn has(nodes: &Nodes<'_>, place: usize, name: &[u8]) -> bool
    ensures { result ≡ has nodes.now place name.now }
{
    nodes.value(place, name).is_some()
}

/// The bytes of a node's property of this name; none without it.
pub fn bytes<'n>(nodes: &'n Nodes<'_>, place: usize, name: &[u8]) -> &'n [u8]
    ensures { result.now ≡ bytes_at nodes.now place name.now }
{
    match nodes.value(place, name) {
        None => &[],
        Some(value) => value.as_slice(),
    }
}

/// The first cell of a node's property of this name.
pub fn first_in(nodes: &Nodes<'_>, place: usize, name: &[u8]) -> Option<u32>
    ensures { result ≡ first_in nodes.now place name.now }
{
    match nodes.value(place, name) {
        None => None,
        Some(value) => first_cell(value.as_slice()),
    }
}

/// The node that a value refers to by its first cell.
pub fn named_by(nodes: &Nodes<'_>, value: &[u8]) -> Option<usize>
    ensures { result ≡ named_by nodes.now value.now }
{
    match first_cell(value) {
        None => None,
        Some(phandle) => nodes.with_phandle(phandle),
    }
}

/// The number in a node's property of this name.
pub fn number(nodes: &Nodes<'_>, place: usize, name: &[u8]) -> Option<u32>
    ensures { result ≡ number_in nodes.now place name.now }
{
    match nodes.value(place, name) {
        None => None,
        Some(value) => cell_in(value.as_slice()),
    }
}

/// The number in a node's property of this name, or else this one.
pub fn number_or(nodes: &Nodes<'_>, place: usize, name: &[u8], otherwise: u32) -> u32
    ensures { result ≡ number_at nodes.now place name.now otherwise }
{
    match number(nodes, place, name) {
        None => otherwise,
        Some(number) => number,
    }
}
