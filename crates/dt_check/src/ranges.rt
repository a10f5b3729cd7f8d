//! `ranges` and `dma-ranges` (Devicetree Specification v0.4, sections 2.3.8 and 2.3.9).
ghost use Rattle.std.specs.Prelude.{◌≡◌};
ghost use Rattle.dt_check.specs.Ranges.{ranges_fault, ranges_size_fault, map_fault, size_fault, length_fault};

use crate::fault::Fault;
use crate::here::Here;
use crate::message::Message;
use crate::reg::{address_cells, is_multiple, size_cells};
use dt_tree::Node;

fn length_fault<'t>(name: &'t [u8], above: &Node, node: &Node, bytes: usize) -> Option<Fault<'t>>
    ensures { result ≡ length_fault name.now above.now.properties node.now.properties bytes }
{
    let above_cells = address_cells(above);
    let address_cells = address_cells(node);
    let size_cells = size_cells(node);
    let entry = 4 * (above_cells as usize + address_cells as usize + size_cells as usize);
    if is_multiple(bytes, entry) {
        return None;
    }
    let message = Message::RangesLength {
        bytes,
        above_cells,
        address_cells,
        size_cells,
    };
    Some(Fault::of_property(name, message))
}

fn map_fault<'t>(name: &'t [u8], above: &Node, node: &Node, bytes: usize) -> Option<Fault<'t>>
    ensures { result ≡ map_fault name.now above.now.properties node.now.properties bytes }
{
    if bytes != 0 {
        return length_fault(name, above, node, bytes);
    }
    let own = address_cells(node);
    let outer = address_cells(above);
    if own == outer {
        return None;
    }
    Some(Fault::of_property(name, Message::EmptyAddress(own, outer)))
}

fn size_fault<'t>(name: &'t [u8], above: &Node, node: &Node, bytes: usize) -> Option<Fault<'t>>
    ensures { result ≡ size_fault name.now above.now.properties node.now.properties bytes }
{
    let own = size_cells(node);
    let outer = size_cells(above);
    if bytes != 0 || own == outer {
        return None;
    }
    Some(Fault::of_property(name, Message::EmptySize(own, outer)))
}

/// What is wrong with the map of addresses of this name.
pub fn ranges_fault<'t>(here: &Here<'_>, name: &'t [u8]) -> Option<Fault<'t>>
    ensures { result ≡ ranges_fault name.now here.now }
{
    let Some(value) = here.value(name) else {
        return None;
    };
    match here.above() {
        None => Some(Fault::of_property(name, Message::RootHas)),
        Some(above) => map_fault(name, above, here.node(), value.as_slice().len()),
    }
}

/// And with its sizes, where it is empty.
pub fn ranges_size_fault<'t>(here: &Here<'_>, name: &'t [u8]) -> Option<Fault<'t>>
    ensures { result ≡ ranges_size_fault name.now here.now }
{
    let Some(value) = here.value(name) else {
        return None;
    };
    match here.above() {
        None => None,
        Some(above) => size_fault(name, above, here.node(), value.as_slice().len()),
    }
}
