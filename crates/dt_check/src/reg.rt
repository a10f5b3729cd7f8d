//! `reg` (Devicetree Specification v0.4, section 2.3.6).
ghost use Rattle.std.specs.Prelude.{◌≡◌, ◌<◌, ◌^◌};
ghost use Rattle.dt_check.specs.Cells.{address_cells, size_cells, is_multiple};
ghost use Rattle.dt_check.specs.Reg.{reg_fault, reg_fault_below};

use crate::fault::Fault;
use crate::here::{Here, number_of};
use crate::message::Message;
use dt_tree::Node;

/// How many cells an address of a child has.
pub fn address_cells(node: &Node) -> u32
    ensures { result ≡ address_cells node.now.properties }
{
    number_of(node, b"#address-cells", 2)
}

/// How many cells a size of a child has.
pub fn size_cells(node: &Node) -> u32
    ensures { result ≡ size_cells node.now.properties }
{
    number_of(node, b"#size-cells", 1)
}

/// Whether a length is made of so many bytes, any number of times.
pub fn is_multiple(length: usize, part: usize) -> bool
    ensures { result ≡ is_multiple length part }
{
    if part == 0 {
        return length == 0;
    }
    length % part == 0
}

// By how many cells the node above says that addresses and sizes have.
fn reg_fault_below(address_cells: u32, size_cells: u32, value: &[u8]) -> Option<Fault<'static>>
    ensures { result ≡ reg_fault_below address_cells size_cells value.now }
{
    if value.is_empty() {
        return Some(Fault::of_property(b"reg", Message::IsEmpty));
    }
    let entry = 4 * (address_cells as usize + size_cells as usize);
    if is_multiple(value.len(), entry) {
        return None;
    }
    let message = Message::RegLength {
        bytes: value.len(),
        address_cells,
        size_cells,
    };
    Some(Fault::of_property(b"reg", message))
}

/// What is wrong with the length of `reg`.
pub fn reg_fault(here: &Here<'_>) -> Option<Fault<'static>>
    ensures { result ≡ reg_fault here.now }
{
    let Some(value) = here.value(b"reg") else {
        return None;
    };
    match here.above() {
        None => Some(Fault::of_node(Message::RootHasReg)),
        Some(_) => reg_fault_below(
            here.outer_address_cells(),
            here.outer_size_cells(),
            value.as_slice(),
        ),
    }
}
