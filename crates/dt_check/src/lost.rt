//! Buses whose `ranges` is lost (Devicetree Specification v0.4, section 2.3.8).
ghost use Rattle.std.specs.Prelude.{◌≡◌};
ghost use Rattle.std.specs.List.{list_any};
ghost use Rattle.dt_check.specs.Lost.{has_address, is_device, is_memory_bus, has_offsets, is_reached, is_lost, lost_fault};

use crate::fault::Fault;
use crate::here::{Here, children, has};
use crate::message::Message;
use crate::reg::size_cells;
use crate::texts::has_string;
use dt_tree::Node;

fn has_address(node: &Node) -> bool
    ensures { result ≡ has_address node.now }
{
    match node.value(b"reg") {
        None => false,
        Some(value) => !value.as_slice().is_empty(),
    }
}

fn is_device(node: &Node) -> bool
    ensures { result ≡ is_device node.now }
{
    has(node, b"compatible") && has_address(node)
}

fn any_device(nodes: &[Node]) -> bool
    ensures { result ≡ list_any is_device nodes.now }
{
    nodes.iter().any(|node| is_device(node))
}

fn is_memory_bus(node: &Node) -> bool
    ensures { result ≡ is_memory_bus node.now }
{
    size_cells(node) != 0 && any_device(children(node))
}

// Whether the addresses below a node are offsets in its own registers.
fn has_offsets(node: &Node) -> bool
    ensures { result ≡ has_offsets node.now }
{
    match node.value(b"compatible") {
        None => false,
        Some(value) => {
            has_string(value.as_slice(), b"syscon") || has_string(value.as_slice(), b"simple-mfd")
        }
    }
}

fn is_reached(node: &Node) -> bool
    ensures { result ≡ is_reached node.now }
{
    node.name_bytes().is_empty() || has(node, b"ranges")
}

fn is_lost(node: &Node) -> bool
    ensures { result ≡ is_lost node.now }
{
    !has(node, b"ranges") && !has_offsets(node) && is_memory_bus(node)
}

/// A bus with devices in memory that none above it can reach, since it has no `ranges`.
pub fn lost_fault(here: &Here<'_>) -> Option<Fault<'static>>
    ensures { result ≡ lost_fault here.now }
{
    let Some(above) = here.above() else {
        return None;
    };
    if is_reached(above) && is_lost(here.node()) {
        return Some(Fault::of_node(Message::LostRanges));
    }
    None
}
