//! Graphs of devices (bindings graph.txt of Linux): a device has ports, or a node `ports` with them, and a port has endpoints.
ghost use Rattle.std.specs.Prelude.{◌≡◌};
ghost use Rattle.std.specs.List.{list_any};
ghost use Rattle.dt_check.specs.Ports.{is_port};
ghost use Rattle.dt_check.specs.Links.Graph.{is_addressed_port, is_on_bus, is_ports, has_number, is_single, single_child_fault, name_of, is_of, graph_name_fault, graph_reg, graph_reg_fault, graph_unit_fault, cells_of_above, is_number, graph_address_fault, graph_size_fault, cells_fault, wrong_address, wrong_size};

use crate::{
    Fault, Graph, Here, Message, children, has, is_called, is_hex_of, is_named, is_port,
    unit_address,
};
use dt_tree::{Node, cell_in};

fn any_port(nodes: &[Node]) -> bool
    ensures { result ≡ list_any is_port nodes.now }
{
    nodes.iter().any(|node| is_port(node))
}

fn is_addressed_port(node: &Node) -> bool
    ensures { result ≡ is_addressed_port node.now }
{
    is_port(node) && has(node, b"reg")
}

fn any_addressed_port(nodes: &[Node]) -> bool
    ensures { result ≡ list_any is_addressed_port nodes.now }
{
    nodes.iter().any(|node| is_addressed_port(node))
}

fn is_on_bus(here: &Here<'_>) -> bool
    ensures { result ≡ is_on_bus here.now.node }
{
    here.is_pci() || here.is_simple() || here.is_i2c() || here.is_spi()
}

// Whether a node has ports below it, and is no bus of another kind.
fn is_ports(here: &Here<'_>) -> bool
    ensures { result ≡ is_ports here.now.node }
{
    let node = here.node();
    if is_on_bus(here) {
        return false;
    }
    if is_named(node, b"ports") {
        return any_port(children(node));
    }
    any_addressed_port(children(node))
}

// Whether a node has another address than 0.
fn has_number(node: &Node) -> bool
    ensures { result ≡ has_number node.now }
{
    match node.value(b"reg") {
        None => false,
        Some(value) => match cell_in(value.as_slice()) {
            None => true,
            Some(number) => number != 0,
        },
    }
}

fn any_number(nodes: &[Node]) -> bool
    ensures { result ≡ list_any has_number nodes.now }
{
    nodes.iter().any(|node| has_number(node))
}

// A node whose one child is numbered 0, if at all, and that says how numbers are written.
fn is_single(node: &Node) -> bool
    ensures { result ≡ is_single node.now }
{
    children(node).len() == 1 && !any_number(children(node)) && has(node, b"#address-cells")
}

/// Addresses for a single child.
pub fn single_child_fault(here: &Here<'_>) -> Option<Fault<'static>>
    ensures { result ≡ single_child_fault here.now }
{
    let node = here.node();
    if !is_single(node) || !(here.is_port() || is_ports(here)) {
        return None;
    }
    Some(Fault::of_node(Message::SingleChild))
}

fn name_of(kind: Graph) -> &'static [u8]
    ensures { result.now ≡ name_of kind }
{
    match kind {
        Graph::Port => b"port",
        Graph::Endpoint => b"endpoint",
    }
}

/// Whether a node is a port, or an endpoint of one.
pub fn is_of(here: &Here<'_>, kind: Graph) -> bool
    ensures { result ≡ is_of kind here.now }
{
    match kind {
        Graph::Port => here.is_port(),
        Graph::Endpoint => here.is_below_port(),
    }
}

/// A port or endpoint of another name.
pub fn graph_name_fault(here: &Here<'_>, kind: Graph) -> Option<Fault<'static>>
    ensures { result ≡ graph_name_fault kind here.now }
{
    if !is_of(here, kind) || is_called(here.node(), name_of(kind)) {
        return None;
    }
    Some(Fault::of_node(Message::GraphName(kind)))
}

/// An address that isn't one cell.
pub fn graph_reg_fault(here: &Here<'_>, kind: Graph) -> Option<Fault<'static>>
    ensures { result ≡ graph_reg_fault kind here.now }
{
    if !is_of(here, kind) {
        return None;
    }
    let Some(value) = here.value(b"reg") else {
        return None;
    };
    if value.as_slice().len() == 4 {
        return None;
    }
    Some(Fault::of_node(Message::GraphReg))
}

// The address of a port or endpoint.
fn graph_reg(here: &Here<'_>, kind: Graph) -> Option<u32>
    ensures { result ≡ graph_reg kind here.now }
{
    if !is_of(here, kind) {
        return None;
    }
    match here.value(b"reg") {
        None => None,
        Some(value) => cell_in(value.as_slice()),
    }
}

/// A unit address that isn't the address.
pub fn graph_unit_fault(here: &Here<'_>, kind: Graph) -> Option<Fault<'static>>
    ensures { result ≡ graph_unit_fault kind here.now }
{
    let Some(number) = graph_reg(here, kind) else {
        return None;
    };
    if is_hex_of(u64::from(number), unit_address(here.node().name_bytes())) {
        return None;
    }
    Some(Fault::of_node(Message::GraphUnit(number)))
}

// The number of cells that the node above says under this name.
fn cells_of_above(here: &Here<'_>, name: &[u8]) -> Option<u32>
    ensures { result ≡ cells_of_above name.now here.now }
{
    let Some(above) = here.above() else {
        return None;
    };
    match above.value(name) {
        None => None,
        Some(value) => cell_in(value.as_slice()),
    }
}

fn is_number(cells: Option<u32>, number: u32) -> bool
    ensures { result ≡ is_number number cells }
{
    match cells {
        None => false,
        Some(count) => count == number,
    }
}

// Told of the node's own property of this name, where it has one.
fn cells_fault(node: &Node, name: &'static [u8], message: Message) -> Fault<'static>
    ensures { result ≡ cells_fault name.now message node.now }
{
    if has(node, name) {
        return Fault::of_property(name, message);
    }
    Fault::of_node(message)
}

fn wrong_address(node: &Node, cells: Option<u32>) -> Option<Fault<'static>>
    ensures { result ≡ wrong_address cells node.now }
{
    if is_number(cells, 1) {
        return None;
    }
    let message = Message::GraphAddress(cells);
    Some(cells_fault(node, b"#address-cells", message))
}

fn wrong_size(node: &Node, cells: Option<u32>) -> Option<Fault<'static>>
    ensures { result ≡ wrong_size cells node.now }
{
    if is_number(cells, 0) {
        return None;
    }
    let message = Message::GraphSize(cells);
    Some(cells_fault(node, b"#size-cells", message))
}

/// An address below a node whose addresses haven't one cell.
pub fn graph_address_fault(here: &Here<'_>, kind: Graph) -> Option<Fault<'static>>
    ensures { result ≡ graph_address_fault kind here.now }
{
    match graph_reg(here, kind) {
        None => None,
        Some(_) => wrong_address(here.node(), cells_of_above(here, b"#address-cells")),
    }
}

/// An address below a node whose sizes have cells.
pub fn graph_size_fault(here: &Here<'_>, kind: Graph) -> Option<Fault<'static>>
    ensures { result ≡ graph_size_fault kind here.now }
{
    match graph_reg(here, kind) {
        None => None,
        Some(_) => wrong_size(here.node(), cells_of_above(here, b"#size-cells")),
    }
}
