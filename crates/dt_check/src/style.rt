//! `#address-cells` and `#size-cells` that are left out, or that nothing needs (Devicetree Specification v0.4, section 2.3.5).
ghost use Rattle.std.specs.Prelude.{◌≡◌};
ghost use Rattle.std.specs.List.{list_any};
ghost use Rattle.dt_check.specs.Style.{is_addressed, has_reg, default_fault, unnecessary_fault, is_unnecessary};

use crate::fault::Fault;
use crate::here::{Here, children, has};
use crate::message::Message;
use dt_tree::Node;

fn is_addressed(node: &Node) -> bool
    ensures { result ≡ is_addressed node.now }
{
    has(node, b"reg") || has(node, b"ranges")
}

/// An address by a number of cells that the node above doesn't say, under this name.
pub fn default_fault(here: &Here<'_>, name: &[u8], message: Message) -> Option<Fault<'static>>
    ensures { result ≡ default_fault name.now message here.now }
{
    let Some(above) = here.above() else {
        return None;
    };
    if has(above, name) || !is_addressed(here.node()) {
        return None;
    }
    Some(Fault::of_node(message))
}

fn has_reg(node: &Node) -> bool
    ensures { result ≡ has_reg node.now }
{
    has(node, b"reg")
}

fn any_reg(nodes: &[Node]) -> bool
    ensures { result ≡ list_any has_reg nodes.now }
{
    nodes.iter().any(|node| has_reg(node))
}

fn is_unnecessary(node: &Node) -> bool
    ensures { result ≡ is_unnecessary node.now }
{
    has(node, b"#address-cells")
        && has(node, b"#size-cells")
        && !has(node, b"ranges")
        && !children(node).is_empty()
        && !any_reg(children(node))
}

/// Numbers of cells that no child needs.
pub fn unnecessary_fault(here: &Here<'_>) -> Option<Fault<'static>>
    ensures { result ≡ unnecessary_fault here.now }
{
    if here.above().is_none() || !is_unnecessary(here.node()) {
        return None;
    }
    Some(Fault::of_node(Message::Unnecessary))
}
