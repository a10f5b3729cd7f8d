//! Unit addresses (Devicetree Specification v0.4, section 2.2.1.1).
ghost use Rattle.std.specs.Prelude.{◌≡◌};
ghost use Rattle.std.specs.List.{list_any};
ghost use Rattle.dt_check.specs.UnitRules.{is_overlay, has_overlay, has_address, unit_fault, is_own, leading_hex, without_hex, is_hex_digit, leading_zero, hex_fault, zero_fault};

use crate::fault::Fault;
use crate::here::{Here, children, has};
use crate::message::Message;
use crate::texts::is_same;
use crate::unit::unit_address;
use dt_tree::Node;

fn is_overlay(node: &Node) -> bool
    ensures { result ≡ is_overlay node.now }
{
    is_same(node.name_bytes(), b"__overlay__")
}

fn any_overlay(nodes: &[Node]) -> bool
    ensures { result ≡ list_any is_overlay nodes.now }
{
    nodes.iter().any(|node| is_overlay(node))
}

fn has_overlay(node: &Node) -> bool
    ensures { result ≡ has_overlay node.now }
{
    any_overlay(children(node))
}

fn has_address(node: &Node) -> bool
    ensures { result ≡ has_address node.now }
{
    if has(node, b"reg") {
        return true;
    }
    match node.value(b"ranges") {
        None => false,
        Some(value) => !value.as_slice().is_empty(),
    }
}

/// A unit address without `reg`, or the other way round.
pub fn unit_fault(here: &Here<'_>) -> Option<Fault<'static>>
    ensures { result ≡ unit_fault here.now }
{
    let node = here.node();
    if has_overlay(node) {
        return None;
    }
    let has_unit = !unit_address(node.name_bytes()).is_empty();
    if has_address(node) == has_unit {
        return None;
    }
    if has_unit {
        return Some(Fault::of_node(Message::NoReg));
    }
    Some(Fault::of_node(Message::NoUnit))
}

// Whether the bus above says how the unit address is written.
fn is_own(here: &Here<'_>) -> bool
    ensures { result ≡ is_own here.now }
{
    here.is_below_pci() || here.is_below_simple()
}

fn leading_hex(unit: &[u8]) -> bool
    ensures { result ≡ leading_hex unit.now }
{
    matches!(unit, [b'0', b'x', ..])
}

fn without_hex(unit: &[u8]) -> &[u8]
    ensures { result.now ≡ without_hex unit.now }
{
    match unit {
        [b'0', b'x', rest @ ..] => rest,
        _ => unit,
    }
}

fn is_hex_digit(byte: u8) -> bool
    ensures { result ≡ is_hex_digit byte }
{
    matches!(byte, b'0'..=b'9' | b'a'..=b'f' | b'A'..=b'F')
}

fn leading_zero(unit: &[u8]) -> bool
    ensures { result ≡ leading_zero unit.now }
{
    match unit {
        [first, next, ..] => *first == b'0' && is_hex_digit(*next),
        _ => false,
    }
}

/// A unit address that begins with `0x`.
pub fn hex_fault(here: &Here<'_>) -> Option<Fault<'static>>
    ensures { result ≡ hex_fault here.now }
{
    let unit = unit_address(here.node().name_bytes());
    if leading_hex(unit) && !is_own(here) {
        return Some(Fault::of_node(Message::LeadingHex));
    }
    None
}

/// A unit address that begins with a zero.
pub fn zero_fault(here: &Here<'_>) -> Option<Fault<'static>>
    ensures { result ≡ zero_fault here.now }
{
    let unit = unit_address(here.node().name_bytes());
    if leading_zero(without_hex(unit)) && !is_own(here) {
        return Some(Fault::of_node(Message::LeadingZero));
    }
    None
}
