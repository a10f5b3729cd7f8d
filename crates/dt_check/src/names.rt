//! Bytes in names.
ghost use Rattle.std.specs.Prelude.{◌≡◌, ◌<◌, not, find, length, position, IfSome};
ghost use Rattle.std.specs.Option.{option_map};
ghost use Rattle.std.specs.Str.{bytes_eq};
ghost use Rattle.dt_check.specs.Names.{is_plain, is_node_byte, is_property_byte, is_strict, node_byte_fault, strict_node_fault, second_at_fault, name_twice_fault, property_byte_fault, before_last, name_fault, odd_byte, odd_behind, strict_property_fault};

use crate::fault::Fault;
use crate::here::Here;
use crate::message::Message;
use crate::texts::is_same;
use crate::unit::{at_in, base_name, unit_address};
use dt_tree::Property;

// Small letters first: nearly all bytes of names are.
fn is_plain(byte: u8) -> bool
    ensures { result ≡ is_plain byte }
{
    matches!(byte, b'a'..=b'z') || matches!(byte, b'A'..=b'Z' | b'0'..=b'9')
}

fn is_node_byte(byte: u8) -> bool
    ensures { result ≡ is_node_byte byte }
{
    is_plain(byte) || matches!(byte, b',' | b'.' | b'_' | b'+' | b'-' | b'@')
}

fn is_property_byte(byte: u8) -> bool
    ensures { result ≡ is_property_byte byte }
{
    is_plain(byte) || matches!(byte, b',' | b'.' | b'_' | b'+' | b'*' | b'#' | b'?' | b'-')
}

fn is_strict(byte: u8) -> bool
    ensures { result ≡ is_strict byte }
{
    is_plain(byte) || matches!(byte, b',' | b'-')
}

// The first byte that can't stand in a node's name.
fn node_byte_in(name: &[u8]) -> Option<u8>
    ensures { result ≡ find (λ b. not (is_node_byte b)) name.now }
{
    name.iter().copied().find(|byte| !is_node_byte(*byte))
}

/// A byte that can't stand in a node's name.
pub fn node_byte_fault(here: &Here<'_>) -> Option<Fault<'static>>
    ensures { result ≡ node_byte_fault here.now }
{
    let name = here.node().name_bytes();
    match node_byte_in(name) {
        None => None,
        Some(byte) => Some(Fault::of_node(Message::BadNodeByte(byte))),
    }
}

/// A byte that isn't recommended in a node's name.
pub fn strict_node_fault(here: &Here<'_>) -> Option<Fault<'static>>
    ensures { result ≡ strict_node_fault here.now }
{
    let name = base_name(here.node().name_bytes());
    match odd_behind(name) {
        None => None,
        Some(byte) => Some(Fault::of_node(Message::OddNodeByte(byte))),
    }
}

/// A second `@` in a node's name.
pub fn second_at_fault(here: &Here<'_>) -> Option<Fault<'static>>
    ensures { result ≡ second_at_fault here.now }
{
    let unit = unit_address(here.node().name_bytes());
    match at_in(unit) {
        None => None,
        Some(_) => Some(Fault::of_node(Message::SecondAt)),
    }
}

/// A node of the name of a property beside it.
pub fn name_twice_fault(here: &Here<'_>) -> Option<Fault<'static>>
    ensures { result ≡ name_twice_fault here.now }
{
    let Some(above) = here.above() else {
        return None;
    };
    match above.value(here.node().name_bytes()) {
        None => None,
        Some(_) => Some(Fault::of_node(Message::NameTwice)),
    }
}

// The first byte that can't stand in a property's name.
fn property_byte_in(name: &[u8]) -> Option<u8>
    ensures { result ≡ find (λ b. not (is_property_byte b)) name.now }
{
    name.iter().copied().find(|byte| !is_property_byte(*byte))
}

// A string without the zero that ends it.
fn before_last(value: &[u8]) -> &[u8]
    ensures { result.now ≡ before_last value.now }
{
    if value.is_empty() {
        return value;
    }
    &value[..value.len() - 1]
}

/// A property `name` that isn't the base of the node's name.
pub fn name_fault(here: &Here<'_>) -> Option<Fault<'static>>
    ensures { result ≡ name_fault here.now }
{
    let Some(value) = here.value(b"name") else {
        return None;
    };
    if is_same(
        before_last(value.as_slice()),
        base_name(here.node().name_bytes()),
    ) {
        return None;
    }
    Some(Fault::of_node(Message::WrongName))
}

/// A byte that can't stand in a property's name.
pub fn property_byte_fault(property: &Property) -> Option<Fault<'_>>
    ensures { result ≡ property_byte_fault property.now }
{
    let name = property.name.as_bytes();
    match property_byte_in(name) {
        None => None,
        Some(byte) => Some(Fault::of_property(name, Message::BadPropertyByte(byte))),
    }
}

// The first byte that isn't recommended.
fn odd_behind(name: &[u8]) -> Option<u8>
    ensures { result ≡ odd_behind name.now }
{
    name.iter().copied().find(|byte| !is_strict(*byte))
}

// Where that is.
fn odd_place(name: &[u8]) -> Option<usize>
    ensures place { result ≡ position (λ b. not (is_strict b)) name.now }
    ensures within { IfSome result (λ place. place < length name.now) }
{
    name.iter().position(|byte| !is_strict(*byte))
}

fn odd_byte(name: &[u8]) -> Option<u8>
    ensures { result ≡ odd_byte name.now }
{
    let Some(place) = odd_place(name) else {
        return None;
    };
    if name[place] == b'#' && (place == 0 || name[place - 1] == b',') {
        return odd_behind(&name[place + 1..]);
    }
    Some(name[place])
}

/// A byte that isn't recommended in a property's name.
pub fn strict_property_fault(property: &Property) -> Option<Fault<'_>>
    ensures { result ≡ strict_property_fault property.now }
{
    let name = property.name.as_bytes();
    if name == b"device_type".as_slice() {
        return None;
    }
    match odd_byte(name) {
        None => None,
        Some(byte) => Some(Fault::of_property(name, Message::OddPropertyByte(byte))),
    }
}
