//! `/aliases` (Devicetree Specification v0.4, section 3.3).
ghost use Rattle.std.specs.Prelude.{◌≡◌, ◌<◌, ◌==◌, not, find, length, position, IfSome};
ghost use Rattle.std.specs.Option.{option_copied};
ghost use Rattle.std.specs.List.{slice_split};
ghost use Rattle.dt_check.specs.Links.Aliases.{is_slash, text_of, below, at_names, leads_to_node, is_alias_byte, is_apart, alias_fault, alias_name_fault};

use crate::{Fault, Message, is_same};
use dt_tree::{Node, Property};

fn zero_in(value: &[u8]) -> Option<usize>
    ensures place { result ≡ position (λ b. b == 0) value.now }
    ensures within { IfSome result (λ end. end < length value.now) }
{
    value.iter().position(|byte| *byte == 0)
}

// A string without the zero that ends it.
fn text_of(value: &[u8]) -> &[u8]
    ensures { result.now ≡ text_of value.now }
{
    match zero_in(value) {
        None => value,
        Some(end) => &value[..end],
    }
}

// The node of this name below another; itself for no name.
fn below<'t>(node: &'t Node, name: &[u8]) -> Option<&'t Node>
    ensures { option_copied result ≡ below name.now node.now }
{
    if name.is_empty() {
        return Some(node);
    }
    node.child(name)
}

fn at_names<'t>(root: &'t Node, text: &[u8]) -> Option<&'t Node>
    ensures { option_copied result ≡ at_names root.now (slice_split is_slash text.now) }
{
    let mut node = root;
    for name in text.split(|byte| *byte == b'/') {
        node = below(node, name)?;
    }
    Some(node)
}

fn leads_to_node(root: &Node, value: &[u8]) -> bool
    ensures { result ≡ leads_to_node root.now value.now }
{
    if value.is_empty() {
        return false;
    }
    at_names(root, text_of(value)).is_some()
}

fn is_alias_byte(byte: u8) -> bool
    ensures { result ≡ is_alias_byte byte }
{
    matches!(byte, b'a'..=b'z' | b'0'..=b'9' | b'-')
}

fn odd_byte(name: &[u8]) -> Option<u8>
    ensures { result ≡ find (λ b. not (is_alias_byte b)) name.now }
{
    name.iter().copied().find(|byte| !is_alias_byte(*byte))
}

fn alias_name_fault(name: &[u8]) -> Option<Fault<'static>>
    ensures { result ≡ alias_name_fault name.now }
{
    match odd_byte(name) {
        None => None,
        Some(_) => Some(Fault::of_node(Message::AliasName)),
    }
}

// A property that is no alias.
fn is_apart(name: &[u8]) -> bool
    ensures { result ≡ is_apart name.now }
{
    is_same(name, b"phandle") || is_same(name, b"linux,phandle")
}

/// What is wrong with an alias, in the tree of this root.
pub fn alias_fault<'t>(root: &Node, property: &'t Property) -> Option<Fault<'t>>
    ensures { result ≡ alias_fault root.now property.now }
{
    let name = property.name.as_bytes();
    if is_apart(name) {
        return None;
    }
    if leads_to_node(root, property.value.as_slice()) {
        return alias_name_fault(name);
    }
    Some(Fault::of_property(name, Message::NoAliasNode))
}
