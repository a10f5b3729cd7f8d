//! `/chosen` (Devicetree Specification v0.4, section 3.6), and the parents of interrupts (section 2.4).
ghost use Rattle.std.specs.Prelude.{◌≡◌};
ghost use Rattle.dt_check.specs.Chosen.{is_named, controller_fault, place_fault, bootargs_fault, old_stdout_fault, stdout_name, stdout_fault, is_parent_without, gpio_fault, is_gpio, ends_with, names_fault};

use crate::fault::Fault;
use crate::here::{Here, has};
use crate::message::Message;
use crate::texts::{is_same, not_string_list, string_fault};
use dt_tree::{Node, Property};

/// Whether a node has this name.
pub fn is_named(node: &Node, name: &[u8]) -> bool
    ensures { result ≡ is_named name.now node.now }
{
    is_same(node.name_bytes(), name)
}

/// `interrupt-controller` in `/chosen`, told of the root.
pub fn controller_fault(here: &Here<'_>) -> Option<Fault<'static>>
    ensures { result ≡ controller_fault here.now }
{
    if here.above().is_some() {
        return None;
    }
    let Some(chosen) = here.node().child(b"chosen") else {
        return None;
    };
    if has(chosen, b"interrupt-controller") {
        return Some(Fault::of_property(b"interrupt-controller", Message::ObsoleteController));
    }
    None
}

/// A node `chosen` that isn't below the root.
pub fn place_fault(here: &Here<'_>) -> Option<Fault<'static>>
    ensures { result ≡ place_fault here.now }
{
    let Some(above) = here.above() else {
        return None;
    };
    if !is_named(here.node(), b"chosen") || above.name_bytes().is_empty() {
        return None;
    }
    Some(Fault::of_node(Message::ChosenPlace))
}

/// `bootargs` isn't a string.
pub fn bootargs_fault(here: &Here<'_>) -> Option<Fault<'static>>
    ensures { result ≡ bootargs_fault here.now }
{
    if !is_named(here.node(), b"chosen") {
        return None;
    }
    string_fault(here, b"bootargs")
}

/// `linux,stdout-path` alone.
pub fn old_stdout_fault(here: &Here<'_>) -> Option<Fault<'static>>
    ensures { result ≡ old_stdout_fault here.now }
{
    let node = here.node();
    if !is_named(node, b"chosen") || has(node, b"stdout-path") {
        return None;
    }
    if !has(node, b"linux,stdout-path") {
        return None;
    }
    Some(Fault::of_property(b"linux,stdout-path", Message::OldStdout))
}

fn stdout_name(node: &Node) -> &'static [u8]
    ensures { result.now ≡ stdout_name node.now }
{
    if has(node, b"stdout-path") {
        return b"stdout-path";
    }
    b"linux,stdout-path"
}

/// `stdout-path` isn't a string.
pub fn stdout_fault(here: &Here<'_>) -> Option<Fault<'static>>
    ensures { result ≡ stdout_fault here.now }
{
    if !is_named(here.node(), b"chosen") {
        return None;
    }
    string_fault(here, stdout_name(here.node()))
}

/// A parent of interrupts without the property of this name.
pub fn is_parent_without(here: &Here<'_>, name: &[u8], message: Message) -> Option<Fault<'static>>
    ensures { result ≡ is_parent_without name.now message here.now }
{
    if !here.is_provider() || has(here.node(), name) {
        return None;
    }
    Some(Fault::of_node(message))
}

/// Whether a name ends so.
pub fn ends_with(name: &[u8], end: &[u8]) -> bool
    ensures { result ≡ ends_with end.now name.now }
{
    name.len() >= end.len() && is_same(&name[name.len() - end.len()..], end)
}

/// Whether a property lists lines of GPIO controllers.
pub fn is_gpio(name: &[u8]) -> bool
    ensures { result ≡ is_gpio name.now }
{
    (ends_with(name, b"-gpios")
        || is_same(name, b"gpios")
        || ends_with(name, b"-gpio")
        || is_same(name, b"gpio"))
        && !ends_with(name, b",nr-gpios")
}

/// `gpio` in place of `gpios`.
pub fn gpio_fault(property: &Property) -> Option<Fault<'_>>
    ensures { result ≡ gpio_fault property.now }
{
    let name = property.name.as_bytes();
    if is_gpio(name) && ends_with(name, b"gpio") {
        return Some(Fault::of_property(name, Message::DeprecatedGpio));
    }
    None
}

/// A list of names that isn't one of strings.
pub fn names_fault(property: &Property) -> Option<Fault<'_>>
    ensures { result ≡ names_fault property.now }
{
    let name = property.name.as_bytes();
    if !ends_with(name, b"-names") {
        return None;
    }
    not_string_list(name, property.value.as_slice())
}
