//! The interrupt tree: to which controller a node's interrupts go (Devicetree Specification v0.4, section 2.4).
ghost use Rattle.std.specs.Prelude.{◌≡◌, ◌++◌, IfOk, OnOk};
ghost use Rattle.std.specs.List.{list_any};
ghost use Rattle.bus_plan.specs.PlanPaths.{is_among};
ghost use Rattle.bus_drivers.specs.TreePlan.{strings};
ghost use Rattle.bus_links.specs.Bindings.Interrupts.{above_of, towards, parent_within, interrupt_parent, own_maps, has_own_map, is_controller, asked_next, controller_within, address_cells_within, address_bytes, first_byte, padded, key_of, controller_of, most_steps};

use crate::bindings::naming::{bytes, first_in, has, number_or};
use crate::bindings::nexus::{Asked, before, most_bytes, row_for};
use crate::bindings::nodes::Nodes;
use bus_drivers::next_string;
use dt_tree::behind;
use std::alloc::{AllocError, Global};

/// More steps than any way has that ends.
pub fn most_steps() -> usize
    ensures { result ≡ most_steps }
{
    128
}

fn above_of(nodes: &Nodes<'_>, place: usize) -> Option<usize>
    ensures { result ≡ above_of nodes.now place }
{
    if place == 0 {
        return None;
    }
    Some(nodes.above(place))
}

// The next node on the way to the interrupt parent.
fn towards(nodes: &Nodes<'_>, place: usize) -> Option<usize>
    ensures { result ≡ towards nodes.now place }
{
    match first_in(nodes, place, b"interrupt-parent") {
        None => above_of(nodes, place),
        Some(phandle) => nodes.with_phandle(phandle),
    }
}

fn parent_within(nodes: &Nodes<'_>, steps: usize, place: usize) -> Option<usize>
    ensures { result ≡ parent_within nodes.now steps place }
{
    let mut at = place;
    let mut left = steps;
    while left > 0 {
        left -= 1;
        let Some(next) = towards(nodes, at) else {
            return None;
        };
        if has(nodes, next, b"#interrupt-cells") {
            return Some(next);
        }
        at = next;
    }
    None
}

/// The node that takes a node's interrupts: the first with `#interrupt-cells` on the way by `interrupt-parent` and, without
/// one, the node above. A way of more than 128 steps is none.
pub fn interrupt_parent(nodes: &Nodes<'_>, place: usize) -> Option<usize>
    ensures { result ≡ interrupt_parent nodes.now place }
{
    parent_within(nodes, most_steps(), place)
}

// Whether Linux leaves the maps of controllers with this string to their drivers.
fn is_own_map(string: &[u8]) -> bool
    ensures { result ≡ is_among string.now own_maps }
{
    string == b"CBEA,platform-spider-pic".as_slice()
        || string == b"sti,platform-spider-pic".as_slice()
        || string == b"realtek,rtl-intc".as_slice()
        || string == b"fsl,ls1021a-extirq".as_slice()
        || string == b"fsl,ls1043a-extirq".as_slice()
        || string == b"fsl,ls1088a-extirq".as_slice()
        || string == b"renesas,rza1-irqc".as_slice()
        || string == b"pasemi,rootbus".as_slice()
}

fn are_own_maps(value: &[u8]) -> bool
    ensures { result ≡ list_any (λ string. is_among string own_maps) (strings value.now) }
{
    let mut rest = value;
    while let Some((string, behind)) = next_string(rest) {
        rest = behind;
        if is_own_map(string) {
            return true;
        }
    }
    false
}

// Whether an interrupt ends at a node.
fn is_controller(nodes: &Nodes<'_>, place: usize) -> bool
    ensures { result ≡ is_controller nodes.now place }
{
    if !has(nodes, place, b"interrupt-controller") {
        return false;
    }
    !has(nodes, place, b"interrupt-map") || are_own_maps(bytes(nodes, place, b"compatible"))
}

// Where an interrupt goes on from a node.
fn asked_next<'k>(nodes: &'k Nodes<'_>, place: usize, key: &'k [u8]) -> Option<Asked<'k>>
    ensures { result ≡ asked_next nodes.now place key.now }
{
    let Some(rows) = nodes.value(place, b"interrupt-map") else {
        return match interrupt_parent(nodes, place) {
            None => None,
            Some(parent) => Some(Asked { place: parent, key }),
        };
    };
    let masks = bytes(nodes, place, b"interrupt-map-mask");
    row_for(nodes, masks, key, rows.as_slice())
}

fn controller_within<'k>(
    nodes: &'k Nodes<'_>,
    steps: usize,
    place: usize,
    key: &'k [u8],
) -> Option<usize>
    ensures { result ≡ controller_within nodes.now steps place key.now }
{
    let mut at = place;
    let mut asked = key;
    let mut left = steps;
    while left > 0 {
        left -= 1;
        if is_controller(nodes, at) {
            return Some(at);
        }
        let Some(next) = asked_next(nodes, at, asked) else {
            return None;
        };
        if next.place == at {
            return Some(at);
        }
        at = next.place;
        asked = next.key;
    }
    None
}

fn address_cells_within(nodes: &Nodes<'_>, steps: usize, place: usize) -> u32
    ensures { result ≡ address_cells_within nodes.now steps place }
{
    let mut at = place;
    let mut left = steps;
    while left > 0 {
        left -= 1;
        if has(nodes, at, b"#address-cells") {
            return number_or(nodes, at, b"#address-cells", 2);
        }
        if at == 0 {
            return 2;
        }
        at = nodes.above(at);
    }
    2
}

// How many bytes a unit address has in the map of a node.
fn address_bytes(nodes: &Nodes<'_>, place: usize) -> usize
    ensures { result ≡ address_bytes nodes.now place }
{
    4 * (address_cells_within(nodes, most_steps(), place) as usize)
}

fn first_byte(bytes: &[u8]) -> u8
    ensures { result ≡ first_byte bytes.now }
{
    match bytes {
        [] => 0,
        [byte, ..] => *byte,
    }
}

// Adds so many of these bytes, filled up by zeros.
fn add_padded(key: &mut Vec<u8>, count: usize, bytes: &[u8]) -> Result<(), AllocError>
    ensures { OnOk result (key.new.items ≡ key.old.items ++ padded count bytes.now) }
{
    let mut rest = bytes;
    let mut left = count;
    while left > 0 {
        left -= 1;
        key.push(first_byte(rest))?;
        rest = behind(rest, 1);
    }
    Ok(())
}

// The key of an interrupt of a node at the one that takes it.
fn key_of(
    alloc: Global,
    nodes: &Nodes<'_>,
    own: usize,
    place: usize,
    specifier: &[u8],
) -> Result<Vec<u8>, AllocError>
    ensures { IfOk result (λ key. key.items ≡ key_of nodes.now own place specifier.now) }
{
    let mut key = Vec::new(alloc);
    let address = before(bytes(nodes, own, b"reg"), 12);
    add_padded(&mut key, address_bytes(nodes, place), address)?;
    key.extend_from_slice(specifier)?;
    Ok(key)
}

/// The controller of an interrupt of a node with this specifier, at the node that takes it first.
pub fn controller_of(
    alloc: Global,
    nodes: &Nodes<'_>,
    own: usize,
    place: usize,
    specifier: &[u8],
) -> Result<Option<usize>, AllocError>
    ensures { IfOk result (λ controller. controller ≡ controller_of nodes.now own place specifier.now) }
{
    let most = most_bytes();
    if specifier.len() > most || address_bytes(nodes, place) > most - specifier.len() {
        return Ok(None);
    }
    let key = key_of(alloc, nodes, own, place, specifier)?;
    Ok(controller_within(nodes, most_steps(), place, key.as_slice()))
}
