//! The maps of nexus nodes (Devicetree Specification v0.4, section 2.4.3).
ghost use Rattle.std.specs.Prelude.{◌≡◌, ◌≤◌, ◌&&◌, IfSome, take};
ghost use Rattle.bus_drivers.specs.Nodes.{is_okay};
ghost use Rattle.bus_links.specs.Bindings.LinkNodes.{node_at};
ghost use Rattle.bus_links.specs.Bindings.Interrupts.{first_mask, agrees, bytes_taken, most_bytes, parent_in, row_within, row_for};

use crate::bindings::naming::{named_by, number, number_or};
use crate::bindings::nodes::Nodes;
use dt_tree::behind;
use std::marker::Model;

/// What is asked of a node: the unit address and the specifier of an interrupt, to be found in its map.
#[derive(Drop)]
pub struct Asked<'k> {
    pub place: usize,
    pub key: &'k [u8],
}

impl<'k> Model for Asked<'k> {
    ghost use Rattle.bus_links.specs.Bindings.Interrupts.{Asked as Data};

    ghost Value = { Data };

    ghost view = { λ a. record { place = a.place; key = a.key.now } };
}

/// The node that a row leads to, and how many bytes are for that one.
#[derive(Clone, Copy)]
struct Parent {
    node: usize,
    bytes: usize,
}

impl Model for Parent {
    ghost use Rattle.bus_links.specs.Bindings.Interrupts.{Parent as Data};

    ghost Value = { Data };

    ghost view = { λ p. record { node = p.node; bytes = p.bytes } };

    ghost inverse = { λ p. record { node = p.node; bytes = p.bytes } };
}

/// The most that a unit address and a specifier may take: 16 cells.
pub fn most_bytes() -> usize
    ensures { result ≡ most_bytes }
{
    64
}

fn first_mask(masks: &[u8]) -> u8
    ensures { result ≡ first_mask masks.now }
{
    match masks {
        [] => 255,
        [mask, ..] => *mask,
    }
}

// Whether a row is for a key.
fn agrees(masks: &[u8], key: &[u8], row: &[u8]) -> bool
    ensures { result ≡ agrees masks.now key.now row.now }
{
    let mut masks = masks;
    let mut row = row;
    let mut left = key;
    while let [byte, bytes @ ..] = left {
        left = bytes;
        let [other, others @ ..] = row else {
            return false;
        };
        let mask = first_mask(masks);
        if *byte & mask != *other & mask {
            return false;
        }
        row = others;
        masks = behind(masks, 1);
    }
    true
}

// How many bytes a unit address and a specifier take of a node.
fn bytes_taken(nodes: &Nodes<'_>, place: usize) -> Option<usize>
    ensures { result ≡ bytes_taken nodes.now place }
{
    let Some(specifier) = number(nodes, place, b"#interrupt-cells") else {
        return None;
    };
    let address = number_or(nodes, place, b"#address-cells", 0);
    Some(4 * (address as usize + specifier as usize))
}

// Where a row leads that begins with a phandle.
fn parent_in(nodes: &Nodes<'_>, row: &[u8]) -> Option<Parent>
    ensures value { result ≡ parent_in nodes.now row.now }
    ensures small { IfSome result (λ parent. parent.bytes ≤ 64) }
{
    let Some(node) = named_by(nodes, row) else {
        return None;
    };
    let Some(bytes) = bytes_taken(nodes, node) else {
        return None;
    };
    if row.len() < 4 || bytes > row.len() - 4 {
        return None;
    }
    if bytes > most_bytes() {
        return None;
    }
    Some(Parent { node, bytes })
}

/// The first bytes, or all that there are.
pub fn before(bytes: &[u8], count: usize) -> &[u8]
    ensures { result.now ≡ take count bytes.now }
{
    if bytes.len() < count {
        return bytes;
    }
    &bytes[..count]
}

// Whether a row is for a key, and its parent okay.
fn is_for(nodes: &Nodes<'_>, masks: &[u8], key: &[u8], row: &[u8], parent: usize) -> bool
    ensures { result ≡ (agrees masks.now key.now row.now && is_okay (node_at nodes.now parent).properties) }
{
    agrees(masks, key, row) && nodes.okay(parent)
}

// What the first of so many rows that is for the key asks of its parent.
fn row_within<'r>(
    nodes: &Nodes<'_>,
    masks: &[u8],
    key: &[u8],
    most: usize,
    rows: &'r [u8],
) -> Option<Asked<'r>>
    ensures { result ≡ row_within nodes.now masks.now key.now most rows.now }
{
    let mut rest = rows;
    let mut left = most;
    while left > 0 {
        left -= 1;
        if rest.len() < key.len() + 8 {
            return None;
        }
        let Some(parent) = parent_in(nodes, behind(rest, key.len())) else {
            return None;
        };
        let asked = behind(rest, key.len() + 4);
        if is_for(nodes, masks, key, rest, parent.node) {
            return Some(Asked {
                place: parent.node,
                key: before(asked, parent.bytes),
            });
        }
        rest = behind(rest, key.len() + 4 + parent.bytes);
    }
    None
}

/// What the first row of a map that is for the key, and whose parent is okay, asks of that one.
pub fn row_for<'r>(nodes: &Nodes<'_>, masks: &[u8], key: &[u8], rows: &'r [u8]) -> Option<Asked<'r>>
    ensures { result ≡ row_for nodes.now masks.now key.now rows.now }
{
    row_within(nodes, masks, key, rows.len(), rows)
}
