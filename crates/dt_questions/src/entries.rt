//! The entries of a value, one after the other.
ghost use Rattle.std.specs.Prelude.{◌≡◌, ◌++◌, ◌*◌, ◌+◌, ◌<◌, ◌^◌, OnOk, drop, length};
ghost use Rattle.dt_questions.specs.Entries.{between, behind, cells_before, entries, entry_of, entry_with, first_entry, line_of, mentioned, named_entry, part};
ghost use Rattle.dt_questions.specs.ShapeView.{shape_data};

use crate::mention::Mention;
use crate::nodes::cells_at;
use crate::shape::Shape;
use dt_check::{Survey, cell_from};
use dt_tree::{Property, behind as rest_behind};
use std::alloc::AllocError;
use std::marker::Model;

/// The first entry of a value: the node that it names, none where it is left empty, the cells of its specifier, and the bytes
/// behind it.
#[derive(Drop)]
pub struct Entry<'t> {
    node: Option<usize>,
    cells: &'t [u8],
    rest: &'t [u8],
}

impl<'t> Model for Entry<'t> {
    ghost use Rattle.dt_questions.specs.Entries.{EntryData};

    ghost Value = { EntryData };

    ghost view = { λ e. record { node = e.node; cells = e.cells.now; rest = e.rest.now } };
}

// How many cells stand before a phandle.
fn cells_before(shape: Shape) -> usize
    ensures value { result ≡ cells_before (shape_data shape) }
    ensures few { result < 2 ^ 33 }
{
    match shape {
        Shape::Mapped => 1,
        Shape::Nexus { address, specifier } => address as usize + specifier as usize,
        Shape::Counted(_) | Shape::Bare | Shape::Lines { .. } => 0,
    }
}

// How many cells stand between the phandle of a node and the specifier.
fn between(survey: &Survey<'_>, shape: Shape, node: usize) -> u32
    ensures { result ≡ between survey.now (shape_data shape) node }
{
    match shape {
        Shape::Nexus { .. } => cells_at(survey, node, b"#address-cells").unwrap_or(0),
        Shape::Counted(_) | Shape::Bare | Shape::Mapped | Shape::Lines { .. } => 0,
    }
}

// How many cells a specifier for a node has.
fn behind(survey: &Survey<'_>, shape: Shape, node: usize) -> Option<u32>
    ensures { result ≡ behind survey.now (shape_data shape) node }
{
    match shape {
        Shape::Counted(name) => cells_at(survey, node, name),
        Shape::Nexus { .. } => cells_at(survey, node, b"#interrupt-cells"),
        Shape::Mapped => Some(2),
        Shape::Bare => Some(0),
        Shape::Lines { cells, .. } => Some(cells),
    }
}

// An entry for a node: so many bytes are passed over, and so many are its specifier.
fn part(node: usize, over: usize, count: usize, bytes: &[u8]) -> Option<Entry<'_>>
    ensures { result ≡ part node over count bytes.now }
{
    if bytes.len() < over || bytes.len() - over < count {
        return None;
    }
    Some(Entry {
        node: Some(node),
        cells: &bytes[over..over + count],
        rest: rest_behind(bytes, over + count),
    })
}

// The entry whose phandle leads to a node.
fn entry_of<'t>(
    survey: &Survey<'_>,
    shape: Shape,
    node: usize,
    bytes: &'t [u8],
) -> Option<Entry<'t>>
    ensures { result ≡ entry_of survey.now (shape_data shape) node bytes.now }
{
    match behind(survey, shape, node) {
        None => None,
        Some(count) => {
            let over = 4 * between(survey, shape, node) as usize;
            part(node, over, 4 * count as usize, bytes)
        }
    }
}

// The entry that begins with this phandle.
fn entry_with<'t>(
    survey: &Survey<'_>,
    shape: Shape,
    phandle: u32,
    bytes: &'t [u8],
) -> Option<Entry<'t>>
    ensures { result ≡ entry_with survey.now (shape_data shape) phandle bytes.now }
{
    if phandle == 0 || phandle == u32::MAX {
        return Some(Entry {
            node: None,
            cells: &[],
            rest: bytes,
        });
    }
    match survey.with_phandle(phandle) {
        None => None,
        Some(node) => entry_of(survey, shape, node, bytes),
    }
}

fn line_of(parent: usize, cells: u32, value: &[u8]) -> Option<Entry<'_>>
    ensures { result ≡ line_of parent cells value.now }
{
    if cells == 0 {
        return None;
    }
    part(parent, 0, 4 * cells as usize, value)
}

// The first entry of a value whose entries have phandles.
fn named_entry<'t>(survey: &Survey<'_>, shape: Shape, value: &'t [u8]) -> Option<Entry<'t>>
    ensures { result ≡ named_entry survey.now (shape_data shape) value.now }
{
    let offset = 4 * cells_before(shape);
    match cell_from(value, offset) {
        None => None,
        Some(phandle) => entry_with(survey, shape, phandle, rest_behind(value, offset + 4)),
    }
}

fn first_entry<'t>(survey: &Survey<'_>, shape: Shape, value: &'t [u8]) -> Option<Entry<'t>>
    ensures { result ≡ first_entry survey.now (shape_data shape) value.now }
{
    match shape {
        Shape::Lines { parent, cells } => line_of(parent, cells, value),
        Shape::Counted(_) => named_entry(survey, shape, value),
        Shape::Bare => named_entry(survey, shape, value),
        Shape::Mapped => named_entry(survey, shape, value),
        Shape::Nexus { .. } => named_entry(survey, shape, value),
    }
}

// Adds what an entry names.
fn add_mention<'t>(
    mentions: &mut Vec<Mention<'t>>,
    user: usize,
    property: &'t [u8],
    number: usize,
    entry: &Entry<'t>,
) -> Result<(), AllocError>
    ensures { OnOk result (mentions.new.items ≡ mentions.old.items ++ mentioned user property.now number entry.now) }
{
    if let Some(node) = entry.node {
        mentions.push(Mention {
            user,
            property,
            entry: number,
            node,
            cells: entry.cells,
        })?;
    }
    Ok(())
}

/// Adds what the entries of a node's property name.
pub fn add_entries<'t>(
    mentions: &mut Vec<Mention<'t>>,
    survey: &Survey<'_>,
    shape: Shape,
    user: usize,
    property: &'t Property,
) -> Result<(), AllocError>
    ensures { OnOk result (mentions.new.items
        ≡ mentions.old.items ++ entries survey.now (shape_data shape) user property.now.name property.now.value) }
{
    let mut rest = property.value.as_slice();
    let mut left = rest.len();
    let mut number = 0;
    while left > 0 {
        left -= 1;
        let Some(entry) = first_entry(survey, shape, rest) else {
            return Ok(());
        };
        add_mention(mentions, user, property.name.as_bytes(), number, &entry)?;
        rest = entry.rest;
        number += 1;
    }
    Ok(())
}
