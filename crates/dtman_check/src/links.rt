//! What is wrong along a phandle, in words.
use crate::paths::path_at;
use crate::table::{Finding, Finds, Listed, check_at};
use crate::writer::Writer;
use dt_check::{Message, Survey};
use std::alloc::{AllocError, Global};

// Words and then the path of a node.
fn of_node(
    alloc: Global,
    writer: &mut Writer,
    survey: &Survey<'_>,
    words: &str,
    node: usize,
) -> Result<(), AllocError> {
    let path = path_at(alloc, survey, node)?;
    writer.put(words.as_bytes())?;
    writer.put(path.as_slice())
}

// A list of phandles: behind ` of ` its name, where it has one, and the property that counts the cells behind each.
#[derive(Clone, Copy)]
struct PhandleList {
    before: &'static [u8],
    name: &'static [u8],
    cells: &'static [u8],
}

fn unnamed_list(cells: &'static [u8]) -> PhandleList {
    PhandleList {
        before: b"",
        name: b"",
        cells,
    }
}

// The list that a check looks into.
fn phandle_list_of(check: usize) -> PhandleList {
    let Some(row) = check_at(check) else {
        return unnamed_list(b"how many cells follow");
    };
    match row.finds {
        Finds::Lists(Listed::Named(name), listing) => PhandleList {
            before: b" of ",
            name,
            cells: listing.cells,
        },
        Finds::Lists(Listed::Lines, listing) => unnamed_list(listing.cells),
        _ => unnamed_list(b"how many cells follow"),
    }
}

/// Says which path leads to no node, and answers whether it did.
pub fn say_alias(
    writer: &mut Writer,
    survey: &Survey<'_>,
    finding: &Finding<'_>,
) -> Result<bool, AllocError> {
    if !matches!(finding.message, Message::NoAliasNode) {
        return Ok(false);
    }
    writer.put(b"leads to no node")?;
    if let Some(path) = path_in(survey, finding) {
        writer.put(b": ")?;
        writer.put(path)?;
    }
    Ok(true)
}

// The path that the property holds which is told of, where it can be shown.
fn path_in<'t>(survey: &Survey<'t>, finding: &Finding<'_>) -> Option<&'t [u8]> {
    let value = survey.value(finding.node?, finding.property?)?;
    let path = value.as_slice().strip_suffix(b"\0".as_slice())?;
    if path.iter().all(|byte| matches!(*byte, b' '..=b'~')) {
        return Some(path);
    }
    None
}

/// Says what leads to another node, and answers whether it did.
pub fn say_nodes(
    alloc: Global,
    writer: &mut Writer,
    survey: &Survey<'_>,
    finding: &Finding<'_>,
) -> Result<bool, AllocError> {
    match finding.message {
        Message::SameUnit(node) => {
            of_node(alloc, writer, survey, "has the unit address of ", node)?;
        }
        Message::NoCells { node, cell } => {
            let list = phandle_list_of(finding.check);
            writer.count("cell ", cell)?;
            writer.put(list.before)?;
            writer.put(list.name)?;
            of_node(alloc, writer, survey, " refers to ", node)?;
            writer.put(b", which doesn't say ")?;
            writer.put(list.cells)?;
        }
        Message::PhandleTwice { phandle, node } => {
            writer.hex("the phandle 0x", u64::from(phandle))?;
            of_node(alloc, writer, survey, " is that of ", node)?;
        }
        Message::NotAProvider(consumer) => {
            of_node(
                alloc,
                writer,
                survey,
                "takes no interrupts, by interrupt-controller or interrupt-map, but gets those of ",
                consumer,
            )?;
        }
        Message::OneWay(node) => {
            of_node(
                alloc,
                writer,
                survey,
                "leads to a node that doesn't lead back: ",
                node,
            )?;
        }
        _ => return Ok(false),
    }
    Ok(true)
}

fn interrupt_length(writer: &mut Writer, bytes: usize, wanted: usize) -> Result<(), AllocError> {
    writer.count("interrupts has ", bytes)?;
    writer.count(" bytes; wanted is a multiple of ", wanted)
}

fn too_short(writer: &mut Writer, bytes: usize, cells: u32) -> Result<(), AllocError> {
    writer.count("has ", bytes)?;
    writer.count(
        " bytes; the last phandle wants more cells behind it: ",
        cells as usize,
    )
}

/// Says what is wrong with a list or a phandle, and answers whether it did.
pub fn say_lists(writer: &mut Writer, message: Message) -> Result<bool, AllocError> {
    match message {
        Message::NotCells(bytes) => {
            writer.count("has ", bytes)?;
            writer.put(b" bytes; wanted is a multiple of 4")?;
        }
        Message::NotAReference(cell) => {
            writer.count("cell ", cell)?;
            writer.put(b" is not a phandle reference")?;
        }
        Message::NoNode(cell) => {
            writer.count("no node has the phandle in cell ", cell)?;
        }
        Message::TooShort { bytes, cells } => too_short(writer, bytes, cells)?,
        Message::InterruptLength { bytes, wanted } => interrupt_length(writer, bytes, wanted)?,
        Message::PhandleLength(bytes) => {
            writer.count("has ", bytes)?;
            writer.put(b" bytes; a phandle has 4")?;
        }
        Message::PhandleValue(number) => {
            writer.hex("no phandle: 0x", u64::from(number))?;
        }
        _ => return Ok(false),
    }
    Ok(true)
}
