//! Lists of phandles, each with the cells of a specifier behind it.
ghost use Rattle.std.specs.Prelude.{◌≡◌, ◌<◌, ◌*◌, ◌^◌, ◌++◌, length, IfOk, OnOk};
ghost use Rattle.std.specs.Option.{option_copied};
ghost use Rattle.dt_check.specs.Cells.{cells_of};
ghost use Rattle.dt_check.specs.Links.Lists.{is_no_phandle, cells_behind, entry, entry_to};
ghost use Rattle.dt_check.specs.Links.Lists.{from_byte, from_cell, begins_at, is_reference, no_reference};
ghost use Rattle.dt_check.specs.Links.Lists.{entries_faults, list_faults};
ghost use Rattle.dt_check.specs.Links.ListingView.{listing_data};

use crate::{Fault, Message, Survey, cell_count, is_multiple, next_cell};
use dt_tree::{Property, cell_in};
use std::alloc::{AllocError, Global};

/// What a list's entries have behind their phandles.
#[derive(Clone, Copy, Debug)]
pub struct Listing {
    /// The property of the node that says how many cells follow.
    pub cells: &'static [u8],
    /// Whether none follow where the node has no such property.
    pub optional: bool,
}

/// Whether a cell is kept for no phandle.
pub fn is_no_phandle(cell: u32) -> bool
    ensures { result ≡ is_no_phandle cell }
{
    cell == 0 || cell == u32::MAX
}

// How many cells follow a phandle that leads to this node.
fn cells_behind(survey: &Survey<'_>, listing: Listing, place: usize) -> Option<u32>
    ensures { result ≡ cells_behind survey.now (listing_data listing) place }
{
    match survey.value(place, listing.cells) {
        None => {
            if listing.optional {
                return Some(0);
            }
            None
        }
        Some(value) => cell_in(value.as_slice()),
    }
}

// How many cells follow the phandle in this cell, which leads to a node: so many are left.
fn entry_to<'t>(
    survey: &Survey<'_>,
    listing: Listing,
    property: &'t Property,
    cell: usize,
    left: usize,
    place: usize,
) -> Result<u32, Fault<'t>>
    ensures { result ≡ entry_to survey.now (listing_data listing) property.now cell left place }
{
    let Some(cells) = cells_behind(survey, listing, place) else {
        return Err(Fault::of_node(Message::NoCells { node: place, cell }));
    };
    if left < cells as usize {
        let bytes = property.value.as_slice().len();
        let message = Message::TooShort { bytes, cells };
        return Err(Fault::of_property(property.name.as_bytes(), message));
    }
    Ok(cells)
}

fn entry<'t>(
    survey: &Survey<'_>,
    listing: Listing,
    property: &'t Property,
    cell: usize,
    left: usize,
    number: u32,
) -> Result<u32, Fault<'t>>
    ensures { result ≡ entry survey.now (listing_data listing) property.now cell left number }
{
    if is_no_phandle(number) {
        return Ok(0);
    }
    match survey.with_phandle(number) {
        None => Err(Fault::of_property(property.name.as_bytes(), Message::NoNode(cell))),
        Some(place) => entry_to(survey, listing, property, cell, left, place),
    }
}

// The references that don't stand before this byte.
fn from_byte(references: &[u32], byte: usize) -> &[u32]
    ensures { result.now ≡ from_byte byte references.now }
{
    for (index, at) in references.iter().enumerate() {
        if *at as usize >= byte {
            return &references[index..];
        }
    }
    &[]
}

// Whether the first of these references stands at this byte.
fn begins_at(references: &[u32], byte: usize) -> bool
    ensures { result ≡ begins_at byte references.now }
{
    match references {
        [] => false,
        [at, ..] => *at as usize == byte,
    }
}

// The references that don't stand before a cell.
fn from_cell(references: Option<&[u32]>, cell: usize) -> Option<&[u32]>
    requires { 4 * cell < 2 ^ 64 }
    ensures { option_copied result ≡ from_cell cell (option_copied references.entry) }
{
    match references {
        None => None,
        Some(references) => Some(from_byte(references, 4 * cell)),
    }
}

fn is_reference(references: Option<&[u32]>, cell: usize) -> bool
    requires { 4 * cell < 2 ^ 64 }
    ensures { result ≡ is_reference cell (option_copied references.entry) }
{
    match references {
        None => true,
        Some(references) => begins_at(references, 4 * cell),
    }
}

// Puts last that the phandle in a cell is no reference, by those that don't stand before it.
fn add_no_reference<'t>(
    faults: &mut Vec<Fault<'t>>,
    references: Option<&[u32]>,
    property: &'t Property,
    cell: usize,
    number: u32,
) -> Result<(), AllocError>
    requires { 4 * cell < 2 ^ 64 }
    ensures { OnOk result (faults.new.items
        ≡ faults.old.items ++ no_reference (option_copied references.entry) property.now cell number) }
{
    if is_no_phandle(number) || is_reference(references, cell) {
        return Ok(());
    }
    faults.push(Fault::of_property(property.name.as_bytes(), Message::NotAReference(cell)))?;
    Ok(())
}

fn add_entries<'t>(
    faults: &mut Vec<Fault<'t>>,
    survey: &Survey<'_>,
    listing: Listing,
    references: Option<&[u32]>,
    property: &'t Property,
) -> Result<(), AllocError>
    ensures { OnOk result (faults.new.items ≡ faults.old.items
        ++ entries_faults survey.now (listing_data listing) (option_copied references.entry) property.now 0 0
        (cells_of property.now.value)) }
{
    let mut rest = property.value.as_slice();
    let mut ahead = references;
    let mut skipped: u32 = 0;
    let mut cell = 0;
    while let Some((number, behind)) = next_cell(rest) {
        rest = behind;
        if skipped > 0 {
            skipped -= 1;
        } else if number == u32::MAX {
            return Ok(());
        } else {
            ahead = from_cell(ahead, cell);
            add_no_reference(faults, ahead, property, cell, number)?;
            match entry(survey, listing, property, cell, cell_count(rest), number) {
                Err(fault) => {
                    faults.push(fault)?;
                    return Ok(());
                }
                Ok(cells) => skipped = cells,
            }
        }
        cell += 1;
    }
    Ok(())
}

/// What is wrong with a list, in the order of its cells: `references` are the bytes of its value at which its source has references,
/// in order; none where there is no source.
pub fn list_faults<'t>(
    alloc: Global,
    survey: &Survey<'_>,
    listing: Listing,
    references: Option<&[u32]>,
    property: &'t Property,
) -> Result<Vec<Fault<'t>>, AllocError>
    ensures { IfOk result (λ faults. faults.items
        ≡ list_faults survey.now (listing_data listing) (option_copied references.entry) property.now) }
{
    let mut faults = Vec::new(alloc);
    let bytes = property.value.as_slice().len();
    if !is_multiple(bytes, 4) {
        faults.push(Fault::of_property(property.name.as_bytes(), Message::NotCells(bytes)))?;
        return Ok(faults);
    }
    add_entries(&mut faults, survey, listing, references, property)?;
    Ok(faults)
}
