//! The regions of memory that nodes name (Devicetree Specification v0.4, section 2.3.6), where the processors see them.
ghost use Rattle.std.specs.Prelude.{◌≡◌, ◌++◌, ◌<◌, ◌≤◌, ◌+◌, ◌^◌, IfOk, IfSome, OnOk, length};
ghost use Rattle.std.specs.Option.{option_to_list};
ghost use Rattle.dt_questions.specs.Regions.{first_name, name_end, names_of, other_names, reg_len, region_at, region_in, regions, regions_below, regions_from, regions_of, regions_on, regions_within};

use crate::addresses::{address_at, number_in, raised, size_at};
use crate::alias::zero_in;
use crate::nodes::is_hidden;
use dt_check::{Placed, Survey};
use dt_tree::behind;
use std::alloc::{AllocError, Global};
use std::marker::Model;

/// `size` bytes from `start` on are the node's at the place `node`, and called so by its `reg-names`; `start + size` is at most 2^64, and
/// `size` isn't 0.
#[derive(Drop)]
pub struct Region<'t> {
    pub node: usize,
    pub name: &'t [u8],
    pub start: u64,
    pub size: u64,
}

impl<'t> Model for Region<'t> {
    ghost use Rattle.dt_questions.specs.Regions.{RegionData};

    ghost Value = { RegionData };

    ghost view = { λ r. record { node = r.node; name = r.name.now; start = r.start; size = r.size } };
}

// Where the first of these strings ends.
fn name_end(names: &[u8]) -> usize
    ensures value { result ≡ name_end names.now }
    ensures within { result ≤ length names.now }
{
    match zero_in(names) {
        None => names.len(),
        Some(end) => end,
    }
}

fn first_name(names: &[u8]) -> &[u8]
    ensures { result.now ≡ first_name names.now }
{
    &names[..name_end(names)]
}

fn other_names(names: &[u8]) -> &[u8]
    ensures { result.now ≡ other_names names.now }
{
    behind(names, name_end(names) + 1)
}

fn region_at<'t>(node: usize, name: &'t [u8], size: u64, start: u64) -> Option<Region<'t>>
    ensures { result ≡ region_at node name.now size start }
{
    if size == 0 || u64::MAX - start < size - 1 {
        return None;
    }
    Some(Region {
        node,
        name,
        start,
        size,
    })
}

// The region that the first row of a value says.
fn region_in<'t>(
    survey: &Survey<'_>,
    node: usize,
    bus: usize,
    name: &'t [u8],
    row: &[u8],
) -> Option<Region<'t>>
    ensures { result ≡ region_in survey.now node bus name.now row.now }
{
    let address_cells = address_at(survey, bus);
    let Some(address) = number_in(address_cells, row) else {
        return None;
    };
    let Some(size) = number_in(
        size_at(survey, bus),
        behind(row, 4 * address_cells as usize),
    ) else {
        return None;
    };
    match raised(survey, bus, address) {
        None => None,
        Some(start) => region_at(node, name, size, start),
    }
}

// How many bytes a row of `reg` has.
fn reg_len(survey: &Survey<'_>, bus: usize) -> usize
    ensures value { result ≡ reg_len survey.now bus }
    ensures few { result < 2 ^ 36 }
{
    4 * (address_at(survey, bus) as usize + size_at(survey, bus) as usize)
}

fn add_one<'t>(found: &mut Vec<Region<'t>>, region: Option<Region<'t>>) -> Result<(), AllocError>
    ensures { OnOk result (found.new.items ≡ found.old.items ++ option_to_list region.entry) }
{
    match region {
        None => Ok(()),
        Some(region) => {
            found.push(region)?;
            Ok(())
        }
    }
}

fn add_within<'t>(
    found: &mut Vec<Region<'t>>,
    survey: &Survey<'_>,
    node: usize,
    bus: usize,
    names: &'t [u8],
    value: &[u8],
) -> Result<(), AllocError>
    ensures { OnOk result (found.new.items
        ≡ found.old.items ++ regions_on survey.now node bus names.now value.now) }
{
    let mut rows = value;
    let mut names = names;
    let mut left = value.len();
    let len = reg_len(survey, bus);
    while left > 0 && rows.len() >= len {
        left -= 1;
        let region = region_in(survey, node, bus, first_name(names), rows);
        add_one(found, region)?;
        rows = behind(rows, len);
        names = other_names(names);
    }
    Ok(())
}

fn names_of<'t>(survey: &Survey<'t>, node: usize) -> &'t [u8]
    ensures { result.now ≡ names_of survey.now node }
{
    match survey.value(node, b"reg-names") {
        None => &[],
        Some(names) => names.as_slice(),
    }
}

// Adds the regions of a node on a bus.
fn add_below<'t>(
    found: &mut Vec<Region<'t>>,
    survey: &Survey<'t>,
    node: usize,
    bus: usize,
) -> Result<(), AllocError>
    ensures { OnOk result (found.new.items ≡ found.old.items ++ regions_below survey.now node bus) }
{
    match survey.value(node, b"reg") {
        None => Ok(()),
        Some(rows) => {
            let names = names_of(survey, node);
            add_within(found, survey, node, bus, names, rows.as_slice())
        }
    }
}

fn add_of<'t>(
    found: &mut Vec<Region<'t>>,
    survey: &Survey<'t>,
    node: usize,
) -> Result<(), AllocError>
    ensures { OnOk result (found.new.items ≡ found.old.items ++ regions_of survey.now node) }
{
    if is_hidden(survey, node) {
        return Ok(());
    }
    match survey.above(node) {
        None => Ok(()),
        Some(bus) => add_below(found, survey, node, bus),
    }
}

fn add_from<'t>(
    found: &mut Vec<Region<'t>>,
    survey: &Survey<'t>,
    nodes: &[Placed<'t>],
) -> Result<(), AllocError>
    ensures { OnOk result (found.new.items ≡ found.old.items ++ regions_from survey.now 0 nodes.now) }
{
    for (node, _) in nodes.iter().enumerate() {
        add_of(found, survey, node)?;
    }
    Ok(())
}

/// The regions of all nodes, in the order of the nodes and of the rows of their `reg`.
pub fn regions<'t>(alloc: Global, survey: &Survey<'t>) -> Result<Vec<Region<'t>>, AllocError>
    ensures { IfOk result (λ found. found.items ≡ regions survey.now) }
{
    let mut found = Vec::new(alloc);
    add_from(&mut found, survey, survey.as_slice())?;
    Ok(found)
}
