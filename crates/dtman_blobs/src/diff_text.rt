//! What differs, as a patch of sources.
ghost use Rattle.std.specs.Prelude.{◌<◌, IfOk, length};

use crate::difference::{Comparison, Difference, Naming, Side, Thing};
use crate::diffing::{Outcome, Titles};
use crate::order_lines::add_moved;
use crate::source_lines::{add_node, add_property, shown_path};
use dt_blob::BlobError;
use dt_tree::Tree;
use std::alloc::{AllocError, Global};
use std::hash::RandomState;

/// The trees, and what their phandles name.
#[derive(Drop)]
struct Pair<'a, 't> {
    first: &'a Naming<'t>,
    second: &'a Naming<'t>,
}

fn mark_of(side: Side) -> u8 {
    match side {
        Side::First => b'-',
        Side::Second => b'+',
    }
}

fn add_reserves(
    alloc: Global,
    text: &mut Vec<u8>,
    side: Side,
    reserves: &[(u64, u64)],
) -> Result<(), AllocError> {
    for (address, size) in reserves {
        text.push(mark_of(side))?;
        let line = format!(in alloc; "/memreserve/ 0x{address:016x} 0x{size:016x};\n")?;
        text.extend_from_slice(line.as_bytes())?;
    }
    Ok(())
}

fn add_boot_cpu(
    alloc: Global,
    text: &mut Vec<u8>,
    side: Side,
    boot_cpu: u32,
) -> Result<(), AllocError> {
    text.push(mark_of(side))?;
    let line = format!(in alloc; "// boot_cpuid_phys: 0x{boot_cpu:x}\n")?;
    text.extend_from_slice(line.as_bytes())
}

// What isn't of a node.
fn add_header(
    alloc: Global,
    text: &mut Vec<u8>,
    first: &Tree,
    second: &Tree,
    comparison: &Comparison<'_>,
) -> Result<(), AllocError> {
    if !comparison.same_reserves {
        add_reserves(alloc, text, Side::First, first.reserves())?;
        add_reserves(alloc, text, Side::Second, second.reserves())?;
    }
    if !comparison.same_boot_cpu {
        add_boot_cpu(alloc, text, Side::First, first.boot_cpu())?;
        add_boot_cpu(alloc, text, Side::Second, second.boot_cpu())?;
    }
    Ok(())
}

fn add_thing(
    alloc: Global,
    text: &mut Vec<u8>,
    pair: &Pair<'_, '_>,
    difference: &Difference<'_>,
) -> Result<(), BlobError> {
    let mark = mark_of(difference.side());
    let naming = match difference.side() {
        Side::First => pair.first,
        Side::Second => pair.second,
    };
    match difference.thing() {
        Thing::Property(property) => add_property(alloc, text, mark, 1, naming, property),
        Thing::Node(node) => add_node(alloc, text, mark, 1, naming, node),
    }
}

/// The line of a node's path, below which stands what differs in the node.
pub(crate) fn add_place(text: &mut Vec<u8>, path: &[u8]) -> Result<(), AllocError> {
    text.extend_from_slice(b"@@ ")?;
    text.extend_from_slice(shown_path(path))?;
    text.extend_from_slice(b" @@\n")
}

// The differences, those of a node below its path.
fn add_differences(
    alloc: Global,
    text: &mut Vec<u8>,
    pair: &Pair<'_, '_>,
    differences: &[Difference<'_>],
) -> Result<(), BlobError> {
    let mut here: Option<&[u8]> = None;
    for difference in differences {
        let path = difference.path();
        if here != Some(path) {
            add_place(text, path)?;
        }
        add_thing(alloc, text, pair, difference)?;
        here = Some(path);
    }
    Ok(())
}

fn titled(alloc: Global, titles: Titles<'_>, lines: &[u8]) -> Result<Vec<u8>, AllocError>
    ensures { IfOk result (λ text. 0 < length text.items) }
{
    let mut text = Vec::new(alloc);
    text.extend_from_slice(b"--- ")?;
    text.extend_from_slice(titles.first.as_bytes())?;
    text.extend_from_slice(b"\n+++ ")?;
    text.extend_from_slice(titles.second.as_bytes())?;
    text.push(b'\n')?;
    text.extend_from_slice(lines)?;
    Ok(text)
}

fn lines_of(
    alloc: Global,
    hasher: RandomState,
    first: &Tree,
    second: &Tree,
    outcome: &Outcome<'_>,
) -> Result<Vec<u8>, BlobError> {
    let first_naming = Naming::of(alloc, hasher, first)?;
    let second_naming = Naming::of(alloc, hasher, second)?;
    let pair = Pair {
        first: &first_naming,
        second: &second_naming,
    };
    let mut text = Vec::new(alloc);
    let comparison = &outcome.comparison;
    add_header(alloc, &mut text, first, second, comparison)?;
    add_differences(alloc, &mut text, &pair, comparison.differences.as_slice())?;
    add_moved(&mut text, outcome.moved.as_slice())?;
    Ok(text)
}

/// The text of what differs: the titles, and then the lines.
pub(crate) fn difference_text(
    alloc: Global,
    hasher: RandomState,
    titles: Titles<'_>,
    first: &Tree,
    second: &Tree,
    outcome: &Outcome<'_>,
) -> Result<Vec<u8>, BlobError>
    ensures { IfOk result (λ text. 0 < length text.items) }
{
    let lines = lines_of(alloc, hasher, first, second, outcome)?;
    Ok(titled(alloc, titles, lines.as_slice())?)
}
