//! Nodes side by side with one unit address (Devicetree Specification v0.4, section 2.2.1.1).
//!
//! Each pair is told of its first node. A node behind 64 or more of its address is paired with the sixteen nearest of them, so that
//! what is told stays as large as the tree.
ghost use Rattle.std.specs.Prelude.{◌≡◌, ◌++◌, ◌∷◌, [], ℕ, List, IfOk, OnOk, length, map, replicate, bytes_eq, if◌then◌else◌};
ghost use Rattle.dt_check.specs.Cells.{has};
ghost use Rattle.dtman_check.specs.Table.Private.Units.{AreUnitsBelow, places_at, put_at, with_unit};
ghost use Rattle.dtman_check.specs.Table.Units.{address_at, counts, is_disabled, is_unit, pairs_below, pairs_from};
ghost use Rattle.dtman_check.specs.Table.Units.{same_units, says_cells, told, units_found, units_from};

use crate::table::finding::Finding;
use dt_check::{Fault, Message, Placed, Survey, is_same, unit_address};
use std::alloc::{AllocError, Global};
use std::collections::BTreeMap;

/// How many nodes of its address are before one at least, so that not all pairs with them are told.
const MANY: usize = 64;

/// How many of them are paired with it then.
const MAX_PAIRS: usize = 16;

/// Which nodes count.
#[derive(Clone, Copy, Debug, PartialEq, Eq)]
pub enum Counted {
    All,
    /// Those that aren't disabled.
    Enabled,
}

fn says(placed: &Placed<'_>, name: &[u8]) -> bool
    ensures { result ≡ has placed.now.node.properties name.now }
{
    placed.value(name).is_some()
}

fn says_cells(placed: &Placed<'_>) -> bool
    ensures { result ≡ says_cells placed.now.node }
{
    says(placed, b"#address-cells") && says(placed, b"#size-cells")
}

fn is_disabled(placed: &Placed<'_>) -> bool
    ensures { result ≡ is_disabled placed.now.node }
{
    match placed.value(b"status") {
        None => false,
        Some(value) => is_same(value.as_slice(), b"disabled\0"),
    }
}

fn counts(placed: &Placed<'_>, counted: Counted) -> bool
    ensures { result ≡ counts counted placed.now.node }
{
    match counted {
        Counted::All => true,
        Counted::Enabled => !is_disabled(placed),
    }
}

fn is_unit(placed: &Placed<'_>, counted: Counted) -> bool
    ensures { result ≡ is_unit counted placed.now.node }
{
    placed.has_unit() && counts(placed, counted)
}

// An empty list for each.
fn empty_lists(alloc: Global, count: usize) -> Result<Vec<Vec<usize>>, AllocError>
    ensures { IfOk result (λ lists. map (λ list. list.items) lists.items ≡ replicate count []) }
{
    let mut lists = Vec::with_capacity(alloc, count)?;
    for _ in 0..count {
        lists.push(Vec::new(alloc))?;
    }
    Ok(lists)
}

fn put_at(lists: &mut Vec<Vec<usize>>, at: usize, place: usize) -> Result<(), AllocError>
    ensures { OnOk result (map (λ list. list.items) lists.new.items
        ≡ put_at (map (λ list. list.items) lists.old.items) at place) }
{
    if at < lists.len() {
        lists[at].push(place)?;
    }
    Ok(())
}

// Puts a node with a unit address, that counts, behind the others below the same one.
fn put_unit(
    below: &mut Vec<Vec<usize>>,
    placed: &Placed<'_>,
    counted: Counted,
    place: usize,
) -> Result<(), AllocError>
    ensures { OnOk result (map (λ list. list.items) below.new.items
        ≡ with_unit counted placed.now place (map (λ list. list.items) below.old.items)) }
{
    let Some(above) = placed.above() else {
        return Ok(());
    };
    if !is_unit(placed, counted) {
        return Ok(());
    }
    put_at(below, above, place)
}

// The nodes with unit addresses below each node.
fn units_below(
    alloc: Global,
    nodes: &[Placed<'_>],
    counted: Counted,
) -> Result<Vec<Vec<usize>>, AllocError>
    ensures { IfOk result (λ below. AreUnitsBelow counted nodes.now (map (λ list. list.items) below.items)) }
{
    let mut below = empty_lists(alloc, nodes.len())?;
    for (place, placed) in nodes.iter().enumerate() {
        put_unit(&mut below, placed, counted, place)?;
    }
    Ok(below)
}

fn address_at<'t>(survey: &Survey<'t>, place: usize) -> &'t [u8]
    ensures { result.now ≡ address_at survey.now place }
{
    match survey.node(place) {
        None => &[],
        Some(node) => unit_address(node.name_bytes()),
    }
}

// Keeps a node among those of its address.
fn keep<'t>(
    alloc: Global,
    kept: &mut BTreeMap<&'t [u8], Vec<usize>>,
    address: &'t [u8],
    place: usize,
) -> Result<(), AllocError>
    ensures { OnOk result ((q : List ℕ) → places_at kept.new q
        ≡ (if bytes_eq address.now q then places_at kept.old q ++ place ∷ [] else places_at kept.old q)) }
{
    if let Some(places) = kept.get_mut(&address) {
        places.push(place)?;
        return Ok(());
    }
    let mut places = Vec::new(alloc);
    places.push(place)?;
    kept.insert(address, places)?;
    Ok(())
}

fn places_at<'m, 't>(kept: &'m BTreeMap<&'t [u8], Vec<usize>>, address: &'t [u8]) -> &'m [usize]
    ensures { result.now ≡ places_at kept.now address.now }
{
    match kept.get(&address) {
        None => &[],
        Some(places) => places.as_slice(),
    }
}

// Which of those before it a node is told of.
fn told(places: &[usize]) -> &[usize]
    ensures { result.now ≡ told places.now }
{
    if places.len() < MANY {
        return places;
    }
    &places[places.len() - MAX_PAIRS..]
}

fn find_same<'t>(
    findings: &mut Vec<Finding<'t>>,
    check: usize,
    later: usize,
    earlier: &[usize],
) -> Result<(), AllocError>
    ensures { OnOk result (findings.new.items ≡ findings.old.items ++ same_units check later earlier.now) }
{
    for place in earlier {
        let fault = Fault::of_node(Message::SameUnit(later));
        findings.push(Finding::of(check, *place, fault))?;
    }
    Ok(())
}

// The pairs of these nodes, which are side by side.
fn find_pairs<'t>(
    alloc: Global,
    findings: &mut Vec<Finding<'t>>,
    check: usize,
    survey: &Survey<'t>,
    units: &[usize],
) -> Result<(), AllocError>
    ensures { OnOk result (findings.new.items ≡ findings.old.items ++ pairs_from check survey.now [] units.now) }
{
    let mut kept = BTreeMap::new(alloc);
    for unit in units {
        let address = address_at(survey, *unit);
        find_same(findings, check, *unit, told(places_at(&kept, address)))?;
        keep(alloc, &mut kept, address, *unit)?;
    }
    Ok(())
}

fn find_below<'t>(
    alloc: Global,
    findings: &mut Vec<Finding<'t>>,
    check: usize,
    survey: &Survey<'t>,
    above: &Placed<'t>,
    units: &[usize],
) -> Result<(), AllocError>
    ensures { OnOk result (findings.new.items
        ≡ findings.old.items ++ pairs_below check survey.now above.now.node units.now) }
{
    // one alone has no other
    if units.len() < 2 {
        return Ok(());
    }
    if !says_cells(above) {
        return Ok(());
    }
    find_pairs(alloc, findings, check, survey, units)
}

/// The pairs of nodes with one unit address: by the node above, then by the later, then by the earlier.
pub fn find_units<'t>(
    alloc: Global,
    check: usize,
    counted: Counted,
    survey: &Survey<'t>,
) -> Result<Vec<Finding<'t>>, AllocError>
    ensures { IfOk result (λ found. found.items ≡ units_found check counted survey.now) }
{
    let nodes = survey.as_slice();
    let below = units_below(alloc, nodes, counted)?;
    let mut findings = Vec::new(alloc);
    for (above, placed) in nodes.iter().enumerate() {
        find_below(
            alloc,
            &mut findings,
            check,
            survey,
            placed,
            below[above].as_slice(),
        )?;
    }
    Ok(findings)
}
