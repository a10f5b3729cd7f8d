//! Properties that no node of the same `compatible` has in a reference set, and that are within two letters of one that has.
ghost use Rattle.std.specs.Prelude.{◌≡◌, ◌++◌, List, ℕ, IfOk, OnOk, bytes_eq};
ghost use Rattle.dtman_check.specs.Table.Private.Reference.{AreRowsOf, passes_at};
ghost use Rattle.dtman_check.specs.Table.Unknown.{is_known, is_near, list_of, near_row, unknown_at, unknown_fault, unknown_found, unknown_in};

use crate::table::finding::Finding;
use crate::table::finding_all::add;
use crate::table::near::is_near;
use crate::table::reference::{Reference, RowRange, list_of};
use dt_check::{Fault, Message, Placed, Survey, is_same};
use dt_tree::Property;
use std::alloc::{AllocError, Global};

// Whether the row at a place is of a name.
fn has_name(reference: &Reference<'_>, place: usize, name: &[u8]) -> bool
    ensures { result ≡ passes_at reference.now place (λ known. bytes_eq known name.now) }
{
    match reference.row(place) {
        None => false,
        Some(row) => is_same(row.name, name),
    }
}

// Whether it is of one that a name is near.
fn has_near(reference: &Reference<'_>, place: usize, name: &[u8]) -> bool
    ensures { result ≡ passes_at reference.now place (λ known. is_near known name.now) }
{
    match reference.row(place) {
        None => false,
        Some(row) => is_near(row.name, name),
    }
}

// Whether one of the rows of a list is of a name.
fn is_known(reference: &Reference<'_>, places: RowRange, name: &[u8]) -> bool
    ensures { (list : List ℕ) → AreRowsOf reference.now list places → result ≡ is_known reference.now list name.now }
{
    for place in places.first..places.end {
        if has_name(reference, place, name) {
            return true;
        }
    }
    false
}

// The first of the rows of a list that a name is near.
fn near_row(reference: &Reference<'_>, places: RowRange, name: &[u8]) -> Option<usize>
    ensures { (list : List ℕ) → AreRowsOf reference.now list places → result ≡ near_row reference.now list name.now }
{
    for place in places.first..places.end {
        if has_near(reference, place, name) {
            return Some(place);
        }
    }
    None
}

fn unknown_fault<'t>(
    reference: &Reference<'_>,
    places: RowRange,
    property: &'t Property,
) -> Option<Fault<'t>>
    ensures { (list : List ℕ) → AreRowsOf reference.now list places
        → result ≡ unknown_fault reference.now list property.now }
{
    let name = property.name.as_bytes();
    if is_known(reference, places, name) {
        return None;
    }
    match near_row(reference, places, name) {
        None => None,
        Some(row) => Some(Fault::of_property(name, Message::Unknown(row))),
    }
}

fn find_in<'t>(
    findings: &mut Vec<Finding<'t>>,
    check: usize,
    place: usize,
    properties: &'t [Property],
    reference: &Reference<'_>,
    list: &[u8],
) -> Result<(), AllocError>
    ensures { OnOk result (findings.new.items
        ≡ findings.old.items ++ unknown_in check reference.now list.now place properties.now) }
{
    let places = reference.places_of(list);
    for property in properties {
        add(
            findings,
            check,
            place,
            unknown_fault(reference, places, property),
        )?;
    }
    Ok(())
}

fn find_at<'t>(
    alloc: Global,
    findings: &mut Vec<Finding<'t>>,
    check: usize,
    place: usize,
    placed: &Placed<'t>,
    reference: &Reference<'_>,
) -> Result<(), AllocError>
    ensures { OnOk result (findings.new.items ≡ findings.old.items
        ++ unknown_at check reference.now place placed.now.node (list_of placed.now.node)) }
{
    let node = placed.node();
    match list_of(alloc, node)? {
        None => Ok(()),
        Some(list) => find_in(
            findings,
            check,
            place,
            node.properties(),
            reference,
            list.as_slice(),
        ),
    }
}

/// The unknown properties: node by node in preorder, in each in the order of its properties.
pub fn find_unknown<'t>(
    alloc: Global,
    check: usize,
    survey: &Survey<'t>,
    reference: &Reference<'_>,
) -> Result<Vec<Finding<'t>>, AllocError>
    ensures { IfOk result (λ found. found.items ≡ unknown_found check reference.now survey.now) }
{
    let mut findings = Vec::new(alloc);
    for (place, placed) in survey.as_slice().iter().enumerate() {
        find_at(alloc, &mut findings, check, place, placed, reference)?;
    }
    Ok(findings)
}
