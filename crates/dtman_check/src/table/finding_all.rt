//! What a check finds in a tree.
ghost use Rattle.std.specs.Prelude.{◌≡◌, ◌++◌, OnOk, Some};
ghost use Rattle.std.specs.Option.{option_copied};
ghost use Rattle.dt_check.specs.Nodes.{here_of};
ghost use Rattle.dtman_check.specs.Table.Found.{added, added_link, found_by_rules, found_in_properties, found_by_links};
ghost use Rattle.dtman_check.specs.Table.Found.{added_all, is_listed, has_lists, references_at, found_in_list, found_in_lists};
ghost use Rattle.dtman_check.specs.Table.Private.Classes.{classes_of};
ghost use Rattle.dtman_check.specs.Table.Found.{alias_fault_in, found_aliases, is_among, found_here, found_from, found};

use crate::table::check::{Among, Finds, Listed};
use crate::table::finding::Finding;
use crate::table::looking::{Classes, classes_of, finds_nothing, may_find, next_with};
use crate::table::rule::{LinkRule, PropertyRule, Rule};
use crate::table::subject::Subject;
use dt_check::links::{LinkFault, Listing, alias_fault, is_of, list_faults};
use dt_check::{Fault, Here, Placed, Survey, children, has, is_gpio, is_named, is_same};
use dt_live::making::Places;
use dt_tree::Property;
use std::alloc::AllocError;

/// Puts a fault of a node last, where there is one.
pub(crate) fn add<'t>(
    findings: &mut Vec<Finding<'t>>,
    check: usize,
    place: usize,
    fault: Option<Fault<'t>>,
) -> Result<(), AllocError>
    ensures { OnOk result (findings.new.items ≡ findings.old.items ++ added check place fault.entry) }
{
    match fault {
        None => Ok(()),
        Some(fault) => {
            findings.push(Finding::of(check, place, fault))?;
            Ok(())
        }
    }
}

fn add_link<'t>(
    findings: &mut Vec<Finding<'t>>,
    check: usize,
    fault: Option<LinkFault<'t>>,
) -> Result<(), AllocError>
    ensures { OnOk result (findings.new.items ≡ findings.old.items ++ added_link check fault.entry) }
{
    match fault {
        None => Ok(()),
        Some(fault) => {
            findings.push(Finding::of(check, fault.node, fault.fault))?;
            Ok(())
        }
    }
}

fn find_by_rules<'t>(
    findings: &mut Vec<Finding<'t>>,
    check: usize,
    rules: &[Rule],
    here: &Here<'t>,
    place: usize,
) -> Result<(), AllocError>
    ensures { OnOk result (findings.new.items
        ≡ findings.old.items ++ found_by_rules check place here.now rules.now) }
{
    for rule in rules {
        add(findings, check, place, rule.fault(here))?;
    }
    Ok(())
}

// Apart, so that what looks at a node stays small.
#[inline(never)]
fn find_in_properties<'t>(
    findings: &mut Vec<Finding<'t>>,
    check: usize,
    rule: PropertyRule,
    properties: &'t [Property],
    place: usize,
) -> Result<(), AllocError>
    ensures { OnOk result (findings.new.items
        ≡ findings.old.items ++ found_in_properties check place rule properties.now) }
{
    for property in properties {
        add(findings, check, place, rule.fault(property))?;
    }
    Ok(())
}

#[inline(never)]
fn find_by_links<'t>(
    findings: &mut Vec<Finding<'t>>,
    check: usize,
    rules: &[LinkRule],
    survey: &Survey<'t>,
    here: &Here<'t>,
    place: usize,
) -> Result<(), AllocError>
    ensures { OnOk result (findings.new.items
        ≡ findings.old.items ++ found_by_links check survey.now place here.now rules.now) }
{
    for rule in rules {
        add_link(findings, check, rule.fault(survey, here, place))?;
    }
    Ok(())
}

fn add_all<'t>(
    findings: &mut Vec<Finding<'t>>,
    check: usize,
    place: usize,
    faults: Vec<Fault<'t>>,
) -> Result<(), AllocError>
    ensures { OnOk result (findings.new.items ≡ findings.old.items ++ added_all check place faults.entry.items) }
{
    for fault in faults {
        findings.push(Finding::of(check, place, fault))?;
    }
    Ok(())
}

// Whether a check looks into a list of this name.
fn is_listed(listed: Listed, name: &[u8]) -> bool
    ensures { result ≡ is_listed listed name.now }
{
    match listed {
        Listed::Named(wanted) => is_same(name, wanted),
        Listed::Lines => is_gpio(name),
    }
}

// Whether a node has such lists: a hog's lines are its own, and no list.
fn has_lists(here: &Here<'_>, listed: Listed) -> bool
    ensures { result ≡ has_lists listed here.now }
{
    match listed {
        Listed::Named(_) => true,
        Listed::Lines => !has(here.node(), b"gpio-hog"),
    }
}

// The references in a property's value.
fn references_at(written: Option<&Places>, place: usize, index: usize) -> Option<&[u32]>
    ensures { option_copied result ≡ references_at (option_copied written.entry) place index }
{
    match written {
        None => None,
        Some(places) => Some(places.references(place, index)),
    }
}

// Lists of a node: which, and what stands in them.
#[derive(Clone, Copy)]
struct Lists {
    listed: Listed,
    listing: Listing,
    place: usize,
}

fn find_in_list<'t>(
    findings: &mut Vec<Finding<'t>>,
    check: usize,
    lists: Lists,
    subject: Subject<'_, 't>,
    index: usize,
    property: &'t Property,
) -> Result<(), AllocError>
    ensures { OnOk result (findings.new.items ≡ findings.old.items
        ++ found_in_list check lists.listed lists.listing subject.entry.survey.now (option_copied subject.entry.written)
        lists.place index property.now) }
{
    if !is_listed(lists.listed, property.name.as_bytes()) {
        return Ok(());
    }
    let references = references_at(subject.written, lists.place, index);
    let faults = list_faults(
        subject.alloc,
        subject.survey,
        lists.listing,
        references,
        property,
    )?;
    add_all(findings, check, lists.place, faults)
}

#[inline(never)]
fn find_in_lists<'t>(
    findings: &mut Vec<Finding<'t>>,
    check: usize,
    lists: Lists,
    subject: Subject<'_, 't>,
    properties: &'t [Property],
) -> Result<(), AllocError>
    ensures { OnOk result (findings.new.items ≡ findings.old.items
        ++ found_in_lists check lists.listed lists.listing subject.entry.survey.now (option_copied subject.entry.written)
        lists.place 0 properties.now) }
{
    for (index, property) in properties.iter().enumerate() {
        find_in_list(findings, check, lists, subject, index, property)?;
    }
    Ok(())
}

// An alias, in the tree of the first node.
fn alias_fault_in<'t>(survey: &Survey<'_>, property: &'t Property) -> Option<Fault<'t>>
    ensures { result ≡ alias_fault_in survey.now property.now }
{
    match survey.node(0) {
        None => None,
        Some(root) => alias_fault(root, property),
    }
}

#[inline(never)]
fn find_aliases<'t>(
    findings: &mut Vec<Finding<'t>>,
    check: usize,
    survey: &Survey<'t>,
    properties: &'t [Property],
    place: usize,
) -> Result<(), AllocError>
    ensures { OnOk result (findings.new.items
        ≡ findings.old.items ++ found_aliases check survey.now place properties.now) }
{
    for property in properties {
        add(findings, check, place, alias_fault_in(survey, property))?;
    }
    Ok(())
}

// Whether a check of these nodes looks at one.
#[inline(always)]
fn is_among(here: &Here<'_>, among: Among) -> bool
    ensures { result ≡ is_among among here.now }
{
    match among {
        Among::All => true,
        Among::With(name) => has(here.node(), name),
        Among::WithEither(name, other) => has(here.node(), name) || has(here.node(), other),
        Among::Below(bus) => here.is_below(bus),
        Among::Part(kind) => is_of(here, kind),
        Among::Named(name) => is_named(here.node(), name),
        Among::Parents => !children(here.node()).is_empty(),
        Among::WithUnit => here.has_unit(),
    }
}

// What it finds in a node: in the loops themselves, of which each check goes through one.
#[inline(always)]
fn find_here<'t>(
    findings: &mut Vec<Finding<'t>>,
    check: usize,
    finds: Finds,
    subject: Subject<'_, 't>,
    here: &Here<'t>,
    place: usize,
) -> Result<(), AllocError>
    ensures { OnOk result (findings.new.items ≡ findings.old.items
        ++ found_here check finds subject.entry.survey.now (option_copied subject.entry.written) place here.now) }
{
    let node = here.node();
    match finds {
        Finds::Nothing | Finds::Units(_) | Finds::Unknown => Ok(()),
        Finds::Node(among, rules) => {
            if !is_among(here, among) {
                return Ok(());
            }
            find_by_rules(findings, check, rules, here, place)
        }
        Finds::Properties(rule) => {
            find_in_properties(findings, check, rule, node.properties(), place)
        }
        Finds::Links(among, rules) => {
            if !is_among(here, among) {
                return Ok(());
            }
            find_by_links(findings, check, rules, subject.survey, here, place)
        }
        Finds::Lists(listed, listing) => {
            if !has_lists(here, listed) {
                return Ok(());
            }
            let lists = Lists {
                listed,
                listing,
                place,
            };
            find_in_lists(findings, check, lists, subject, node.properties())
        }
        Finds::Aliases => {
            if !is_named(node, b"aliases") {
                return Ok(());
            }
            find_aliases(findings, check, subject.survey, node.properties(), place)
        }
    }
}

// What a check finds that asks for names of these classes.
#[inline(never)]
fn find_with<'t>(
    findings: &mut Vec<Finding<'t>>,
    check: usize,
    finds: Finds,
    classes: Classes,
    subject: Subject<'_, 't>,
    nodes: &[Placed<'t>],
) -> Result<(), AllocError>
    requires { classes_of finds ≡ Some classes }
    ensures { OnOk result (findings.new.items ≡ findings.old.items
        ++ found_from check finds subject.entry.survey.now (option_copied subject.entry.written) 0 nodes.now) }
{
    let mut place = next_with(nodes, 0, classes);
    while place < nodes.len() {
        let here = subject.survey.here(&nodes[place]);
        find_here(findings, check, finds, subject, &here, place)?;
        place = next_with(nodes, place + 1, classes);
    }
    Ok(())
}

fn find_at<'t>(
    findings: &mut Vec<Finding<'t>>,
    check: usize,
    finds: Finds,
    subject: Subject<'_, 't>,
    placed: &Placed<'t>,
    place: usize,
) -> Result<(), AllocError>
    ensures { OnOk result (findings.new.items ≡ findings.old.items
        ++ found_here check finds subject.entry.survey.now (option_copied subject.entry.written) place
        (here_of subject.entry.survey.now placed.now)) }
{
    if !may_find(subject.survey, placed, finds) {
        return Ok(());
    }
    find_here(
        findings,
        check,
        finds,
        subject,
        &subject.survey.here(placed),
        place,
    )
}

// What any check finds, node by node.
#[inline(never)]
fn find_each<'t>(
    findings: &mut Vec<Finding<'t>>,
    check: usize,
    finds: Finds,
    subject: Subject<'_, 't>,
    nodes: &[Placed<'t>],
) -> Result<(), AllocError>
    ensures { OnOk result (findings.new.items ≡ findings.old.items
        ++ found_from check finds subject.entry.survey.now (option_copied subject.entry.written) 0 nodes.now) }
{
    for (place, placed) in nodes.iter().enumerate() {
        find_at(findings, check, finds, subject, placed, place)?;
    }
    Ok(())
}

fn find_in<'t>(
    findings: &mut Vec<Finding<'t>>,
    check: usize,
    finds: Finds,
    subject: Subject<'_, 't>,
    nodes: &[Placed<'t>],
) -> Result<(), AllocError>
    ensures { OnOk result (findings.new.items ≡ findings.old.items
        ++ found_from check finds subject.entry.survey.now (option_copied subject.entry.written) 0 nodes.now) }
{
    if finds_nothing(finds) {
        return Ok(());
    }
    match classes_of(finds) {
        Some(classes) => find_with(findings, check, finds, classes, subject, nodes),
        None => find_each(findings, check, finds, subject, nodes),
    }
}

/// Puts what a check at this place of the table finds last: node by node in preorder, in each node rule by rule or property by property.
pub fn find<'t>(
    findings: &mut Vec<Finding<'t>>,
    check: usize,
    finds: Finds,
    subject: Subject<'_, 't>,
) -> Result<(), AllocError>
    ensures { OnOk result (findings.new.items ≡ findings.old.items
        ++ found check finds subject.entry.survey.now (option_copied subject.entry.written)) }
{
    find_in(findings, check, finds, subject, subject.survey.as_slice())
}
