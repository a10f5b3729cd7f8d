//! Checks, row by row.

use crate::check::buses::BUSES;
use crate::check::links::LINKS;
use crate::check::nodes::NODES;
use dt_build::build;
use dt_check::{Message, Survey};
use dt_source::parse;
use dt_text::lexeme::Language;
use dt_tree::Tree;
use dtman_check::path_at;
use dtman_check::table::{
    Finding, Kind, Least, Reference, Report, Selection, Subject, check_at, run_checks,
};
use std::alloc::Global;
use std::hash::RandomState;
use std::process::Abort;

pub fn tree_of(rt: &impl Abort, alloc: Global, hasher: RandomState, source: &str) -> Tree {
    let text = format!(in alloc; "/dts-v1/; / {{ {source} }};").expect(rt, "memory");
    let source = parse(alloc, text.as_str().as_bytes(), Language::Profile).expect(rt, "a source");
    build(alloc, hasher, &source, false).expect(rt, "a tree")
}

fn put(rt: &impl Abort, text: &mut Vec<u8>, part: &[u8]) {
    text.extend_from_slice(part).expect(rt, "memory");
}

fn name_of(check: usize) -> &'static str {
    match check_at(check) {
        Some(row) => row.name,
        None => "",
    }
}

fn put_place(
    rt: &impl Abort,
    alloc: Global,
    text: &mut Vec<u8>,
    survey: &Survey<'_>,
    finding: &Finding<'_>,
) {
    if !text.is_empty() {
        put(rt, text, b" ");
    }
    if let Message::Prerequisite(check) = finding.message {
        put(rt, text, b"!");
        put(rt, text, name_of(check).as_bytes());
    }
    if let Some(node) = finding.node {
        let path = path_at(alloc, survey, node).expect(rt, "memory");
        put(rt, text, path.as_slice());
    }
    if let Some(property) = finding.property {
        put(rt, text, b":");
        put(rt, text, property);
    }
}

// A tree that is no source's.
fn subject_of<'a, 't>(
    alloc: Global,
    survey: &'a Survey<'t>,
    reference: &'a Reference<'a>,
) -> Subject<'a, 't> {
    Subject {
        alloc,
        survey,
        written: None,
        reference,
    }
}

/// What the checks tell of a tree.
fn report_of<'t>(
    rt: &impl Abort,
    alloc: Global,
    survey: &Survey<'t>,
    reference: &Reference<'_>,
    selection: &Selection,
) -> Report<'t> {
    let subject = subject_of(alloc, survey, reference);
    run_checks(subject, selection, Least::Warning).expect(rt, "memory")
}

/// Where a check tells something of a tree.
fn places(
    rt: &impl Abort,
    alloc: Global,
    hasher: RandomState,
    tree: &Tree,
    check: &str,
) -> Vec<u8> {
    let mut selection = Selection::usual(alloc).expect(rt, "memory");
    let known = selection.apply(Kind::Warning, check).expect(rt, "memory");
    assert!(rt; known, "{check}");
    let survey = Survey::of(alloc, hasher, tree).expect(rt, "memory");
    let reference = Reference::new(alloc);
    let report = report_of(rt, alloc, &survey, &reference, &selection);
    let mut text = Vec::new(alloc);
    for finding in &report.findings {
        if name_of(finding.check) == check {
            put_place(rt, alloc, &mut text, &survey, finding);
        }
    }
    if text.is_empty() {
        put(rt, &mut text, b"-");
    }
    text
}

fn is_told(rt: &impl Abort, alloc: Global, hasher: RandomState, row: &str) {
    let (check, rest) = row.split_once(" | ").expect(rt, "a check");
    let (source, wanted) = rest.split_once(" | ").expect(rt, "a source");
    let tree = tree_of(rt, alloc, hasher, source);
    let told = places(rt, alloc, hasher, &tree, check);
    assert_eq!(rt; told.as_slice(), wanted.as_bytes(), "{row}");
}

/// Each row is told as it says.
pub fn placed(rt: &impl Abort, alloc: Global, hasher: RandomState, rows: &[&str]) {
    for row in rows {
        is_told(rt, alloc, hasher, *row);
    }
}

#[test]
fn rows_of_nodes(rt: HostRuntime) {
    let hasher = RandomState::new(&rt).expect(&rt, "a seed");
    placed(&rt, rt.alloc(), hasher, NODES);
}

#[test]
fn rows_of_buses(rt: HostRuntime) {
    let hasher = RandomState::new(&rt).expect(&rt, "a seed");
    placed(&rt, rt.alloc(), hasher, BUSES);
}

#[test]
fn rows_of_links(rt: HostRuntime) {
    let hasher = RandomState::new(&rt).expect(&rt, "a seed");
    placed(&rt, rt.alloc(), hasher, LINKS);
}
