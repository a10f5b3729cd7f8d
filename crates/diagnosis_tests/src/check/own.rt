//! Rows of the checks that dtc doesn't have, in the form of the other rows.

use crate::check::checks::{placed, tree_of};
use crate::check::telling::{Lines, told};
use dtman_check::Shape;
use dtman_check::table::{BadReference, Kind, Reference, Selection, is_near};
use std::alloc::Global;
use std::hash::RandomState;
use std::process::Abort;

/// Of `lost_ranges`: `docs/model/checks.md` has them in words.
const LOST: &[&str] = &[
    "lost_ranges | #address-cells = <1>; #size-cells = <1>; soc { #address-cells = <1>; #size-cells = <1>; a@1 { compatible = \"x\"; reg = <1 1>; }; }; | /soc",
    "lost_ranges | #address-cells = <1>; #size-cells = <1>; soc { #address-cells = <1>; #size-cells = <1>; ranges; a@1 { compatible = \"x\"; reg = <1 1>; }; }; | -",
    "lost_ranges | #address-cells = <1>; #size-cells = <1>; soc { #address-cells = <1>; #size-cells = <0>; a@1 { compatible = \"x\"; reg = <1>; }; }; | -",
    "lost_ranges | #address-cells = <1>; #size-cells = <1>; soc { #address-cells = <1>; #size-cells = <1>; a@1 { reg = <1 1>; }; b { compatible = \"x\"; }; c { compatible = \"x\"; reg; }; }; | -",
    "lost_ranges | #address-cells = <1>; #size-cells = <1>; soc { compatible = \"x\", \"syscon\"; #address-cells = <1>; #size-cells = <1>; a@1 { compatible = \"x\"; reg = <1 1>; }; }; | -",
    "lost_ranges | #address-cells = <1>; #size-cells = <1>; soc { compatible = \"simple-mfd\"; #address-cells = <1>; #size-cells = <1>; a@1 { compatible = \"x\"; reg = <1 1>; }; }; | -",
    "lost_ranges | soc { b { #address-cells = <1>; #size-cells = <1>; a@1 { compatible = \"x\"; reg = <1 1>; }; }; }; | -",
    "lost_ranges | soc { ranges; b { #address-cells = <1>; #size-cells = <1>; a@1 { compatible = \"x\"; reg = <1 1>; }; }; }; | /soc/b",
    "lost_ranges | #address-cells = <1>; #size-cells = <1>; a@1 { compatible = \"x\"; reg = <1 1>; }; | -",
];

/// What is known: two kinds of nodes.
const KNOWN: &str = "arm,pl011 arm,primecell\tclocks\n\
arm,pl011 arm,primecell\tcompatible\n\
arm,pl011 arm,primecell\treg\n\
x,y\tcompatible\n\
x,y\tclock\n";

/// A node's properties beside its `compatible`, and which property is told: `-` for none.
const UNKNOWN: &[&str] = &[
    "compatible = \"arm,pl011\", \"arm,primecell\"; clocksx; | /a:clocksx: clocks",
    "compatible = \"arm,pl011\", \"arm,primecell\"; clcks; | /a:clcks: clocks",
    "compatible = \"arm,pl011\", \"arm,primecell\"; cloks-; | /a:cloks-: clocks",
    "compatible = \"arm,pl011\", \"arm,primecell\"; colcks; | /a:colcks: clocks",
    "compatible = \"arm,pl011\", \"arm,primecell\"; clocksxyz; | -",
    "compatible = \"arm,pl011\", \"arm,primecell\"; clocks; | -",
    "compatible = \"arm,pl011\", \"arm,primecell\"; resets; | -",
    "compatible = \"x,y\"; clocks; clock; | /a:clocks: clock",
    "compatible = \"arm,pl011\"; clocksx; | -",
    "clocksx; | -",
];

#[test]
fn rows_of_lost_ranges(rt: HostRuntime) {
    let hasher = RandomState::new(&rt).expect(&rt, "a seed");
    placed(&rt, rt.alloc(), hasher, LOST);
}

fn answer(rt: &impl Abort, alloc: Global, hasher: RandomState, properties: &str) -> Vec<u8> {
    let source = format!(in alloc; "a {{ {properties} }};").expect(rt, "memory");
    let tree = tree_of(rt, alloc, hasher, source.as_str());
    let reference = Reference::read(alloc, KNOWN.as_bytes()).expect(rt, "a reference set");
    let mut selection = Selection::usual(alloc).expect(rt, "memory");
    selection.ask_unknown(Kind::Warning).expect(rt, "memory");
    let lines = Lines {
        file: b"x",
        source: None,
        shape: Shape::Plain,
        quiet: 0,
    };
    told(rt, alloc, hasher, &tree, &selection, &reference, lines).text
}

fn is_known(rt: &impl Abort, alloc: Global, hasher: RandomState, row: &str) {
    let (properties, wanted) = row.split_once(" | ").expect(rt, "a row");
    let line = answer(rt, alloc, hasher, properties);
    let line = std::str::from_utf8(line.as_slice()).unwrap_or("?");
    match wanted.split_once(": ") {
        None => assert_eq!(rt; line, "", "{row}"),
        Some((place, known)) => {
            let wanted = format!(in alloc;
                "x: Warning (unknown_property): {place}: no node of this compatible has it in the reference set; known is {known}\n"
            ).expect(rt, "memory");
            assert_eq!(rt; line, wanted.as_str());
        }
    }
}

#[test]
fn rows_of_unknown_properties(rt: HostRuntime) {
    let hasher = RandomState::new(&rt).expect(&rt, "a seed");
    for row in UNKNOWN {
        is_known(&rt, rt.alloc(), hasher, *row);
    }
}

/// Two names, and whether two letters or less are between them.
const NAMES: &[(&str, &str, bool)] = &[
    ("reg", "reg", true),
    ("reg", "regs", true),
    ("regs", "reg", true),
    ("reg", "egs", true),
    ("clocks", "colcks", true),
    ("kitten", "mitte", true),
    ("kitten", "sitting", false),
    ("", "ab", true),
    ("", "abc", false),
    ("abc", "", false),
];

#[test]
fn letters_between_names(rt: HostRuntime) {
    for (one, other, wanted) in NAMES {
        assert!(&rt;
            is_near(one.as_bytes(), other.as_bytes()) == *wanted,
            "{one} {other}"
        );
    }
}

#[test]
fn lines_that_are_no_reference_set(rt: HostRuntime) {
    let bad = Reference::read(rt.alloc(), b"a\tb\n\nc d\n");
    assert!(rt; matches!(bad, Err(BadReference::Line(3))));
}
