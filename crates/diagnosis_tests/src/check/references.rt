//! Phandles in lists that are no references in the source: rows as dtc 1.6.1 tells them.

use crate::check::telling::{Lines, told};
use dt_build::{Built, build_dtc_within};
use dt_source::parse;
use dt_text::lexeme::Language;
use dtman_check::table::{Reference, Selection};
use dtman_check::{Shape, Source};
use std::alloc::Global;
use std::hash::RandomState;
use std::process::Abort;

/// No source here makes a longer blob.
const MAX_BLOB_LEN: usize = 4096;

/// What stands before each row: phandles 1 and 2, of one cell and of none; lines of two cells.
const FRONT: &str = "a: a { #clock-cells = <1>; phandle = <1>; #gpio-cells = <2>; }; \
    b: b { #clock-cells = <0>; phandle = <2>; };";

/// A property of `/u`, and what is told of it: words behind `/u` or `/u:NAME`.
const ROWS: &[(&str, &str)] = &[
    ("clocks = <&a 7>, <&b>;", ""),
    ("clocks = <&{/b}>;", ""),
    ("clocks = <0 &b>;", ""),
    (
        "clocks = <1 7 &b>;",
        ":clocks: cell 0 is not a phandle reference\n",
    ),
    (
        "clocks = l: <2>;",
        ":clocks: cell 0 is not a phandle reference\n",
    ),
    (
        "clocks = [00 00 00 02];",
        ":clocks: cell 0 is not a phandle reference\n",
    ),
    (
        "clocks = <0 1 4>;",
        ":clocks: cell 1 is not a phandle reference\n",
    ),
    (
        "clocks = <&a 7>, <2 1 3>;",
        ":clocks: cell 2 is not a phandle reference\n:clocks: cell 3 is not a phandle reference\n",
    ),
    (
        "clocks = <9 1>;",
        ":clocks: cell 0 is not a phandle reference\n:clocks: no node has the phandle in cell 0\n",
    ),
    (
        "foo-gpios = <1 2 3>;",
        ":foo-gpios: cell 0 is not a phandle reference\n",
    ),
];

fn lines_of(rt: &impl Abort, alloc: Global, hasher: RandomState, text: &str) -> Vec<u8> {
    let text = text.as_bytes();
    let source = parse(alloc, text, Language::Dtc).expect(rt, "a source");
    let built = build_dtc_within(alloc, hasher, &source, false, MAX_BLOB_LEN).expect(rt, "a tree");
    let Built { tree, places } = built.expect(rt, "a short one");
    let selection = Selection::usual(alloc).expect(rt, "memory");
    let reference = Reference::new(alloc);
    let lines = Lines {
        file: b"x",
        source: Some(Source {
            text,
            places: &places,
        }),
        shape: Shape::Plain,
        quiet: 0,
    };
    told(rt, alloc, hasher, &tree, &selection, &reference, lines).text
}

// What stands behind the path in each line of a text.
fn put_told(rt: &impl Abort, told: &mut String, line: &str) {
    if let Some((_, words)) = line.split_once("): /u") {
        told.push_str(words).expect(rt, "memory");
        told.push_str("\n").expect(rt, "memory");
    }
}

fn is_told(rt: &impl Abort, alloc: Global, hasher: RandomState, row: (&str, &str)) {
    let (property, wanted) = row;
    let text = format!(in alloc; "/dts-v1/; / {{ {FRONT} u {{ {property} }}; }};").expect(
        rt, "memory",
    );
    let lines = lines_of(rt, alloc, hasher, text.as_str());
    let mut told = String::new(alloc);
    for line in std::str::from_utf8(lines.as_slice())
        .unwrap_or("?")
        .split("\n")
    {
        put_told(rt, &mut told, line);
    }
    assert_eq!(rt; told.as_str(), wanted, "{property}");
}

#[test]
fn phandles_that_are_no_references(rt: HostRuntime) {
    let hasher = RandomState::new(&rt).expect(&rt, "a seed");
    for row in ROWS {
        is_told(&rt, rt.alloc(), hasher, *row);
    }
}
