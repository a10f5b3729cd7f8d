//! What lines tell beside the place and the check: names, paths and what to do.

use crate::check::checks::tree_of;
use crate::check::telling::{Lines, told};
use dtman_check::table::{Reference, Selection};
use dtman_check::{Answer, Shape};
use std::alloc::Global;
use std::hash::RandomState;
use std::process::Abort;

/// Rows: what stands in the root of a source, and a line of what is told of it.
const ROWS: &[&str] = &[
    "k: k { }; u { clocks = <0>, <&k>; }; | x: Warning (clocks_property): /u: cell 1 of clocks refers to /k, which doesn't say #clock-cells",
    "k: k { }; u { a-gpios = <&k>; }; | x: Warning (gpios_property): /u: cell 0 refers to /k, which doesn't say #gpio-cells",
    "aliases { a = \"/no\"; }; | x: Warning (alias_paths): /aliases:a: leads to no node: /no",
    "aliases { a; }; | x: Warning (alias_paths): /aliases:a: leads to no node",
    "n: n { #interrupt-cells = <1>; }; u { interrupt-parent = <&n>; interrupts = <1>; }; v { interrupt-parent = <&n>; interrupts = <1>; }; | x: Warning (interrupts_property): /n: takes no interrupts, by interrupt-controller or interrupt-map, but gets those of /v",
    "i2c { #address-cells = <1>; #size-cells = <0>; a@122 { reg = <0x122>; }; }; | x: Warning (i2c_bus_reg): /i2c/a@122:reg: an address of more than 7 bits: 0x122; one of 10 bits has bit 31 (I2C_TEN_BIT_ADDRESS) set",
    "a { linux,phandle = <7>; }; b { linux,phandle = <7>; }; | x: ERROR (explicit_phandles): /b: the phandle 0x7 is that of /a",
];

fn answer(rt: &impl Abort, alloc: Global, hasher: RandomState, source: &str) -> Answer {
    let tree = tree_of(rt, alloc, hasher, source);
    let selection = Selection::usual(alloc).expect(rt, "memory");
    let reference = Reference::new(alloc);
    let lines = Lines {
        file: b"x",
        source: None,
        shape: Shape::Plain,
        quiet: 0,
    };
    told(rt, alloc, hasher, &tree, &selection, &reference, lines)
}

// Whether this is a line of the text.
fn has_line(text: &[u8], wanted: &[u8]) -> bool {
    text.split(|byte| *byte == b'\n').any(|line| line == wanted)
}

fn is_worded(rt: &impl Abort, alloc: Global, hasher: RandomState, row: &str) {
    let (source, wanted) = row.split_once(" | ").expect(rt, "a line");
    let answer = answer(rt, alloc, hasher, source);
    let text = std::str::from_utf8(answer.text.as_slice()).unwrap_or("?");
    assert!(rt; has_line(text.as_bytes(), wanted.as_bytes()), "{text}");
}

#[test]
fn words_of_findings(rt: HostRuntime) {
    let hasher = RandomState::new(&rt).expect(&rt, "a seed");
    for row in ROWS {
        is_worded(&rt, rt.alloc(), hasher, *row);
    }
}
