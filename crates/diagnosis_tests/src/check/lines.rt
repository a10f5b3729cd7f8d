//! Lines of findings, by the options that ask for them.

use crate::check::checks::tree_of;
use crate::check::telling::{Lines, told};
use dtman_check::table::{Kind, Reference, Selection};
use dtman_check::{Answer, Shape};
use std::alloc::Global;
use std::hash::RandomState;
use std::process::Abort;

/// A row: the options in order (`W` or `E` in front of each word), the shape, how quiet, the lines, whether one is an error.
struct Row {
    options: &'static [&'static str],
    shape: Shape,
    quiet: usize,
    wanted: &'static str,
    failed: bool,
}

const SOURCE: &str = "#address-cells = <1>; #size-cells = <1>; a@1 { reg = <1>; };";

const WARNING: &str =
    "x: Warning (reg_format): /a@1:reg: has 4 bytes; #address-cells 1 and #size-cells 1 of / want a multiple of 8\n\
x: Warning (pci_device_reg): Failed prerequisite 'reg_format'\n\
x: Warning (pci_device_bus_num): Failed prerequisite 'reg_format'\n\
x: Warning (simple_bus_reg): Failed prerequisite 'reg_format'\n\
x: Warning (i2c_bus_reg): Failed prerequisite 'reg_format'\n\
x: Warning (spi_bus_reg): Failed prerequisite 'reg_format'\n";

const ERROR: &str =
    "x: ERROR (reg_format): /a@1:reg: has 4 bytes; #address-cells 1 and #size-cells 1 of / want a multiple of 8\n";

const JSON: &str =
    "{\"file\":\"x\",\"severity\":\"error\",\"check\":\"reg_format\",\"path\":\"/a@1\",\"property\":\"reg\",\"message\":\"has 4 bytes; #address-cells 1 and #size-cells 1 of / want a multiple of 8\"}\n";

const ROWS: &[Row] = &[
    Row {
        options: &[],
        shape: Shape::Plain,
        quiet: 0,
        wanted: WARNING,
        failed: false,
    },
    Row {
        options: &[],
        shape: Shape::Plain,
        quiet: 1,
        wanted: "",
        failed: false,
    },
    Row {
        options: &["Wno-reg_format"],
        shape: Shape::Plain,
        quiet: 0,
        wanted: "",
        failed: false,
    },
    Row {
        options: &["Wno-addr_size_cells"],
        shape: Shape::Plain,
        quiet: 0,
        wanted: "",
        failed: false,
    },
    Row {
        options: &["Ereg_format"],
        shape: Shape::Plain,
        quiet: 1,
        wanted: ERROR,
        failed: true,
    },
    Row {
        options: &["Ereg_format"],
        shape: Shape::Plain,
        quiet: 2,
        wanted: "",
        failed: true,
    },
    Row {
        options: &["Ereg_format", "Eno-reg_format"],
        shape: Shape::Plain,
        quiet: 0,
        wanted: WARNING,
        failed: false,
    },
    Row {
        options: &["Ereg_format"],
        shape: Shape::Json,
        quiet: 0,
        wanted: JSON,
        failed: true,
    },
];

fn select(rt: &impl Abort, selection: &mut Selection, option: &str) {
    let known = match option.strip_prefix("E") {
        Some(word) => selection.apply(Kind::Error, word).expect(rt, "memory"),
        None => match option.strip_prefix("W") {
            Some(word) => selection.apply(Kind::Warning, word).expect(rt, "memory"),
            None => false,
        },
    };
    assert!(rt; known, "{option}");
}

fn selected(rt: &impl Abort, alloc: Global, options: &[&str]) -> Selection {
    let mut selection = Selection::usual(alloc).expect(rt, "memory");
    for option in options {
        select(rt, &mut selection, *option);
    }
    selection
}

fn answer(rt: &impl Abort, alloc: Global, hasher: RandomState, row: &Row) -> Answer {
    let tree = tree_of(rt, alloc, hasher, SOURCE);
    let selection = selected(rt, alloc, row.options);
    let reference = Reference::new(alloc);
    let lines = Lines {
        file: b"x",
        source: None,
        shape: row.shape,
        quiet: row.quiet,
    };
    told(rt, alloc, hasher, &tree, &selection, &reference, lines)
}

fn is_answered(rt: &impl Abort, alloc: Global, hasher: RandomState, row: &Row) {
    let answer = answer(rt, alloc, hasher, row);
    assert_eq!(rt; answer.text.as_slice(), row.wanted.as_bytes());
    assert_eq!(rt; answer.failed, row.failed);
}

#[test]
fn lines_by_options(rt: HostRuntime) {
    let hasher = RandomState::new(&rt).expect(&rt, "a seed");
    for row in ROWS {
        is_answered(&rt, rt.alloc(), hasher, row);
    }
}

#[test]
fn names_that_no_check_has(rt: HostRuntime) {
    let mut selection = Selection::usual(rt.alloc()).expect(&rt, "memory");
    for (word, known) in [
        ("no_such_check", false),
        ("no-", false),
        ("unknown_property", false),
        ("no_reg_format", true),
        ("lost_ranges", true),
    ] {
        let applied = selection.apply(Kind::Warning, word).expect(&rt, "memory");
        assert!(rt; applied == known, "{word}");
    }
}
