//! Places of findings in the user's files: lines as dtc 1.6.1 tells them, columns of the name alone.

use crate::check::telling::{Lines, told};
use dt_build::{Built, build_dtc_within};
use dt_source::parse;
use dt_text::lexeme::Language;
use dtman_check::table::{Kind, Reference, Selection};
use dtman_check::{Answer, Shape, Source};
use std::alloc::Global;
use std::hash::RandomState;
use std::process::Abort;

/// No source here makes a longer blob.
const MAX_BLOB_LEN: usize = 4096;

// Definitions by an extension, in another file by a line marker, and a property in two of them.
const TEXT: &str = "/dts-v1/;\n\
/ {\n\
#address-cells = <1>; #size-cells = <1>;\n\
soc: soc {\n\
#address-cells = <1>; #size-cells = <1>; ranges;\n\
a: a@1 { reg = <1 1>; };\n\
b@2 { reg = <2 1>; };\n\
};\n\
};\n\
&a { reg = <1>; };\n\
# 40 \"board.dtsi\"\n\
&soc {\n\
b@2 { reg = <1 2 3>; };\n\
c { reg = <1 1>; };\n\
};\n\
";

const PLAIN: &str =
    "x.dts:10.6-9: Warning (reg_format): /soc/a@1:reg: has 4 bytes; #address-cells 1 and #size-cells 1 of /soc (x.dts:4) want a multiple of 8\n\
board.dtsi:41.7-10: Warning (reg_format): /soc/b@2:reg: has 12 bytes; #address-cells 1 and #size-cells 1 of /soc (x.dts:4) want a multiple of 8\n\
board.dtsi:42.1-2: Warning (unit_address_vs_reg): /soc/c: has reg or ranges, but no unit address\n";

const JSON: &str =
    "{\"file\":\"board.dtsi\",\"line\":42,\"column\":1,\"end\":2,\"severity\":\"warning\",\"check\":\"unit_address_vs_reg\",\"path\":\"/soc/c\",\"message\":\"has reg or ranges, but no unit address\"}\n";

// What is told of the root stands in another node.
const CHOSEN: &str = "/dts-v1/;\n\
/ {\n\
chosen {\n\
interrupt-controller = <1>;\n\
};\n\
};\n\
";

const CHOSEN_PLAIN: &str =
    "x.dts:4.1-21: Warning (obsolete_chosen_interrupt_controller): /:interrupt-controller: /chosen has it, as nothing reads any more\n";

/// A source, whether a check's lines are asked for, and their shape.
struct Row {
    text: &'static str,
    without: &'static [&'static str],
    shape: Shape,
    wanted: &'static str,
}

const ROWS: &[Row] = &[
    Row {
        text: TEXT,
        without: &[
            "no-pci_device_reg",
            "no-pci_device_bus_num",
            "no-simple_bus_reg",
            "no-i2c_bus_reg",
            "no-spi_bus_reg",
        ],
        shape: Shape::Plain,
        wanted: PLAIN,
    },
    Row {
        text: TEXT,
        without: &["no-reg_format"],
        shape: Shape::Json,
        wanted: JSON,
    },
    Row {
        text: CHOSEN,
        without: &["no-interrupt_provider"],
        shape: Shape::Plain,
        wanted: CHOSEN_PLAIN,
    },
];

fn answer(rt: &impl Abort, alloc: Global, hasher: RandomState, row: &Row) -> Answer {
    let source = parse(alloc, row.text.as_bytes(), Language::Dtc).expect(rt, "a source");
    let built = build_dtc_within(alloc, hasher, &source, false, MAX_BLOB_LEN).expect(rt, "a tree");
    let Built { tree, places } = built.expect(rt, "a short one");
    let mut selection = Selection::usual(alloc).expect(rt, "memory");
    for word in row.without {
        let known = selection.apply(Kind::Warning, *word).expect(rt, "memory");
        assert!(rt; known, "{word}");
    }
    let reference = Reference::new(alloc);
    let lines = Lines {
        file: b"x.dts",
        source: Some(Source {
            text: row.text.as_bytes(),
            places: &places,
        }),
        shape: row.shape,
        quiet: 0,
    };
    told(rt, alloc, hasher, &tree, &selection, &reference, lines)
}

fn is_placed(rt: &impl Abort, alloc: Global, hasher: RandomState, row: &Row) {
    let answer = answer(rt, alloc, hasher, row);
    let text = std::str::from_utf8(answer.text.as_slice()).unwrap_or("?");
    assert_eq!(rt; text, row.wanted);
}

#[test]
fn places_of_findings(rt: HostRuntime) {
    let hasher = RandomState::new(&rt).expect(&rt, "a seed");
    for row in ROWS {
        is_placed(&rt, rt.alloc(), hasher, row);
    }
}
