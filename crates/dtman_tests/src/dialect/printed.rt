//! What `-O dts` prints of a source, as dtc 1.6.1 does: labels stand, and values are as they were written.

use crate::dialect::forms::{headed, source_and_f};
use crate::runs::{Left, left_by};
use crate::shelf::Shelf;
use std::alloc::Global;
use std::hash::RandomState;
use std::process::Abort;
use std::thread::Threads;

/// A source behind `/dts-v1/;`, and the text behind the root's line.
type Row = (&'static str, &'static str);

const ROWS: &[Row] = &[
    ("/ { };", "};\n"),
    (
        "/ { x = <1 2>, <3>; y = \"a\", \"b\"; z = [01 02]; e; n = <>; };",
        "\tx = <0x01 0x02>, <0x03>;\n\ty = \"a\", \"b\";\n\tz = [01 02];\n\te;\n\tn;\n};\n",
    ),
    (
        "/ { x = /bits/ 16 <1 2>; y = /bits/ 64 <1>; z = /bits/ 8 <1 (2 + 1)>; w = <(1 > 2) 'a'>; };",
        "\tx = /bits/ 16 <0x01 0x02>;\n\ty = /bits/ 64 <0x01>;\n\tz = [01 03];\n\tw = <0x00 0x61>;\n};\n",
    ),
    // labels of nodes, of which the last body's come first, and of properties and places
    (
        "/ { l: m: a { p: q; }; b { s = l2: \"q\" l3:; c = <l4: 1 l5: 2 l6:>; }; }; n: &l { };",
        "\n\tn: l: m: a {\n\t\tp: q;\n\t};\n\n\tb {\n\t\ts = l2: \"q\" l3:;\n\t\tc = < l4:0x01 l5:0x02> l6:;\n\t};\n};\n",
    ),
    // dtc puts a blank before a reference that isn't the value's first
    (
        "/ { x = <1 &a 2>, <&a>; y = &a, \"t\"; z = \"t\", &a; a: b { phandle = <7>; }; };",
        "\tx = <0x01 0x07 0x02>, < 0x07>;\n\ty = \"/b\", \"t\";\n\tz = \"t\",  \"/b\";\n\n\ta: b {\n\t\tphandle = <0x07>;\n\t};\n};\n",
    ),
    // the last definition of a property tells how it is written
    (
        "/ { x = <1>, <2>; x2 = \"a\\0b\"; }; / { x = <3 4>; };",
        "\tx = <0x03 0x04>;\n\tx2 = \"a\\0b\";\n};\n",
    ),
    (
        "/ { x = \"\\x01\\x7f\\xe9\\t\"; i = /incbin/(\"f\"); j = \"\", [00]; };",
        "\tx = \"\\x01\\x7f\\xffffffe9\\t\";\n\ti = [31 32];\n\tj = \"\", [00];\n};\n",
    ),
];

// What stands before the first property of the root.
fn with_head(rt: &impl Abort, alloc: Global, text: &str) -> String {
    format!(in alloc; "/dts-v1/;\n\n/ {{\n{text}").expect(rt, "memory")
}

fn prints<R: Abort + AllocGlobal + Threads + Sync>(rt: &R, hasher: RandomState, row: &Row) {
    let alloc = rt.alloc();
    let source = headed(rt, alloc, row.0);
    let wanted = with_head(rt, alloc, row.1);
    let files = source_and_f(source.as_bytes());
    let mut shelf = Shelf::new(alloc, files.as_slice(), hasher);
    let Left { status, text } = left_by(rt, &["dtc", "-qq", "-O", "dts", "a.dts"], &mut shelf);
    assert_eq!(rt; status, 0);
    assert_eq!(rt; text.as_slice(), wanted.as_bytes());
}

#[test]
fn sources_are_printed_as_they_were_written(rt: HostRuntime) {
    let hasher = RandomState::new(&rt).expect(&rt, "a seed");
    for row in ROWS {
        prints(&rt, hasher, row);
    }
}
