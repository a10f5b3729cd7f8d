//! The mistakes that `check` tells, by its options: which they are, dtc 1.6.1 says of the same source.

use crate::runs::{Files, Row, rows_end};

const FILES: Files = &[
    (
        "board.dts",
        b"/dts-v1/;\n/ {\n\tcompatible = \"b\";\n\t#address-cells = <1>;\n\t#size-cells = <1>;\n\tuart { reg = <1 1>; };\n};\n",
    ),
    ("bad.dts", b"/dts-v1/;\n/ {\n\tp: a = <&nope>;\n};\n"),
    ("bad.known", b"b\tcompatible\nno tab\n"),
    ("over.dts", b"/dts-v1/;\n/include/ \"root.dtsi\"\n"),
    ("short.dtb", b"\xd0\x0d\xfe\xed"),
];

const ROWS: &[Row] = &[
    (
        &["dtman", "check", "board.dts"],
        0,
        "board.dts:6.2-6: Warning (unit_address_vs_reg): /uart: has reg or ranges, but no unit address\n",
        "",
    ),
    (
        &["dtman", "check", "--dtc", "board.dts"],
        0,
        "board.dts:6.2-6: Warning (unit_address_vs_reg): /uart: has reg or ranges, but no unit address\n",
        "",
    ),
    (
        &["dtman", "check", "board.dts", "board.dts"],
        0,
        "board.dts:6.2-6: Warning (unit_address_vs_reg): /uart: has reg or ranges, but no unit address\nboard.dts:6.2-6: Warning (unit_address_vs_reg): /uart: has reg or ranges, but no unit address\n",
        "",
    ),
    (
        &["dtman", "check", "board.dts", "--json"],
        0,
        "{\"file\":\"board.dts\",\"line\":6,\"column\":2,\"end\":6,\"severity\":\"warning\",\"check\":\"unit_address_vs_reg\",\"path\":\"/uart\",\"message\":\"has reg or ranges, but no unit address\"}\n",
        "",
    ),
    (
        &["dtman", "--json", "check", "board.dts"],
        0,
        "{\"file\":\"board.dts\",\"line\":6,\"column\":2,\"end\":6,\"severity\":\"warning\",\"check\":\"unit_address_vs_reg\",\"path\":\"/uart\",\"message\":\"has reg or ranges, but no unit address\"}\n",
        "",
    ),
    (
        &["dtman", "check", "-E", "unit_address_vs_reg", "board.dts"],
        1,
        "board.dts:6.2-6: ERROR (unit_address_vs_reg): /uart: has reg or ranges, but no unit address\n",
        "",
    ),
    (
        &["dtman", "check", "-Wno-unit_address_vs_reg", "board.dts"],
        0,
        "",
        "",
    ),
    (&["dtman", "check", "-q", "board.dts"], 0, "", ""),
    (
        &[
            "dtman",
            "check",
            "-E",
            "unit_address_vs_reg",
            "-q",
            "board.dts",
        ],
        1,
        "board.dts:6.2-6: ERROR (unit_address_vs_reg): /uart: has reg or ranges, but no unit address\n",
        "",
    ),
    (
        &[
            "dtman",
            "check",
            "-E",
            "unit_address_vs_reg",
            "-qq",
            "board.dts",
        ],
        1,
        "",
        "",
    ),
    (
        &["dtman", "check", "-W", "unit_address_vs_rg", "board.dts"],
        2,
        "",
        "error: no check has the name unit_address_vs_rg; did you mean unit_address_vs_reg?\n",
    ),
    (
        &["dtman", "check", "-E", "no-all", "board.dts"],
        2,
        "",
        "error: no check has the name all\n",
    ),
    (
        &["dtman", "check", "-W", "unknown_property", "board.dts"],
        2,
        "",
        "error: unknown_property: wants --known\n",
    ),
    (
        &["dtman", "check", "--learn", "board.dts"],
        0,
        "b\t#address-cells\nb\t#size-cells\nb\tcompatible\n",
        "",
    ),
    (
        &["dtman", "check", "--known", "bad.known", "board.dts"],
        1,
        "",
        "error 50 BadLine line 2\n",
    ),
    (
        &["dtman", "check", "-v", "--known", "bad.known", "board.dts"],
        1,
        "",
        "error 50 BadLine line 2\nbad.known:2:1: the line has no lawful form\n  |\n2 | no tab\n  | ^^^^^^\n  = a line is a `compatible`, a tab and a property\n",
    ),
    (
        &["dtman", "check", "bad.dts"],
        1,
        "",
        "error 20 UnknownLabel\n",
    ),
    (
        &["dtman", "check", "-v", "bad.dts"],
        1,
        "",
        "error 20 UnknownLabel\nbad.dts:3:10: no node has the label `nope`\n  |\n3 | \tp: a = <&nope>;\n  | \t        ^^^^^\n  = in /, property a\n",
    ),
    (
        &["dtman", "check", "bad.dts", "--json"],
        1,
        "",
        "{\"file\":\"bad.dts\",\"line\":3,\"column\":10,\"end\":15,\"severity\":\"error\",\"number\":20,\"name\":\"UnknownLabel\",\"path\":\"/\",\"property\":\"a\",\"message\":\"no node has the label `nope`\"}\n",
    ),
    (
        &["dtman", "check", "short.dtb"],
        1,
        "",
        "error 30 Truncated\n",
    ),
    (
        &["dtman", "check", "bad.dts", "board.dts", "short.dtb"],
        1,
        "board.dts:6.2-6: Warning (unit_address_vs_reg): /uart: has reg or ranges, but no unit address\n",
        "error 20 UnknownLabel bad.dts\nerror 30 Truncated short.dtb\n",
    ),
    (
        &["dtman", "check", "nix.dts", "bad.dts"],
        3,
        "",
        "error 80 CannotRead nix.dts\nerror 20 UnknownLabel bad.dts\n",
    ),
    (
        &["dtman", "check", "-v", "short.dtb", "bad.dts"],
        1,
        "",
        "error 30 Truncated\nshort.dtb:0x4: the blob is cut\n = wanted is a header of 40 bytes\nerror 20 UnknownLabel\nbad.dts:3:10: no node has the label `nope`\n  |\n3 | \tp: a = <&nope>;\n  | \t        ^^^^^\n  = in /, property a\n",
    ),
    (
        &["dtman", "check", "nix.dts"],
        3,
        "",
        "error 80 CannotRead nix.dts\n",
    ),
    (
        &["dtman", "check", "over.dts"],
        3,
        "",
        "error 80 CannotRead root.dtsi\n",
    ),
];

#[test]
fn tells_mistakes(rt: HostRuntime) {
    rows_end(&rt, FILES, ROWS);
}
