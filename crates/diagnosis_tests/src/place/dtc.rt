//! Refusals of sources in dtc's language: where they are by the line markers that inclusion leaves, what they are of, and what else is
//! told.

use super::shown::shows;
use crate::place::refused::{Compiled, refused_by};
use dt_text::lexeme::Language;
use dtman_diagnosis::{diagnose_dtc, dtc_span};
use std::process::Abort;
use std::random::RandomSource;

/// A source, whether it gets symbols, the number by which it is refused, the bytes that are refused, and the lines of that.
struct Row {
    source: &'static str,
    symbols: bool,
    number: u8,
    refused: Option<&'static str>,
    lines: &'static str,
}

const SPELLING: &[Row] = &[
    Row {
        source: "/dts-v1/;\n\n# 1 \"soc.dtsi\"\n/ {\n\ta = 'b';\n};\n\n# 3 \"board.dts\"\n/ { };\n",
        symbols: false,
        number: 10,
        refused: Some("'b'"),
        lines: "error 10 Syntax line 5\nsoc.dtsi:2:6: `'b'` can't stand here\n  |\n2 | \ta = 'b';\n  | \t    ^^^\n  = in /, property a\n  = strings stand in \"\n",
    },
    Row {
        source: "/dts-v1/;\n#line 40 \"cpu.dtsi\"\n/ { a = <'b>; };\n",
        symbols: false,
        number: 10,
        refused: Some("'"),
        lines: "error 10 Syntax line 3\ncpu.dtsi:40:10: what begins here isn't closed\n   |\n40 | / { a = <'b>; };\n   |          ^\n   = in /, property a\n",
    },
    Row {
        source: "/dts-v1/;\n/ { a = /incbin/(\"f\", 1); };\n",
        symbols: false,
        number: 10,
        refused: Some(")"),
        lines: "error 10 Syntax line 2\nboard.dts:2:24: `)` can't stand here\n  |\n2 | / { a = /incbin/(\"f\", 1); };\n  |                        ^\n  = in /, property a\n",
    },
    Row {
        source: "/dts-v1/;\n/ { a = <('a' / ('b' - 'b'))>; };\n",
        symbols: false,
        number: 12,
        refused: Some("/"),
        lines: "error 12 DivideByZero line 2\nboard.dts:2:15: `/` divides by zero\n  |\n2 | / { a = <('a' / ('b' - 'b'))>; };\n  |               ^\n  = in /, property a\n",
    },
    Row {
        source: "/dts-v1/;\n/ { a = \"\\777\\x\"; };\n",
        symbols: false,
        number: 15,
        refused: Some("\\x"),
        lines: "error 15 BadEscape line 2\nboard.dts:2:14: `\\x` is no escape\n  |\n2 | / { a = \"\\777\\x\"; };\n  |              ^^\n  = in /, property a\n",
    },
    Row {
        source: "/dts-v1/;\n# 7 \"deep.dtsi\"\n/ { a = <((((((((((((((((((((((((((((((((((((((((((((((((((((((((((((((((('a')))))))))))))))))))))))))))))))))))))))))))))))))))))))))))))))))>; };\n",
        symbols: false,
        number: 16,
        refused: Some("("),
        lines: "error 16 TooDeep line 3\ndeep.dtsi:7:74: `(` nests deeper than 64\n  |\n7 | / { a = <((((((((((((((((((((((((((((((((((((((((((((((((((((((((((((((((('a')))))))))))))))))))))))))))))))))))))))))))))))))))))))))))))))))>; };\n  |                                                                          ^\n  = in /, property a\n",
    },
];

const MEANING: &[Row] = &[
    Row {
        source: "/dts-v1/;\n\n# 1 \"soc.dtsi\"\n/ {\n\tgpio1: gpio@1 { };\n};\n\n# 3 \"board.dts\"\n/ { hog { g = <&gpio2 'a'>; }; };\n",
        symbols: false,
        number: 20,
        refused: Some("&gpio2"),
        lines: "error 20 UnknownLabel\nboard.dts:3:16: no node has the label `gpio2`\n  |\n3 | / { hog { g = <&gpio2 'a'>; }; };\n  |                ^^^^^^\n  = in /hog, property g\n  = labels spelled alike: gpio1\n",
    },
    Row {
        source: "/dts-v1/;\n&l { };\n/ { l: a { }; };\n",
        symbols: false,
        number: 20,
        refused: Some("&l"),
        lines: "error 20 UnknownLabel\nboard.dts:2:1: no node has the label `l`\n  |\n2 | &l { };\n  | ^^\n  = in /\n",
    },
    Row {
        source: "/dts-v1/;\n/ { l: a { }; };\n/omit-if-no-ref/ &m;\n",
        symbols: false,
        number: 20,
        refused: Some("&m"),
        lines: "error 20 UnknownLabel\nboard.dts:3:18: no node has the label `m`\n  |\n3 | /omit-if-no-ref/ &m;\n  |                  ^^\n  = in /\n",
    },
    Row {
        source: "/dts-v1/;\n/ { l: a { }; };\n/ { /delete-node/ a; a { }; };\n&l { };\n",
        symbols: false,
        number: 20,
        refused: Some("&l"),
        lines: "error 20 UnknownLabel\nboard.dts:4:1: no node has the label `l`\n  |\n4 | &l { };\n  | ^^\n  = in /\n",
    },
    Row {
        source: "/dts-v1/;\n\n# 1 \"soc.dtsi\"\n/ {\n\tl: a { };\n\tl: b { };\n\tc { l: d { }; };\n};\n\n# 3 \"board.dts\"\n/ { /delete-node/ b; };\n",
        symbols: false,
        number: 21,
        refused: Some("l:"),
        lines: "error 21 DuplicateLabel\nsoc.dtsi:4:6: the label `l` is another node's\n  |\n4 | \tc { l: d { }; };\n  | \t    ^^\n  = in /c\n  = the other one stands at soc.dtsi:2:2\n",
    },
    Row {
        source: "/dts-v1/;\n/ { a { }; };\n/delete-node/ &{/a};\n/ { b = &{/a}; };\n",
        symbols: false,
        number: 22,
        refused: Some("&{/a}"),
        lines: "error 22 UnknownPath\nboard.dts:4:9: no node has the path `/a`\n  |\n4 | / { b = &{/a}; };\n  |         ^^^^^\n  = in /, property b\n",
    },
    Row {
        source: "/dts-v1/;\n/delete-node/ &{/};\n/ { };\n",
        symbols: false,
        number: 22,
        refused: Some("&{/}"),
        lines: "error 22 UnknownPath\nboard.dts:2:15: no node has the path `/`\n  |\n2 | /delete-node/ &{/};\n  |               ^^^^\n  = in /\n",
    },
    Row {
        source: "/dts-v1/;\n/ { a { phandle = <1>; linux,phandle = <2>; }; };\n",
        symbols: false,
        number: 23,
        refused: Some("linux,phandle"),
        lines: "error 23 BadPhandle\nboard.dts:2:24: a phandle is four plain bytes, and neither 0 nor 0xffffffff\n  |\n2 | / { a { phandle = <1>; linux,phandle = <2>; }; };\n  |                        ^^^^^^^^^^^^^\n  = in /a, property linux,phandle\n  = the other one stands at board.dts:2:9\n",
    },
    Row {
        source: "/dts-v1/;\n/ { a: a { phandle = <&a>; }; b { phandle = <&a>; }; };\n",
        symbols: false,
        number: 23,
        refused: Some("phandle"),
        lines: "error 23 BadPhandle\nboard.dts:2:35: a phandle is four plain bytes, and neither 0 nor 0xffffffff\n  |\n2 | / { a: a { phandle = <&a>; }; b { phandle = <&a>; }; };\n  |                                   ^^^^^^^\n  = in /b, property phandle\n",
    },
    Row {
        source: "/dts-v1/;\n/ { a { linux,phandle = <'a'>; }; b { phandle = <0x61>; }; };\n",
        symbols: false,
        number: 24,
        refused: Some("phandle"),
        lines: "error 24 DuplicatePhandle\nboard.dts:2:39: another node has this phandle\n  |\n2 | / { a { linux,phandle = <'a'>; }; b { phandle = <0x61>; }; };\n  |                                       ^^^^^^^\n  = in /b, property phandle\n  = the other one stands at board.dts:2:9\n",
    },
    Row {
        source: "/dts-v1/;\n\n# 1 \"soc.dtsi\"\n/ {\n\ta { x; y; x = <1>; };\n};\n\n# 3 \"board.dts\"\n/ { };\n",
        symbols: false,
        number: 25,
        refused: Some("x"),
        lines: "error 25 DuplicateInBody\nsoc.dtsi:2:12: the body defines `x` twice\n  |\n2 | \ta { x; y; x = <1>; };\n  | \t          ^\n  = in /a\n  = the other one stands at soc.dtsi:2:6\n",
    },
    Row {
        source: "/dts-v1/;\n/ { b { }; /delete-node/ b; };\n",
        symbols: false,
        number: 25,
        refused: Some("b"),
        lines: "error 25 DuplicateInBody\nboard.dts:2:26: the body with which a node begins can't delete `b`, which it defines\n  |\n2 | / { b { }; /delete-node/ b; };\n  |                          ^\n  = in /\n  = the other one stands at board.dts:2:5\n",
    },
    Row {
        source: "/dts-v1/;\n/ { /delete-property/ r; r; };\n/ { r = <2>; };\n",
        symbols: false,
        number: 25,
        refused: Some("r"),
        lines: "error 25 DuplicateInBody\nboard.dts:3:5: `r` was deleted in the body with which its node begins, before it was defined there\n  |\n3 | / { r = <2>; };\n  |     ^\n  = in /\n  = it is deleted at board.dts:2:23\n",
    },
    Row {
        source: "/dts-v1/;\n/plugin/;\n/ { fragment@0 { }; };\n&x { };\n",
        symbols: false,
        number: 25,
        refused: Some("&x"),
        lines: "error 25 DuplicateInBody\nboard.dts:4:1: a child of the root has the name of the fragment that `x` makes\n  |\n4 | &x { };\n  | ^^\n  = in /\n  = the other one stands at board.dts:3:5\n",
    },
    Row {
        source: "/dts-v1/;\n/plugin/;\n\n# 1 \"soc.dtsi\"\n&gpio { hog { r = <&{/soc}>; }; };\n",
        symbols: false,
        number: 26,
        refused: Some("&{/soc}"),
        lines: "error 26 PathInPlugin\nsoc.dtsi:1:20: cells of a plugin can't refer to the path `/soc`\n  |\n1 | &gpio { hog { r = <&{/soc}>; }; };\n  |                    ^^^^^^^\n  = in /fragment@0/__overlay__/hog, property r\n",
    },
    Row {
        source: "/dts-v1/;\n/ { a: a { }; __symbols__ { }; };\n",
        symbols: true,
        number: 27,
        refused: Some("__symbols__"),
        lines: "error 27 ReservedName\nboard.dts:2:15: the name `__symbols__` is kept for the compiler\n  |\n2 | / { a: a { }; __symbols__ { }; };\n  |               ^^^^^^^^^^^\n  = in /\n  = `--symbols` writes the paths of labels there\n",
    },
    Row {
        source: "/dts-v1/;\n/ { };\n/delete-node/ &{/};\n",
        symbols: false,
        number: 27,
        refused: Some("&{/}"),
        lines: "error 27 ReservedName\nboard.dts:3:15: a reference can't name `/` here\n  |\n3 | /delete-node/ &{/};\n  |               ^^^^\n  = in /\n  = the root can't be deleted\n",
    },
    Row {
        source: "/dts-v1/;\n/ { a { phandle = /incbin/(\"f\"); b { phandle = <0>; }; }; };\n",
        symbols: false,
        number: 23,
        refused: None,
        lines: "error 23 BadPhandle\nboard.dts: a phandle is four plain bytes, and neither 0 nor 0xffffffff\n",
    },
];

/// A node in 64 others.
const DEEP: &str =
    "/dts-v1/;\n/ {\n1 { 2 { 3 { 4 { 5 { 6 { 7 { 8 { 9 { 10 { 11 { 12 { 13 { 14 { 15 { 16 {\n17 { 18 { 19 { 20 { 21 { 22 { 23 { 24 { 25 { 26 { 27 { 28 { 29 { 30 { 31 { 32 {\n33 { 34 { 35 { 36 { 37 { 38 { 39 { 40 { 41 { 42 { 43 { 44 { 45 { 46 { 47 { 48 {\n49 { 50 { 51 { 52 { 53 { 54 { 55 { 56 { 57 { 58 { 59 { 60 { 61 { 62 { 63 { l: 64 {\n}; }; }; }; }; }; }; }; }; }; }; }; }; }; }; };\n}; }; }; }; }; }; }; }; }; }; }; }; }; }; }; };\n}; }; }; }; }; }; }; }; }; }; }; }; }; }; }; };\n}; }; }; }; }; }; }; }; }; }; }; }; }; }; }; };\n};\n&l { 65 { }; };\n";

fn row_shows<R: Abort + AllocGlobal + RandomSource>(rt: &R, row: &Row) {
    let (file, source) = (b"board.dts".as_slice(), row.source.as_bytes());
    let compiled = Compiled {
        language: Language::Dtc,
        text: source,
        symbols: row.symbols,
    };
    let refused = refused_by(rt, compiled, row.number);
    let diagnosis = diagnose_dtc(rt.alloc(), file, source, refused);
    shows(rt, rt.alloc(), diagnosis, row.lines);
    let Ok(span) = dtc_span(rt.alloc(), source, refused) else {
        panic!(rt; "memory");
    };
    match (span, row.refused) {
        (Some(span), Some(refused)) => {
            assert_eq!(rt;
                source.get(span.start..span.end).unwrap_or(&[]),
                refused.as_bytes()
            );
        }
        (None, None) => {}
        _ => panic!(rt; "other bytes"),
    }
}

#[test]
fn spelling(rt: HostRuntime) {
    for row in SPELLING {
        row_shows(&rt, row);
    }
}

#[test]
fn meaning(rt: HostRuntime) {
    for row in MEANING {
        row_shows(&rt, row);
    }
}

#[test]
fn depth(rt: HostRuntime) {
    row_shows(
        &rt,
        &Row {
            source: DEEP,
            symbols: false,
            number: 28,
            refused: Some("65"),
            lines: "error 28 TooDeep\nboard.dts:12:6: `65` lies deeper than 64 levels\n   |\n12 | &l { 65 { }; };\n   |      ^^\n   = in /1/2/3/4/5/6/7/8/9/10/11/12/13/14/15/16/17/18/19/20/21/22/23/24/25/26/27/28/29/30/31/32/33/34/35/36/37/38/39/40/41/42/43/44/45/46/47/48/49/50/51/52/53/54/55/56/57/58/59/60/61/62/63/64\n",
        },
    );
}
