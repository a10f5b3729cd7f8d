//! Refusals of sources: where they are by the line markers, what they are of, and what else is told.

use super::shown::shows;
use crate::place::refused::{Compiled, refused_by};
use dt_text::lexeme::Language;
use dtman_diagnosis::diagnose_source;
use std::process::Abort;
use std::random::RandomSource;

/// A source, whether it gets symbols, the number by which it is refused, and the lines of that.
struct Row {
    source: &'static str,
    symbols: bool,
    number: u8,
    lines: &'static str,
}

const SPELLING: &[Row] = &[
    Row {
        source: "",
        symbols: false,
        number: 10,
        lines: "error 10 Syntax line 1\nboard.i: the text ends, and more must follow\n = in /\n",
    },
    Row {
        source: "# 1 \"board.dts\"\n/dts-v1/;\n# 1 \"soc.dtsi\" 1\n/ {\n\tsoc {\n\t\ta = <1>\n\t};\n};\n",
        symbols: false,
        number: 10,
        lines: "error 10 Syntax line 7\nsoc.dtsi:3:10: expected `;`\n  |\n3 | \t\ta = <1>\n  | \t\t       ^\n  = in /soc, property a\n",
    },
    Row {
        source: "/dts-v1/;\n/ {\n\tsoc {\n\t\ta;\n\t};\n",
        symbols: false,
        number: 10,
        lines: "error 10 Syntax line 6\nboard.i:5:3: the text ends, and more must follow\n  |\n5 | \t};\n  | \t ^\n  = in /\n  = the bracket isn't closed that stands at board.i:2:3\n",
    },
    Row {
        source: "/dts-v1/;\n/ { s = \"abc; };\n",
        symbols: false,
        number: 10,
        lines: "error 10 Syntax line 2\nboard.i:2:9: what begins here isn't closed\n  |\n2 | / { s = \"abc; };\n  |         ^\n  = in /, property s\n",
    },
    Row {
        source: "/dts-v1/;\n/ { $; };\n",
        symbols: false,
        number: 10,
        lines: "error 10 Syntax line 2\nboard.i:2:5: no lexeme begins here\n  |\n2 | / { $; };\n  |     ^\n  = in /\n",
    },
    Row {
        source: "/dts-v1/;\n/ { a = <1 (0x80000000 * 2) 3>; };\n",
        symbols: false,
        number: 11,
        lines: "error 11 ElementRange line 2\nboard.i:2:12: the element `(0x80000000 * 2)` doesn't fit its width\n  |\n2 | / { a = <1 (0x80000000 * 2) 3>; };\n  |            ^^^^^^^^^^^^^^^^\n  = in /, property a\n",
    },
    Row {
        source: "/dts-v1/;\n# 7 \"clocks.h\"\n/ { c { a = <(8 / (2 - 2))>; }; };\n",
        symbols: false,
        number: 12,
        lines: "error 12 DivideByZero line 3\nclocks.h:7:17: `/` divides by zero\n  |\n7 | / { c { a = <(8 / (2 - 2))>; }; };\n  |                 ^\n  = in /c, property a\n",
    },
    Row {
        source: "/dts-v1/;\n/ { a = /bits/ 24 <1>; };\n",
        symbols: false,
        number: 13,
        lines: "error 13 BadBits line 2\nboard.i:2:16: the width `24` isn't 8, 16, 32 or 64\n  |\n2 | / { a = /bits/ 24 <1>; };\n  |                ^^\n  = in /, property a\n",
    },
    Row {
        source: "/dts-v1/;\n/ { x: x { }; };\n&x { a = /bits/ 64 <1 &x>; };\n",
        symbols: false,
        number: 13,
        lines: "error 13 BadBits line 3\nboard.i:3:23: the reference to `x` stands among elements that aren't 32 bits wide\n  |\n3 | &x { a = /bits/ 64 <1 &x>; };\n  |                       ^^\n  = in /x, property a\n",
    },
    Row {
        source: "/dts-v1/;\n/ { a = <1 089>; };\n",
        symbols: false,
        number: 14,
        lines: "error 14 LiteralRange line 2\nboard.i:2:12: `089` is no octal number, which a leading 0 says that it is\n  |\n2 | / { a = <1 089>; };\n  |            ^^^\n  = in /, property a\n",
    },
    Row {
        source: "/dts-v1/;\n/ { a = \"b\", \"c\\xyz\"; };\n",
        symbols: false,
        number: 15,
        lines: "error 15 BadEscape line 2\nboard.i:2:16: `\\x` is no escape\n  |\n2 | / { a = \"b\", \"c\\xyz\"; };\n  |                ^^\n  = in /, property a\n",
    },
];

const MEANING: &[Row] = &[
    Row {
        source: "# 0 \"board.dts\"\n# 1 \"board.dts\"\n/dts-v1/;\n# 1 \"soc.dtsi\" 1\n/ {\n\tsoc {\n\t\tgpio1: gpio@1 { };\n\t\tgpio70: gpio@70 { };\n\t\tspi0: spi@70000 { };\n\t};\n};\n# 3 \"board.dts\" 2\n&spi0 {\n\tdisplay@1 {\n\t\treset-gpios = <&gpio7 3 0>;\n\t};\n};\n",
        symbols: false,
        number: 20,
        lines: "error 20 UnknownLabel\nboard.dts:5:18: no node has the label `gpio7`\n  |\n5 | \t\treset-gpios = <&gpio7 3 0>;\n  | \t\t               ^^^^^^\n  = in /soc/spi@70000/display@1, property reset-gpios\n  = labels spelled alike: gpio1, gpio70\n",
    },
    Row {
        source: "/dts-v1/;\n/ { a: x { }; };\n/delete-node/ &a;\n&a { };\n",
        symbols: false,
        number: 20,
        lines: "error 20 UnknownLabel\nboard.i:4:1: no node has the label `a`\n  |\n4 | &a { };\n  | ^^\n  = in /\n",
    },
    Row {
        source: "# 1 \"board.dts\"\n/dts-v1/;\n/ {\n\tuart: serial@0 { };\n};\n# 10 \"more.dtsi\" 1\n/ {\n\tbus {\n\t\tuart: serial@1 { };\n\t};\n};\n",
        symbols: false,
        number: 21,
        lines: "error 21 DuplicateLabel\nmore.dtsi:12:3: the label `uart` is another node's\n   |\n12 | \t\tuart: serial@1 { };\n   | \t\t^^^^^\n   = in /bus\n   = the other one stands at board.dts:3:2\n",
    },
    Row {
        source: "/dts-v1/;\n/ { a { b = &{/a/c}; }; };\n",
        symbols: false,
        number: 22,
        lines: "error 22 UnknownPath\nboard.i:2:13: no node has the path `/a/c`\n  |\n2 | / { a { b = &{/a/c}; }; };\n  |             ^^^^^^^\n  = in /a, property b\n",
    },
    Row {
        source: "/dts-v1/;\n/ { a { phandle = <0>; }; b { phandle = <0>; }; };\n",
        symbols: false,
        number: 23,
        lines: "error 23 BadPhandle\nboard.i:2:9: a phandle is four plain bytes, and neither 0 nor 0xffffffff\n  |\n2 | / { a { phandle = <0>; }; b { phandle = <0>; }; };\n  |         ^^^^^^^\n  = in /a, property phandle\n",
    },
    Row {
        source: "/dts-v1/;\n/ { b { }; a { phandle = <0x10>; }; };\n/ { b { phandle = [00 00 00 10]; }; };\n",
        symbols: false,
        number: 24,
        lines: "error 24 DuplicatePhandle\nboard.i:2:16: another node has this phandle\n  |\n2 | / { b { }; a { phandle = <0x10>; }; };\n  |                ^^^^^^^\n  = in /a, property phandle\n  = the other one stands at board.i:3:9\n",
    },
    Row {
        source: "/dts-v1/;\n/ { a { reg = <1>; status = \"okay\"; reg = <2>; }; };\n",
        symbols: false,
        number: 25,
        lines: "error 25 DuplicateInBody\nboard.i:2:37: the body defines `reg` twice\n  |\n2 | / { a { reg = <1>; status = \"okay\"; reg = <2>; }; };\n  |                                     ^^^\n  = in /a\n  = the other one stands at board.i:2:9\n",
    },
    Row {
        source: "/dts-v1/;\n/ { a { }; b { }; a { }; };\n",
        symbols: false,
        number: 25,
        lines: "error 25 DuplicateInBody\nboard.i:2:19: the body defines `a` twice\n  |\n2 | / { a { }; b { }; a { }; };\n  |                   ^\n  = in /\n  = the other one stands at board.i:2:5\n",
    },
    Row {
        source: "/dts-v1/;\n/ { a { x; /delete-property/ x; x; }; };\n",
        symbols: false,
        number: 25,
        lines: "error 25 DuplicateInBody\nboard.i:2:33: the body defines `x` twice\n  |\n2 | / { a { x; /delete-property/ x; x; }; };\n  |                                 ^\n  = in /a\n  = the other one stands at board.i:2:9\n",
    },
    Row {
        source: "/dts-v1/;\n/ { a { }; /delete-node/ a; a { }; };\n",
        symbols: false,
        number: 25,
        lines: "error 25 DuplicateInBody\nboard.i:2:29: the body defines `a` twice\n  |\n2 | / { a { }; /delete-node/ a; a { }; };\n  |                             ^\n  = in /\n  = the other one stands at board.i:2:5\n",
    },
    Row {
        source: "/dts-v1/;\n/plugin/;\n&gpio { hog { r = <&{/soc}>; }; };\n",
        symbols: false,
        number: 26,
        lines: "error 26 PathInPlugin\nboard.i:3:20: cells of a plugin can't refer to the path `/soc`\n  |\n3 | &gpio { hog { r = <&{/soc}>; }; };\n  |                    ^^^^^^^\n  = in /fragment@0/__overlay__/hog, property r\n",
    },
    Row {
        source: "/dts-v1/;\n/ { a: a { }; __symbols__ { }; };\n",
        symbols: true,
        number: 27,
        lines: "error 27 ReservedName\nboard.i:2:15: the name `__symbols__` is kept for the compiler\n  |\n2 | / { a: a { }; __symbols__ { }; };\n  |               ^^^^^^^^^^^\n  = in /\n  = `--symbols` writes the paths of labels there\n",
    },
    Row {
        source: "/dts-v1/;\n/delete-node/ &{/};\n/ { };\n",
        symbols: false,
        number: 27,
        lines: "error 27 ReservedName\nboard.i:2:15: a reference can't name `/` here\n  |\n2 | /delete-node/ &{/};\n  |               ^^^^\n  = in /\n  = the root can't be deleted\n",
    },
    Row {
        source: "/dts-v1/;\n/plugin/;\n&a { };\n/ { fragment@0 { }; };\n",
        symbols: false,
        number: 27,
        lines: "error 27 ReservedName\nboard.i:4:5: the name `fragment@0` is kept for the compiler\n  |\n4 | / { fragment@0 { }; };\n  |     ^^^^^^^^^^\n  = in /\n  = the compiler names the fragments of a plugin so\n",
    },
];

fn row_shows<R: Abort + AllocGlobal + RandomSource>(rt: &R, row: &Row) {
    let (file, source) = (b"board.i".as_slice(), row.source.as_bytes());
    let compiled = Compiled {
        language: Language::Profile,
        text: source,
        symbols: row.symbols,
    };
    let refused = refused_by(rt, compiled, row.number);
    let diagnosis = diagnose_source(rt.alloc(), file, source, refused);
    shows(rt, rt.alloc(), diagnosis, row.lines);
}

#[test]
fn spelling(rt: HostRuntime) {
    for row in SPELLING {
        row_shows(&rt, row);
    }
}

#[test]
fn meaning(rt: HostRuntime) {
    for row in MEANING {
        row_shows(&rt, row);
    }
}
