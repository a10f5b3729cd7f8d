//! Mistakes that users make, and what is told of them.

use super::shown::shows;
use crate::place::refused::{Compiled, refused_by};
use dt_text::lexeme::Language;
use dtman_diagnosis::{diagnose_dtc, diagnose_source};
use std::process::Abort;
use std::random::RandomSource;

/// A source in a language, the number by which it is refused, and what is told behind the file's name.
struct Row {
    language: Language,
    number: u8,
    source: &'static str,
    lines: &'static str,
}

const ROWS: &[Row] = &[
    // a `;` behind a property
    Row {
        language: Language::Profile,
        number: 10,
        source: "/dts-v1/;\n/ {\n\ta = <1>\n\tb = <2>;\n};\n",
        lines: "refused\nboard.dts:3:9: expected `;`\n  |\n3 | \ta = <1>\n  | \t       ^\n  = in /, property a\n",
    },
    Row {
        language: Language::Dtc,
        number: 10,
        source: "/dts-v1/;\n/ {\n\ta = \"x\"\n};\n",
        lines: "refused\nboard.dts:3:9: expected `;`\n  |\n3 | \ta = \"x\"\n  | \t       ^\n  = in /, property a\n",
    },
    Row {
        language: Language::Dtc,
        number: 10,
        source: "/dts-v1/;\n/ {\n\ta { }\n\tb { };\n};\n",
        lines: "refused\nboard.dts:3:7: expected `;`\n  |\n3 | \ta { }\n  | \t     ^\n  = in /\n",
    },
    Row {
        language: Language::Profile,
        number: 10,
        source: "/dts-v1/\n/ { };\n",
        lines: "refused\nboard.dts:1:9: expected `;`\n  |\n1 | /dts-v1/\n  |         ^\n  = in /\n",
    },
    // a `}`
    Row {
        language: Language::Dtc,
        number: 10,
        source: "/dts-v1/;\n/ {\n\tsoc {\n\t\ta;\n\n\tcpu {\n\t};\n};\n",
        lines: "refused\nboard.dts:8:2: the text ends, and more must follow\n  |\n8 | };\n  |  ^\n  = in /\n  = by its indentation the body that begins at board.dts:3:6 should end before board.dts:6:2\n",
    },
    Row {
        language: Language::Profile,
        number: 10,
        source: "/dts-v1/;\n/ {\n\tl: soc {\n\t};\n&l {\n};\n",
        lines: "refused\nboard.dts:5:1: `&l` can't stand here\n  |\n5 | &l {\n  | ^^\n  = in /\n  = by its indentation the body that begins at board.dts:2:3 should end before board.dts:5:1\n",
    },
    // a quote
    Row {
        language: Language::Profile,
        number: 10,
        source: "/dts-v1/;\n/ {\n\ts = \"abc;\n\tt = \"def\";\n};\n",
        lines: "refused\nboard.dts:3:6: the string that begins here goes on in the next line\n  |\n3 | \ts = \"abc;\n  | \t    ^\n  = in /, property s\n",
    },
    // quotes
    Row {
        language: Language::Profile,
        number: 10,
        source: "/dts-v1/;\n/ { status = okay; };\n",
        lines: "refused\nboard.dts:2:14: `okay` is no value: a value is a string \"..\", <..>, [..] or a reference\n  |\n2 | / { status = okay; };\n  |              ^^^^\n  = in /, property status\n  = did you mean `\"okay\"`?\n",
    },
    // a reference, and a word of truth
    Row {
        language: Language::Profile,
        number: 10,
        source: "/dts-v1/;\n/ { aliases { m = s; }; s: s { }; };\n",
        lines: "refused\nboard.dts:2:19: `s` is no value: a value is a string \"..\", <..>, [..] or a reference\n  |\n2 | / { aliases { m = s; }; s: s { }; };\n  |                   ^\n  = in /aliases, property m\n  = did you mean `&s`?\n",
    },
    Row {
        language: Language::Profile,
        number: 10,
        source: "/dts-v1/;\n/ { wakeup-source = true; };\n",
        lines: "refused\nboard.dts:2:21: `true` is no value: a value is a string \"..\", <..>, [..] or a reference\n  |\n2 | / { wakeup-source = true; };\n  |                     ^^^^\n  = in /, property wakeup-source\n",
    },
    // letters behind a number
    Row {
        language: Language::Profile,
        number: 10,
        source: "/dts-v1/;\n/ { a = <3000x>; };\n",
        lines: "refused\nboard.dts:2:14: `x` can't stand here\n  |\n2 | / { a = <3000x>; };\n  |              ^\n  = in /, property a\n  = a number has digits, behind `0x` those of base 16, and ends in `U`, `L` or neither\n",
    },
    Row {
        language: Language::Profile,
        number: 10,
        source: "/dts-v1/;\n/ { a = <0x30G0>; };\n",
        lines: "refused\nboard.dts:2:14: `G0` can't stand here\n  |\n2 | / { a = <0x30G0>; };\n  |              ^^\n  = in /, property a\n  = a number has digits, behind `0x` those of base 16, and ends in `U`, `L` or neither\n",
    },
    // order
    Row {
        language: Language::Profile,
        number: 10,
        source: "/dts-v1/;\n/ {\n\ta { };\n\tb = <1>;\n};\n",
        lines: "refused\nboard.dts:4:2: `b` stands behind a child; properties stand before children\n  |\n4 | \tb = <1>;\n  | \t^\n  = in /\n",
    },
    Row {
        language: Language::Dtc,
        number: 10,
        source: "/dts-v1/;\n/ {\n\ta { };\n\t/delete-property/ b;\n};\n",
        lines: "refused\nboard.dts:4:2: `/delete-property/` stands behind a child; properties stand before children\n  |\n4 | \t/delete-property/ b;\n  | \t^^^^^^^^^^^^^^^^^\n  = in /\n",
    },
    // dtc's language
    Row {
        language: Language::Profile,
        number: 10,
        source: "/dts-v1/;\n/include/ \"soc.dtsi\"\n/ { };\n",
        lines: "refused\nboard.dts:2:1: `/include/` is of dtc's language, which `--dtc` reads\n  |\n2 | /include/ \"soc.dtsi\"\n  | ^^^^^^^^^\n  = in /\n",
    },
    Row {
        language: Language::Profile,
        number: 10,
        source: "/dts-v1/;\n/ { a = <'b'>; };\n",
        lines: "refused\nboard.dts:2:10: no lexeme begins here\n  |\n2 | / { a = <'b'>; };\n  |          ^\n  = in /, property a\n  = character literals are of dtc's language, which `--dtc` reads\n",
    },
    Row {
        language: Language::Profile,
        number: 25,
        source: "/dts-v1/;\n/ { l: a { x; }; };\n&l { x; x; };\n",
        lines: "refused\nboard.dts:3:9: the body defines `x` twice\n  |\n3 | &l { x; x; };\n  |         ^\n  = in /a\n  = the other one stands at board.dts:3:6\n  = dtc's language takes that in a body that extends a node: `--dtc` reads it\n",
    },
    // the preprocessor
    Row {
        language: Language::Profile,
        number: 10,
        source: "/dts-v1/;\n#include \"soc.dtsi\"\n/ { };\n",
        lines: "refused\nboard.dts:2:1: no lexeme begins here\n  |\n2 | #include \"soc.dtsi\"\n  | ^\n  = in /\n  = is the preprocessor run? Such lines are its own\n",
    },
    Row {
        language: Language::Dtc,
        number: 10,
        source: "/dts-v1/;\n/ { g = <&gpio 3 GPIO_ACTIVE_LOW>; };\n",
        lines: "refused\nboard.dts:2:18: `GPIO_ACTIVE_LOW` can't stand here\n  |\n2 | / { g = <&gpio 3 GPIO_ACTIVE_LOW>; };\n  |                  ^^^^^^^^^^^^^^^\n  = in /, property g\n  = is it a macro, and the preprocessor run?\n",
    },
    // a file that is no text
    Row {
        language: Language::Profile,
        number: 10,
        source: "\u{7f}ELF\u{2}",
        lines: "refused\nboard.dts:1:1: no lexeme begins here\n  |\n1 | \\x7fELF\\x02\n  | ^^^^\n  = in /\n  = it is an ELF file\n",
    },
    // cells
    Row {
        language: Language::Profile,
        number: 10,
        source: "/dts-v1/;\n/ { a = <1 + 2>; };\n",
        lines: "refused\nboard.dts:2:12: no lexeme begins here\n  |\n2 | / { a = <1 + 2>; };\n  |            ^\n  = in /, property a\n  = an expression among cells stands in parentheses\n",
    },
    Row {
        language: Language::Dtc,
        number: 10,
        source: "/dts-v1/;\n/ { a = <-12>; };\n",
        lines: "refused\nboard.dts:2:10: no lexeme begins here\n  |\n2 | / { a = <-12>; };\n  |          ^\n  = in /, property a\n  = an expression among cells stands in parentheses\n",
    },
    Row {
        language: Language::Dtc,
        number: 10,
        source: "/dts-v1/;\n/ { clk: c { }; };\n/ { a = <clk 3>; };\n",
        lines: "refused\nboard.dts:3:10: `clk` can't stand here\n  |\n3 | / { a = <clk 3>; };\n  |          ^^^\n  = in /, property a\n  = did you mean `&clk`?\n",
    },
    // numbers
    Row {
        language: Language::Dtc,
        number: 14,
        source: "/dts-v1/;\n/ { a = <08>; };\n",
        lines: "refused\nboard.dts:2:10: `08` is no octal number, which a leading 0 says that it is\n  |\n2 | / { a = <08>; };\n  |          ^^\n  = in /, property a\n",
    },
    Row {
        language: Language::Profile,
        number: 10,
        source: "/dts-v1/;\n/ { a = 5; };\n",
        lines: "refused\nboard.dts:2:9: `5` can't stand here\n  |\n2 | / { a = 5; };\n  |         ^\n  = in /, property a\n  = a number stands in `<..>`\n",
    },
    // characters
    Row {
        language: Language::Profile,
        number: 10,
        source: "/dts-v1/;\n/ { s = 'okay'; };\n",
        lines: "refused\nboard.dts:2:9: no lexeme begins here\n  |\n2 | / { s = 'okay'; };\n  |         ^\n  = in /, property s\n  = strings stand in \"\n",
    },
    Row {
        language: Language::Dtc,
        number: 10,
        source: "/dts-v1/;\n/ { s = “okay”; };\n",
        lines: "refused\nboard.dts:2:9: no lexeme begins here\n  |\n2 | / { s = “okay”; };\n  |         ^\n  = in /, property s\n  = it is a typographic quote (U+201C to U+201F); strings stand in \"\n",
    },
    Row {
        language: Language::Profile,
        number: 10,
        source: "\u{feff}/dts-v1/;\n/ { };\n",
        lines: "refused\nboard.dts:1:1: no lexeme begins here\n  |\n1 | \u{feff}/dts-v1/;\n  | ^\n  = in /\n  = it is a byte order mark (U+FEFF), which must go\n",
    },
    Row {
        language: Language::Dtc,
        number: 10,
        source: "/dts-v1/;\n/ {\u{a0}a; };\n",
        lines: "refused\nboard.dts:2:4: no lexeme begins here\n  |\n2 | / {\u{a0}a; };\n  |    ^\n  = in /\n  = it is a no-break space (U+00A0); a space is meant\n",
    },
];

fn row_shows<R: Abort + AllocGlobal + RandomSource>(rt: &R, row: &Row) {
    let (file, source) = (b"board.dts".as_slice(), row.source.as_bytes());
    let compiled = Compiled {
        language: row.language,
        text: source,
        symbols: false,
    };
    let refused = refused_by(rt, compiled, row.number);
    let diagnosis = match row.language {
        Language::Profile => diagnose_source(rt.alloc(), file, source, refused),
        Language::Dtc => diagnose_dtc(rt.alloc(), file, source, refused),
    };
    shows(rt, rt.alloc(), diagnosis, row.lines);
}

#[test]
fn mistakes(rt: HostRuntime) {
    for row in ROWS {
        row_shows(&rt, row);
    }
}
