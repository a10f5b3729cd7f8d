//! `compile --dtc` over files in memory: what stands in OUT, and what is told of sources that dtc doesn't take, either.

use super::compiling::BLOB;
use crate::runs::{Files, Writing, rows_write};
use dt_text::include::{Found, Incomplete, Shortfall};
use dtman_engine::{DtcOptions, Fault, Position};
use dtman_host::{Outcome, compile_dtc, in_user_file, shortfall_fault};
use std::alloc::{AllocError, Global};
use std::hash::RandomState;
use std::process::Abort;

const FILES: Files = &[
    ("board.dts", b"/dts-v1/; / { };"),
    (
        "cpus.dts",
        b"/dts-v1/; / { cpus { cpu@100 { reg = <0x100>; }; }; };",
    ),
    ("letter.dts", b"/dts-v1/; / { a = <'A'>; };"),
    ("lost.dts", b"/dts-v1/; / { };\n&a { };\n"),
    ("whole.dts", b"/dts-v1/;\n/include/ \"root.dtsi\"\n"),
    ("in/root.dtsi", b"/ { /omit-if-no-ref/ gone: gone { }; };\n"),
    ("far.dts", b"/dts-v1/;\n/include/ \"low.dtsi\"\n"),
    ("in/low.dtsi", b"/ {\n\ta = <&b>;\n\tc;\n};\n"),
    (
        "bad.dts",
        b"# 3 \"b.dts\"\n/dts-v1/;\n/ {\n\ta = <'A'>;\n\tb = <1)>;\n};\n",
    ),
    (
        "twice.dts",
        b"/dts-v1/;\n/ {\n\tn: a {\n\t\tx = <'A'>;\n\t};\n\n\n  n: b { };\n};\n",
    ),
    (
        "open.dts",
        b"# 1 \"o.dts\"\n/dts-v1/;\n/ {\n\ta = <'A'\n\t\t;\n};\n",
    ),
    (
        "sum.dts",
        b"/dts-v1/;\n/ {\n\ta = <'A'>,\n\t    <(0xffffffff +\n\t\t2)>;\n};\n",
    ),
    ("five.dts", b"/dts-v1/;\n/include/ 5;\n"),
    ("quote.dts", b"/dts-v1/;\n\t/include/ \"a\n"),
    (
        "remark.dts",
        b"/dts-v1/;\n/include/ \"remark.dtsi\" */ / { };\n",
    ),
    ("in/remark.dtsi", b"\n /* a\n"),
    (
        "text.dts",
        b"/dts-v1/; / {\n/include/ \"text.dtsi\" \"; };\n",
    ),
    ("in/text.dtsi", b"a = \"b\n"),
    (
        "keyword.dts",
        b"/dts-v1//* 1 */; / { a = <'A'>;\n/include/ \"none.dtsi\"\n};\n",
    ),
    ("in/none.dtsi", b""),
    ("deep.dts", b"\n/include/ \"deep.dts\"\n"),
];

/// That of `letter.dts`, word by word (Devicetree Specification v0.4, chapter 5).
const LETTER: &[u8] =
    b"\xd0\x0d\xfe\xed\0\0\0\x5a\0\0\0\x38\0\0\0\x58\0\0\0\x28\0\0\0\x11\0\0\0\x10\0\0\0\0\0\0\0\x02\0\0\0\x20\
\0\0\0\0\0\0\0\0\0\0\0\0\0\0\0\0\0\0\0\x01\0\0\0\0\0\0\0\x03\0\0\0\x04\0\0\0\0\0\0\0\x41\0\0\0\x02\0\0\0\x09a\0";

/// That of `cpus.dts`: it boots on the first processor that is there, 0x100.
const CPUS: &[u8] =
    b"\xd0\x0d\xfe\xed\0\0\0\x7c\0\0\0\x38\0\0\0\x78\0\0\0\x28\0\0\0\x11\0\0\0\x10\0\0\x01\0\0\0\0\x04\0\0\0\x40\
\0\0\0\0\0\0\0\0\0\0\0\0\0\0\0\0\0\0\0\x01\0\0\0\0\0\0\0\x01cpus\0\0\0\0\0\0\0\x01cpu@100\0\
\0\0\0\x03\0\0\0\x04\0\0\0\0\0\0\x01\0\0\0\0\x02\0\0\0\x02\0\0\0\x02\0\0\0\x09reg\0";

const UNKNOWN: &str =
    "error 20 UnknownLabel\nin/low.dtsi:2:7: no node has the label `b`\n  |\n2 | \ta = <&b>;\n  | \t     ^^\n  = in /, property a\n";

const SYNTAX: &str =
    "error 10 Syntax line 6\nb.dts:6:8: `)` can't stand here\n  |\n6 | \tb = <1)>;\n  | \t      ^\n  = in /, property b\n";

const TWICE: &str =
    "error 21 DuplicateLabel\ntwice.dts:8:3: the label `n` is another node's\n  |\n8 |   n: b { };\n  |   ^^\n  = in /\n  = the other one stands at twice.dts:3:2\n";

const OPEN: &str =
    "error 10 Syntax line 4\no.dts:4:3: `;` can't stand here\n  |\n4 | \t\t;\n  | \t\t^\n  = in /, property a\n";

const SUM: &str =
    "error 11 ElementRange line 4\nsum.dts:4:7: the element `(0xffffffff +\\x0a\t\t2)` doesn't fit its width\n  |\n4 | \t    <(0xffffffff +\n  | \t     ^^^^^^^^^^^^^\n  = in /, property a\n";

const FIVE: &str =
    "error 10 Syntax line 2\nfive.dts:2:11: `5` can't stand here\n  |\n2 | /include/ 5;\n  |           ^\n  = a file's name between quotes must follow, and numbers behind it in pairs\n";

const QUOTE: &str =
    "error 10 Syntax line 2\nquote.dts:2:12: what begins here isn't closed\n  |\n2 | \t/include/ \"a\n  | \t          ^\n  = strings, comments and names of files end in their own file\n";

const REMARK: &str =
    "error 10 Syntax line 2\nin/remark.dtsi:2:2: what begins here isn't closed\n  |\n2 |  /* a\n  |  ^^\n  = strings, comments and names of files end in their own file\n";

const TEXT: &str =
    "error 10 Syntax line 1\nin/text.dtsi:1:5: what begins here isn't closed\n  |\n1 | a = \"b\n  |     ^\n  = strings, comments and names of files end in their own file\n";

const DEEP: &str =
    "error 16 TooDeep line 2\ndeep.dts:2:1: `/include/ \"deep.dts\"` nests files deeper than 200\n  |\n2 | /include/ \"deep.dts\"\n  | ^^^^^^^^^^^^^^^^^^^^\n  = a file that takes itself in never ends\n";

const LOST: &str =
    "error 80 CannotRead root.dtsi\nwhole.dts:2:1: no file can be read that is named `root.dtsi`\n  |\n2 | /include/ \"root.dtsi\"\n  | ^^^^^^^^^^^^^^^^^^^^^\n";

const PLACES: &[Writing] = &[
    (
        &["dtman", "-v", "compile", "--dtc", "twice.dts", "out"],
        1,
        TWICE,
        b"",
    ),
    (
        &["dtman", "-v", "compile", "--dtc", "open.dts", "out"],
        1,
        OPEN,
        b"",
    ),
    (
        &["dtman", "-v", "compile", "--dtc", "sum.dts", "out"],
        1,
        SUM,
        b"",
    ),
    (
        &["dtman", "compile", "--dtc", "five.dts", "out"],
        1,
        "error 10 Syntax line 2\n",
        b"",
    ),
    (
        &["dtman", "-v", "compile", "--dtc", "five.dts", "out"],
        1,
        FIVE,
        b"",
    ),
    (
        &["dtman", "-v", "compile", "--dtc", "quote.dts", "out"],
        1,
        QUOTE,
        b"",
    ),
    (
        &[
            "dtman",
            "-v",
            "compile",
            "--dtc",
            "-iin",
            "remark.dts",
            "out",
        ],
        1,
        REMARK,
        b"",
    ),
    (
        &["dtman", "-v", "compile", "--dtc", "-iin", "text.dts", "out"],
        1,
        TEXT,
        b"",
    ),
    (
        &["dtman", "-v", "compile", "--dtc", "deep.dts", "out"],
        1,
        DEEP,
        b"",
    ),
    (
        &["dtman", "-v", "compile", "--dtc", "whole.dts", "out"],
        3,
        LOST,
        b"",
    ),
];

#[test]
fn tells_where_the_user_wrote_it(rt: HostRuntime) {
    rows_write(&rt, FILES, PLACES);
}

const SOURCES: &[Writing] = &[
    (
        &["dtman", "compile", "--dtc", "board.dts", "out"],
        0,
        "",
        BLOB,
    ),
    (
        &["dtman", "compile", "--dtc", "letter.dts", "out"],
        0,
        "",
        LETTER,
    ),
    // what the profile takes too gets dtc's bytes
    (
        &["dtman", "compile", "--dtc", "cpus.dts", "out"],
        0,
        "",
        CPUS,
    ),
    (
        &["dtman", "compile", "--dtc", "lost.dts", "out"],
        1,
        "error 20 UnknownLabel\n",
        b"",
    ),
    (
        &["dtman", "compile", "--dtc", "-i", "in", "whole.dts", "out"],
        0,
        "",
        BLOB,
    ),
    // a keyword with a comment right behind it
    (
        &["dtman", "compile", "--dtc", "-iin", "keyword.dts", "out"],
        0,
        "",
        LETTER,
    ),
    (
        &["dtman", "compile", "whole.dts", "out"],
        1,
        "error 10 Syntax line 2\n",
        b"",
    ),
    (
        &["dtman", "compile", "--dtc", "whole.dts", "out"],
        3,
        "error 80 CannotRead root.dtsi\n",
        b"",
    ),
    (
        &["dtman", "-v", "compile", "--dtc", "-iin", "far.dts", "out"],
        1,
        UNKNOWN,
        b"",
    ),
    (
        &["dtman", "-v", "compile", "--dtc", "bad.dts", "out"],
        1,
        SYNTAX,
        b"",
    ),
];

#[test]
fn compiles_dtc_sources(rt: HostRuntime) {
    rows_write(&rt, FILES, SOURCES);
}

/// No files.
#[derive(Clone, Copy)]
struct Nothing;

impl dt_text::include::Files for Nothing {
    ghost finds = { λ beside name found. Unit {0} };

    ghost lacks = { λ beside name. Unit {0} };

    fn find(
        &mut self,
        _alloc: Global,
        _beside: &[u8],
        _name: &[u8],
    ) -> Result<Option<Found>, AllocError> {
        Ok(None)
    }
}

fn outcome_of(alloc: Global, hasher: RandomState, text: &[u8]) -> Outcome {
    let options = DtcOptions {
        symbols: false,
        boot_processor: None,
    };
    compile_dtc(alloc, hasher, &mut Nothing, b"board.dts", text, options)
}

#[test]
fn answers_what_a_source_comes_to(rt: HostRuntime) {
    let hasher = RandomState::new(&rt).expect(&rt, "a seed");
    let Outcome::Answered { text, answer } = outcome_of(rt.alloc(), hasher, b"/dts-v1/; / { };")
    else {
        panic!(rt; "it is whole");
    };
    assert_eq!(rt; text.as_slice(), b"/dts-v1/; / { };".as_slice());
    let made = answer.expect(&rt, "a blob");
    assert_eq!(rt; made.blob.as_slice(), BLOB);
    let Outcome::Short(shortfall) = outcome_of(rt.alloc(), hasher, b"/include/ \"a\"") else {
        panic!(rt; "the file isn't there");
    };
    let fault = shortfall_fault(&shortfall);
    assert_eq!(rt; fault.number, 80);
    assert!(rt; matches!(shortfall.reason, Incomplete::NoFile(_)));
}

fn fault_of(reason: Incomplete) -> (u8, &'static str) {
    let shortfall = Shortfall { reason, site: None };
    let fault = shortfall_fault(&shortfall);
    (fault.number, fault.name)
}

#[test]
fn tells_why_a_source_is_not_whole(rt: HostRuntime) {
    assert!(rt; fault_of(Incomplete::NoMemory) == (0, "NoMemory"));
    assert!(rt; fault_of(Incomplete::Syntax) == (10, "Syntax"));
    assert!(rt; fault_of(Incomplete::TooDeep) == (16, "TooDeep"));
    assert!(rt; fault_of(Incomplete::TooLong) == (17, "TooLong"));
}

#[test]
fn counts_lines_as_the_user_does(rt: HostRuntime) {
    let text = b"\n# 7 \"b.dtsi\"\nx\ny\n";
    let fault = Fault {
        number: 10,
        name: "Syntax",
        position: Position::Line(4),
        culprit: None,
    };
    let told = in_user_file(b"a.dts", text, fault);
    assert_eq!(rt; told.number, 10);
    assert!(rt; told.position == Position::Line(8));
    let nowhere = in_user_file(b"a.dts", text, Fault::no_memory());
    assert!(rt; nowhere.position == Position::Nowhere);
}
