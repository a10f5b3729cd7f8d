//! Sources that go through the C preprocessor: what stands in OUT, what is printed, and what is told of a refusal.

use super::compiling::BLOB;
use crate::runs::{Files, Row, Writing, rows_end, rows_write, run_over};
use crate::shelf::Shelf;
use std::hash::RandomState;
use std::process::Abort;

const FILES: Files = &[
    ("board.dts", b"/dts-v1/;\n#include \"root.h\"\nROOT;\n"),
    ("root.h", b"#define ROOT / { }\n"),
    ("far.dts", b"/dts-v1/;\n#include <far.h>\nFAR\n"),
    ("in/far.h", b"#define FAR / { };\n"),
    (
        "asks.dts",
        b"/dts-v1/;\n#ifndef BOARD\n#error choose a board\n#endif\nBOARD;\n",
    ),
    ("lost.dts", b"/dts-v1/;\n#include \"none.h\"\n"),
    ("deep.dts", b"#include \"in/lost.h\"\n"),
    ("in/lost.h", b"\n#  include <gone.h>\n"),
    ("bad.dts", b"/dts-v1/;\n#define N 4x\n/ { a = <N>; };\n"),
    ("plain.dts", b"/dts-v1/; / { };"),
    ("once.dts", b"/dts-v1/;\n#pragma once\n/ { };\n"),
    (
        "my board.dts",
        b"/dts-v1/;\n#include \"root.h\"\n#include \"root.h\"\nROOT;\n/include/ \"none.dtsi\"\n",
    ),
    ("none.dtsi", b""),
];

const LOST: &str =
    "error 83 NoHeader\nlost.dts:2:10: no file can be read that is named `none.h`\n  |\n2 | #include \"none.h\"\n  |          ^\n";

const GONE: &str =
    "error 83 NoHeader\nin/lost.h:2:12: no file can be read that is named `gone.h`\n  |\n2 | #  include <gone.h>\n  |            ^\n";

const ASKS: &str =
    "error 93 ErrorDirective\nasks.dts:3:2: the source says: `choose a board`\n  |\n3 | #error choose a board\n  |  ^\n";

const ONCE: &str =
    "error 88 Unserved\nonce.dts:2:2: `pragma` isn't served\n  |\n2 | #pragma once\n  |  ^^^^^^\n";

const COMPILED: &[Writing] = &[
    (&["dtman", "compile", "board.dts", "out"], 0, "", BLOB),
    (
        &["dtman", "compile", "far.dts", "out", "-I", "in"],
        0,
        "",
        BLOB,
    ),
    (
        &["dtman", "compile", "-DBOARD=/ { }", "asks.dts", "out"],
        0,
        "",
        BLOB,
    ),
    (
        &["dtman", "compile", "plain.dts", "out", "--cpp"],
        0,
        "",
        BLOB,
    ),
    (
        &[
            "dtman",
            "compile",
            "plain.dts",
            "out",
            "--preinclude",
            "root.h",
        ],
        0,
        "",
        BLOB,
    ),
    (
        &["dtman", "compile", "--no-cpp", "board.dts", "out"],
        1,
        "error 10 Syntax line 2\n",
        b"",
    ),
    (&["dtman", "compile", "lost.dts", "out"], 1, LOST, b""),
    (
        &["dtman", "compile", "deep.dts", "out", "-I", "in"],
        1,
        GONE,
        b"",
    ),
    (&["dtman", "compile", "asks.dts", "out"], 1, ASKS, b""),
    (
        &["dtman", "compile", "once.dts", "out", "--cpp"],
        1,
        ONCE,
        b"",
    ),
    (
        &["dtman", "compile", "bad.dts", "out"],
        1,
        "error 10 Syntax line 3\n",
        b"",
    ),
];

#[test]
fn preprocesses_what_it_compiles(rt: HostRuntime) {
    rows_write(&rt, FILES, COMPILED);
}

/// The rule names what is made, and each file that was read: those of the preprocessor in the order in which they were opened, and then
/// those that dtc's language takes in.
#[test]
fn names_what_it_read(rt: HostRuntime) {
    const ROWS: &[Row] = &[
        (
            &["dtman", "compile", "plain.dts", "out", "--depfile", "-"],
            0,
            "out: plain.dts\n",
            "",
        ),
        (
            &["dtman", "compile", "board.dts", "a b", "--depfile", "-"],
            0,
            "a\\ b: board.dts root.h\n",
            "",
        ),
        (
            &["dtman", "compile", "my board.dts", "out", "--depfile", "-"],
            0,
            "out: my\\ board.dts root.h none.dtsi\n",
            "",
        ),
        (
            &[
                "dtman",
                "compile",
                "far.dts",
                "out",
                "-I",
                "in",
                "--depfile",
                "-",
            ],
            0,
            "out: far.dts in/far.h\n",
            "",
        ),
    ];
    rows_end(&rt, FILES, ROWS);
}

/// Where the rule can't be written, there is no blob, and no rule of a source that is refused.
#[test]
fn writes_no_blob_without_its_rule(rt: HostRuntime) {
    const ROWS: &[Writing] = &[
        (
            &[
                "dtman",
                "compile",
                "far.dts",
                "out",
                "-I",
                "in",
                "--depfile",
                "rule",
            ],
            0,
            "",
            BLOB,
        ),
        (
            &[
                "dtman",
                "compile",
                "plain.dts",
                "out",
                "--depfile",
                "locked",
            ],
            3,
            "error 81 CannotWrite locked\n",
            b"",
        ),
        (
            &["dtman", "compile", "lost.dts", "out", "--depfile", "rule"],
            1,
            LOST,
            b"",
        ),
    ];
    rows_write(&rt, FILES, ROWS);
}

#[test]
fn prints_what_the_preprocessor_makes(rt: HostRuntime) {
    const ROWS: &[Row] = &[
        (&["dtman", "check", "board.dts"], 0, "", ""),
        (&["dtman", "check", "asks.dts"], 1, "", ASKS),
        (&["dtman", "cpp", "lost.dts"], 1, "", LOST),
    ];
    rows_end(&rt, FILES, ROWS);
}

/// Two headers of one name, the first of which is the longer one.
const TORN: Files = &[
    ("in.dts", b"#include <a.h>\n"),
    (
        "long/a.h",
        b"/* this one is longer than what can be read of it */\n",
    ),
    ("short/a.h", b"short\n"),
];

const NO_HEADER: &str =
    "error 83 NoHeader\nin.dts:1:10: no file can be read that is named `a.h`\n  |\n1 | #include <a.h>\n  |          ^\n";

/// A header that is there and can't be read to its end: none of its name is taken in its place.
#[test]
fn takes_no_other_header(rt: HostRuntime) {
    let hasher = RandomState::new(&rt).expect(&rt, "a seed");
    let mut shelf = Shelf::new(rt.alloc(), TORN, hasher);
    shelf.fails_at = Some(5);
    let words = ["dtman", "cpp", "in.dts", "-I", "long", "-I", "short"];
    let traces = run_over(&rt, words.as_slice(), &mut shelf, None);
    assert_eq!(rt; traces.status, 1);
    assert_eq!(rt; traces.errors.as_str(), NO_HEADER);
}

#[test]
fn takes_a_header_of_the_next_folder(rt: HostRuntime) {
    let hasher = RandomState::new(&rt).expect(&rt, "a seed");
    let mut shelf = Shelf::new(rt.alloc(), TORN, hasher);
    shelf.fails_at = Some(5);
    let words = ["dtman", "cpp", "in.dts", "-I", "short", "-I", "long"];
    let traces = run_over(&rt, words.as_slice(), &mut shelf, None);
    assert_eq!(rt; traces.status, 0);
}
