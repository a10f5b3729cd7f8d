//! Refusals in detail: the lines behind the first.

use crate::engine::answers::compiled;
use crate::runs::{Files, Row, ends, rows_end, run_over};
use crate::shelf::Shelf;
use dtman_diagnosis::example_of;
use std::hash::RandomState;
use std::io;
use std::process::Abort;
use std::thread::Threads;

const FILES: Files = &[
    (
        "board.i",
        b"# 3 \"board.dts\"\n/dts-v1/;\n/ {\n\ta = <&b>;\n};\n",
    ),
    ("board.plan", b"/clk fixed ok\n/uart ns ok /clk\n"),
    ("early.schedule", b"begin /uart\nfinish /uart settled\n"),
    ("late.schedule", b"begin /clk\n"),
    (
        "several.dts",
        b"/dts-v1/;\n/ {\n\ta = <08>;\n\tb = <1 2;\n\tc = <1>\n\td = <(1 / 0)>;\n};\n",
    ),
    ("short.dtb", b"\xd0\x0d\xfe\xed"),
    ("bad.drivers", b"driver ns ns16550a\ndriver\n"),
    // the blob of `/ { };`
    (
        "empty.dtb",
        b"\xd0\x0d\xfe\xed\0\0\0\x48\0\0\0\x38\0\0\0\x48\0\0\0\x28\0\0\0\x11\0\0\0\x10\0\0\0\0\0\0\0\0\0\0\0\x10\
\0\0\0\0\0\0\0\0\0\0\0\0\0\0\0\0\0\0\0\x01\0\0\0\0\0\0\0\x02\0\0\0\x09",
    ),
];

const UNKNOWN: &str =
    "error 20 UnknownLabel\nboard.dts:5:7: no node has the label `b`\n  |\n5 | \ta = <&b>;\n  | \t     ^^\n  = in /, property a\n";

const NOT_READY: &str =
    "error 63 NotReady event 2\nearly.schedule:2:1: a supplier of the device isn't bound\n  |\n2 | finish /uart settled\n  | ^^^^^^^^^^^^^^^^^^^^\n  = before it: /uart probing\n  = /uart needs /clk due\n";

const SHORT: &str =
    "error 30 Truncated\nshort.dtb:0x4: the blob is cut\n = wanted is a header of 40 bytes\n";

const NO_OVERLAY: &str =
    "error 40 NotOverlay\nempty.dtb: this is no overlay\n = no child of the root has a child `__overlay__`\n";

const BAD_DRIVERS: &str =
    "error 50 BadLine line 2\nbad.drivers:2:7: the line ends, and more must follow\n  |\n2 | driver\n  |       ^\n  = the form is `driver NAME COMPATIBLE..`\n";

/// Words that can't follow are told first. Values are told behind them alone, so 14 in line 3 isn't.
const SEVERAL: &str =
    "error 10 Syntax line 4\nseveral.dts:4:10: `;` can't stand here\n  |\n4 | \tb = <1 2;\n  | \t        ^\n  = in /, property b\n\nerror 10 Syntax line 6\nseveral.dts:5:9: expected `;`\n  |\n5 | \tc = <1>\n  | \t       ^\n  = in /, property c\n";

const REFUSALS: &[Row] = &[
    (
        &["dtman", "compile", "-v", "several.dts", "out"],
        1,
        "",
        SEVERAL,
    ),
    (
        &["dtman", "compile", "board.i", "out"],
        1,
        "",
        "error 20 UnknownLabel\n",
    ),
    (
        &["dtman", "compile", "-v", "board.i", "out"],
        1,
        "",
        UNKNOWN,
    ),
    (
        &["dtman", "--verbose", "compile", "board.i", "out"],
        1,
        "",
        UNKNOWN,
    ),
    (
        &["dtman", "replay", "board.plan", "early.schedule", "-v"],
        1,
        "",
        NOT_READY,
    ),
    (&["dtman", "-v", "dump", "short.dtb"], 1, "", SHORT),
    (
        &["dtman", "dump", "short.dtb"],
        1,
        "",
        "error 30 Truncated\n",
    ),
    (
        &["dtman", "-v", "overlay", "empty.dtb", "short.dtb", "out"],
        1,
        "",
        SHORT,
    ),
    (
        &["dtman", "-v", "overlay", "empty.dtb", "empty.dtb", "out"],
        1,
        "",
        NO_OVERLAY,
    ),
    (
        &["dtman", "-v", "plan", "short.dtb", "bad.drivers"],
        1,
        "",
        SHORT,
    ),
    (
        &["dtman", "-v", "plan", "empty.dtb", "bad.drivers"],
        1,
        "",
        BAD_DRIVERS,
    ),
    (
        &["dtman", "-v", "probe", "empty.dtb", "bad.drivers"],
        1,
        "",
        BAD_DRIVERS,
    ),
    (
        &["dtman", "probe", "empty.dtb", "bad.drivers"],
        1,
        "",
        "error 50 BadLine line 2\n",
    ),
    (
        &["dtman", "-v", "dump", "nix.dtb"],
        3,
        "",
        "error 80 CannotRead nix.dtb\n",
    ),
    (
        &["dtman", "-v", "replay", "board.plan", "late.schedule"],
        0,
        "/clk probing\n/uart due\nbusy\n",
        "",
    ),
    (
        &["dtman", "dump", "--", "-v"],
        3,
        "",
        "error 80 CannotRead -v\n",
    ),
];

#[test]
fn tells_more_of_a_refusal(rt: HostRuntime) {
    rows_end(&rt, FILES, REFUSALS);
}

// That a run in which standard output fails at once tells the example of a number, where the system says this of it.
fn fails_so<R: AllocGlobal + Threads + Sync + Abort>(
    rt: &R,
    hasher: RandomState,
    words: &[&str],
    number: u8,
    reason: i32,
) {
    let mut shelf = Shelf::new(rt.alloc(), FILES, hasher);
    shelf.reason = Some(io::Error::from_raw_os_error(reason));
    let traces = run_over(rt, words, &mut shelf, Some(0));
    let lines = example_of(number).expect(rt, "an example");
    assert_eq!(rt; traces.errors.as_str(), lines);
    assert_eq!(rt; traces.status, 3);
}

/// ENOENT and EBADF, as the examples of 80 and 81 have them.
#[test]
fn tells_what_the_system_says(rt: HostRuntime) {
    let hasher = RandomState::new(&rt).expect(&rt, "a seed");
    fails_so(&rt, hasher, &["dtman", "-v", "dump", "IN"], 80, 2);
    fails_so(&rt, hasher, &["dtman", "-v", "dump", "empty.dtb"], 81, 9);
}

/// The example of 54, by each command that makes a plan of a tree.
#[test]
fn tells_a_supplier(rt: HostRuntime) {
    let hasher = RandomState::new(&rt).expect(&rt, "a seed");
    let source = "/dts-v1/;/{a{compatible=\"x\"; clocks=<7>;};};";
    let blob = compiled(&rt, rt.alloc(), hasher, source, false);
    let files = [("BLOB", blob.as_slice()), ("none", b"".as_slice())];
    let lines = example_of(54).expect(&rt, "an example");
    let mut shelf = Shelf::new(rt.alloc(), &files, hasher);
    for command in ["plan", "probe"] {
        let words = ["dtman", "-v", command, "BLOB", "none"];
        ends(&rt, &words, &mut shelf, 1, "", lines);
    }
}

/// Nodes, properties and devices that aren't there, beside those that are: words behind the command, and what is told.
const MISSING: &[(&[&str], &str)] = &[
    (
        &["dtman", "-v", "get", "BLOB", "/uart@5000"],
        "error 53 UnknownPath\nBLOB: no node has the path `/uart@5000`\n = nodes there that are spelled alike: uart@50000\n",
    ),
    (
        &["dtman", "-v", "ls", "BLOB", "uart@50000"],
        "error 53 UnknownPath\nBLOB: no node has the path `uart@50000`\n = a path begins with a slash\n",
    ),
    (
        &["dtman", "-v", "get", "BLOB", "/uart@50000", "statos"],
        "error 53 UnknownPath\nBLOB: the node has no property `statos`\n = in /uart@50000\n = properties there that are spelled alike: status\n",
    ),
    (
        &["dtman", "-v", "needs", "BLOB", "none", "/uart@5000"],
        "error 53 UnknownPath\nno device has the path `/uart@5000`\n = paths that are like it: /uart@50000\n",
    ),
    (
        &["dtman", "-v", "why", "BLOB", "none", "/bus"],
        "error 53 UnknownPath\nno device has the path `/bus`\n = the node there has no `compatible`, so it is no device\n",
    ),
    (
        &["dtman", "-v", "plan", "BLOB", "fails"],
        "error 53 UnknownPath line 2\nfails:2:6: no device has the path `/bus`\n  |\n2 | fail /bus\n  |      ^^^^\n  = the node there has no `compatible`, so it is no device\n",
    ),
    (
        &["dtman", "-v", "plan", "BLOB", "links"],
        "error 50 BadLine line 1\nlinks:1:1: `early` can't stand here\n  |\n1 | early x\n  | ^^^^^\n  = lines `early` and `bus` count with `--links linux` alone\n",
    ),
];

#[test]
fn tells_what_is_spelled_alike(rt: HostRuntime) {
    let hasher = RandomState::new(&rt).expect(&rt, "a seed");
    let source = "/dts-v1/;/{uart@50000{status=\"okay\"; compatible=\"x\";}; bus{};};";
    let blob = compiled(&rt, rt.alloc(), hasher, source, false);
    let files = [
        ("BLOB", blob.as_slice()),
        ("none", b"".as_slice()),
        ("fails", b"driver x x\nfail /bus\n".as_slice()),
        ("links", b"early x\n".as_slice()),
    ];
    let mut shelf = Shelf::new(rt.alloc(), &files, hasher);
    for (words, lines) in MISSING {
        ends(&rt, *words, &mut shelf, 1, "", *lines);
    }
}
