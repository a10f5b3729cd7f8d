//! Refusals of each command as objects of JSON.

use crate::runs::{Files, Row, ends, rows_end, run_over};
use crate::shelf::Shelf;
use std::hash::RandomState;
use std::io;
use std::process::Abort;

const FILES: Files = &[
    (
        "board.i",
        b"# 3 \"board.dts\"\n/dts-v1/;\n/ {\n\ta = <&b>;\n};\n",
    ),
    ("board.plan", b"/clk fixed ok\n/uart ns ok /clk\n"),
    ("early.schedule", b"begin /uart\nfinish /uart settled\n"),
    ("over.dts", b"/dts-v1/;\n/include/ \"root.dtsi\"\n"),
    ("short.dtb", b"\xd0\x0d\xfe\xed"),
    ("bad.drivers", b"driver ns ns16550a\ndriver\n"),
    ("none", b""),
    // the blob of `/ { };`
    (
        "empty.dtb",
        b"\xd0\x0d\xfe\xed\0\0\0\x48\0\0\0\x38\0\0\0\x48\0\0\0\x28\0\0\0\x11\0\0\0\x10\0\0\0\0\0\0\0\0\0\0\0\x10\
\0\0\0\0\0\0\0\0\0\0\0\0\0\0\0\0\0\0\0\x01\0\0\0\0\0\0\0\x02\0\0\0\x09",
    ),
];

const ROWS: &[Row] = &[
    (
        &["dtman", "compile", "--json", "board.i", "out"],
        1,
        "",
        "{\"file\":\"board.dts\",\"line\":5,\"column\":7,\"end\":9,\"severity\":\"error\",\"number\":20,\"name\":\"UnknownLabel\",\"path\":\"/\",\"property\":\"a\",\"message\":\"no node has the label `b`\"}\n",
    ),
    (
        &["dtman", "--json", "compile", "board.i", "out"],
        1,
        "",
        "{\"file\":\"board.dts\",\"line\":5,\"column\":7,\"end\":9,\"severity\":\"error\",\"number\":20,\"name\":\"UnknownLabel\",\"path\":\"/\",\"property\":\"a\",\"message\":\"no node has the label `b`\"}\n",
    ),
    (
        &["dtman", "compile", "-v", "board.i", "out", "--json"],
        1,
        "",
        "{\"file\":\"board.dts\",\"line\":5,\"column\":7,\"end\":9,\"severity\":\"error\",\"number\":20,\"name\":\"UnknownLabel\",\"path\":\"/\",\"property\":\"a\",\"message\":\"no node has the label `b`\"}\n",
    ),
    (
        &["dtman", "compile", "--dtc", "--json", "over.dts", "out"],
        3,
        "",
        "{\"file\":\"over.dts\",\"line\":2,\"column\":1,\"end\":22,\"severity\":\"error\",\"number\":80,\"name\":\"CannotRead\",\"message\":\"no file can be read that is named `root.dtsi`\"}\n",
    ),
    (
        &["dtman", "dump", "short.dtb", "--json"],
        1,
        "",
        "{\"file\":\"short.dtb\",\"offset\":4,\"severity\":\"error\",\"number\":30,\"name\":\"Truncated\",\"message\":\"the blob is cut\",\"notes\":[\"wanted is a header of 40 bytes\"]}\n",
    ),
    (
        &["dtman", "dump", "nix.dtb", "--json"],
        3,
        "",
        "{\"file\":\"nix.dtb\",\"severity\":\"error\",\"number\":80,\"name\":\"CannotRead\",\"message\":\"the file can't be read\"}\n",
    ),
    (
        &[
            "dtman",
            "overlay",
            "--json",
            "empty.dtb",
            "empty.dtb",
            "out",
        ],
        1,
        "",
        "{\"file\":\"empty.dtb\",\"severity\":\"error\",\"number\":40,\"name\":\"NotOverlay\",\"message\":\"this is no overlay\",\"notes\":[\"no child of the root has a child `__overlay__`\"]}\n",
    ),
    (
        &["dtman", "plan", "--json", "empty.dtb", "bad.drivers"],
        1,
        "",
        "{\"file\":\"bad.drivers\",\"line\":2,\"column\":7,\"end\":8,\"severity\":\"error\",\"number\":50,\"name\":\"BadLine\",\"message\":\"the line ends, and more must follow\",\"notes\":[\"the form is `driver NAME COMPATIBLE..`\"]}\n",
    ),
    (
        &["dtman", "replay", "--json", "board.plan", "early.schedule"],
        1,
        "",
        "{\"file\":\"early.schedule\",\"line\":2,\"column\":1,\"end\":21,\"severity\":\"error\",\"number\":63,\"name\":\"NotReady\",\"message\":\"a supplier of the device isn't bound\",\"notes\":[\"before it: /uart probing\",\"/uart needs /clk due\"]}\n",
    ),
    (
        &["dtman", "get", "--json", "empty.dtb", "/nix"],
        1,
        "",
        "{\"file\":\"empty.dtb\",\"severity\":\"error\",\"number\":53,\"name\":\"UnknownPath\",\"message\":\"no node has the path `/nix`\"}\n",
    ),
    (
        &["dtman", "needs", "--json", "empty.dtb", "none", "/nix"],
        1,
        "",
        "{\"severity\":\"error\",\"number\":53,\"name\":\"UnknownPath\",\"message\":\"no device has the path `/nix`\"}\n",
    ),
    (
        &["dtman", "diff", "--json", "empty.dtb", "short.dtb"],
        1,
        "",
        "{\"file\":\"short.dtb\",\"offset\":4,\"severity\":\"error\",\"number\":30,\"name\":\"Truncated\",\"message\":\"the blob is cut\",\"notes\":[\"wanted is a header of 40 bytes\"]}\n",
    ),
    (
        &["dtman", "explain", "99", "--json"],
        2,
        "",
        "error: no error has the number 99\n",
    ),
    (
        &["dtman", "dump", "--", "--json"],
        3,
        "",
        "error 80 CannotRead --json\n",
    ),
];

#[test]
fn refusals_are_objects(rt: HostRuntime) {
    rows_end(&rt, FILES, ROWS);
}

/// EBADF.
#[test]
fn tells_what_the_system_says(rt: HostRuntime) {
    let hasher = RandomState::new(&rt).expect(&rt, "a seed");
    let mut shelf = Shelf::new(rt.alloc(), FILES, hasher);
    shelf.reason = Some(io::Error::from_raw_os_error(9));
    let traces = run_over(
        &rt,
        &["dtman", "dump", "empty.dtb", "--json"],
        &mut shelf,
        Some(0),
    );
    assert_eq!(&rt; traces.status, 3);
    assert_eq!(&rt;
        traces.errors.as_str(),
        "{\"file\":\"stdout\",\"severity\":\"error\",\"number\":81,\"name\":\"CannotWrite\",\"message\":\"the file can't be written\",\"notes\":[\"Bad file descriptor (os error 9)\"]}\n"
    );
}

#[test]
fn tells_that_there_is_no_seed(rt: HostRuntime) {
    let hasher = RandomState::new(&rt).expect(&rt, "a seed");
    let mut shelf = Shelf::new(rt.alloc(), FILES, hasher);
    shelf.seed = None;
    let words = ["dtman", "replay", "--json", "board.plan", "early.schedule"];
    let object =
        "{\"file\":\"random\",\"severity\":\"error\",\"number\":80,\"name\":\"CannotRead\",\"message\":\"the file can't be read\"}\n";
    ends(&rt, &words, &mut shelf, 3, "", object);
}
