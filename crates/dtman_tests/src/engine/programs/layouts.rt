//! `fmt`: sources in the kernel's style.

use crate::runs::{Files, Row, Writing, rows_end, rows_write, run_over};
use crate::shelf::Shelf;
use std::hash::RandomState;

const FILES: Files = &[
    ("wide.dts", b"/ {\nuart@50000{ status=\"okay\";\n};\n};\n"),
    ("neat.dts", NEAT_BYTES),
    ("thin.dts", b"/ {\na;\n};\n"),
    ("hex.dts", b"/ {\n\ta = <0XAB>;\n};\n"),
    ("open.dts", b"/ {\n"),
    ("stray.dts", b"/ {\n};\n};\n"),
];

const NEAT: &str = "/ {\n\tuart@50000 {\n\t\tstatus = \"okay\";\n\t};\n};\n";

/// The same as bytes.
const NEAT_BYTES: &[u8] = b"/ {\n\tuart@50000 {\n\t\tstatus = \"okay\";\n\t};\n};\n";

const TOLD: &[Row] = &[
    (&["dtman", "fmt", "wide.dts"], 0, NEAT, ""),
    (&["dtman", "fmt", "neat.dts"], 0, NEAT, ""),
    (
        &["dtman", "fmt", "hex.dts"],
        0,
        "/ {\n\ta = <0XAB>;\n};\n",
        "",
    ),
    (
        &["dtman", "fmt", "--hex", "hex.dts"],
        0,
        "/ {\n\ta = <0xab>;\n};\n",
        "",
    ),
    (&["dtman", "fmt", "--check", "neat.dts"], 0, "", ""),
    (&["dtman", "fmt", "--diff", "neat.dts"], 0, "", ""),
    (
        &["dtman", "fmt", "--check", "wide.dts"],
        1,
        "wide.dts\n",
        "",
    ),
    (
        &["dtman", "fmt", "--diff", "thin.dts"],
        1,
        "--- thin.dts\n+++ thin.dts\n@@ -1,3 +1,3 @@\n / {\n-a;\n+\ta;\n };\n",
        "",
    ),
    (
        &["dtman", "fmt", "open.dts"],
        1,
        "",
        "error 10 Syntax line 1\nopen.dts:1:3: this brace isn't closed\n",
    ),
    (
        &["dtman", "fmt", "--check", "stray.dts"],
        1,
        "",
        "error 10 Syntax line 3\nstray.dts:3:1: this brace closes nothing\n",
    ),
    (
        &["dtman", "fmt", "--json", "open.dts"],
        1,
        "",
        "{\"file\":\"open.dts\",\"line\":1,\"column\":3,\"end\":4,\"severity\":\"error\",\"number\":10,\"name\":\"Syntax\",\"message\":\"what begins here isn't closed\",\"notes\":[\"this brace isn't closed\"]}\n",
    ),
    (
        &["dtman", "fmt", "none.dts"],
        3,
        "",
        "error 80 CannotRead none.dts\n",
    ),
];

#[test]
fn lays_sources_out(rt: HostRuntime) {
    rows_end(&rt, FILES, TOLD);
}

#[test]
fn writes_sources(rt: HostRuntime) {
    const ROWS: &[Writing] = &[
        (
            &["dtman", "fmt", "wide.dts", "-o", "out"],
            0,
            "",
            NEAT_BYTES,
        ),
        // what is looked at alone is written nowhere
        (
            &["dtman", "fmt", "--check", "neat.dts", "--out", "out"],
            0,
            "",
            b"",
        ),
        (
            &["dtman", "fmt", "neat.dts", "-o", "locked"],
            3,
            "error 81 CannotWrite locked\n",
            b"",
        ),
    ];
    rows_write(&rt, FILES, ROWS);
}

#[test]
fn lays_standard_input_out(rt: HostRuntime) {
    let hasher = RandomState::new(&rt).expect(&rt, "a seed");
    let mut shelf = Shelf::new(rt.alloc(), FILES, hasher);
    shelf.input = b"/ {\nb;\n};\n";
    let words = ["dtman", "fmt", "-"];
    let traces = run_over(&rt, words.as_slice(), &mut shelf, None);
    assert_eq!(rt; traces.status, 0);
    assert_eq!(rt; traces.output.as_slice(), b"/ {\n\tb;\n};\n".as_slice());
}
