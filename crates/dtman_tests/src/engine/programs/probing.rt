//! `plan` and `probe` over files in memory.

use super::clock_and_uart::BLOB;
use crate::runs::{Files, Row, rows_end};

const FILES: Files = &[
    ("board.dtb", BLOB),
    (
        "board.drivers",
        b"driver fixed fixed-clock\ndriver ns ns16550a\n",
    ),
    ("failing.drivers", b"driver ns ns16550a\nfail /serial\n"),
    ("no.drivers", b"driver - ns16550a\n"),
    ("short.dtb", b"\xd0\x0d\xfe\xed"),
];

const REPORT: &str = "/clk bound fixed\n/uart bound ns\nquiet\n";

const PLANS_AND_PROBES: &[Row] = &[
    (
        &["dtman", "plan", "board.dtb", "board.drivers"],
        0,
        "/clk fixed ok\n/uart ns ok /clk\n",
        "",
    ),
    (
        &["dtman", "plan", "board.dtb", "failing.drivers"],
        1,
        "",
        "error 53 UnknownPath line 2\n",
    ),
    (
        &["dtman", "plan", "short.dtb", "no.drivers"],
        1,
        "",
        "error 30 Truncated\n",
    ),
    (
        &["dtman", "plan", "board.dtb", "no.drivers"],
        1,
        "",
        "error 50 BadLine line 1\n",
    ),
    (
        &["dtman", "probe", "board.dtb", "board.drivers"],
        0,
        REPORT,
        "",
    ),
    (
        &[
            "dtman",
            "probe",
            "--workers=64",
            "board.dtb",
            "board.drivers",
        ],
        0,
        REPORT,
        "",
    ),
    (
        &["dtman", "probe", "board.dtb", "nix"],
        3,
        "",
        "error 80 CannotRead nix\n",
    ),
];

#[test]
fn plans_and_probes(rt: HostRuntime) {
    rows_end(&rt, FILES, PLANS_AND_PROBES);
}
