//! `plan`, `probe`, `why` and `needs` by the links of Linux, over files in memory.

use super::questions::FILES;
use crate::runs::{Row, rows_end};

// Questions about a board by the links of Linux, and what is refused of them.
const BY_LINKS_OF_LINUX: &[Row] = &[
    (
        &[
            "dtman",
            "plan",
            "board.dtb",
            "uart.drivers",
            "--links=linux",
        ],
        0,
        "/clk - -\n/uart ns ok /clk\ncompatible /clk fixed-clock\n",
        "",
    ),
    (
        &[
            "dtman",
            "plan",
            "board.dtb",
            "uart.drivers",
            "--links=linux",
            "--late",
        ],
        0,
        "/clk - -\n/uart ns ok\ncompatible /clk fixed-clock\n",
        "",
    ),
    (
        &[
            "dtman",
            "plan",
            "board.dtb",
            "uart.drivers",
            "--links=linux",
            "--late",
            "--dot",
        ],
        2,
        "",
        "error: --late: not beside --dot or --html\n",
    ),
    (
        &[
            "dtman",
            "plan",
            "board.dtb",
            "early.drivers",
            "--links=linux",
        ],
        0,
        "# early /clk\n/clk - -\n/uart ns ok\ncompatible /clk fixed-clock\n",
        "",
    ),
    (
        &[
            "dtman",
            "probe",
            "board.dtb",
            "early.drivers",
            "--links=linux",
        ],
        0,
        "/clk unmatched\n/uart bound ns\nquiet\n",
        "",
    ),
    (
        &[
            "dtman",
            "why",
            "board.dtb",
            "uart.drivers",
            "--links=linux",
            "--check",
        ],
        0,
        "/uart waits for /clk (clocks): no driver matches \"fixed-clock\" (until the timeout: 10 s); bound behind the timeout by ns\n",
        "",
    ),
    (
        &[
            "dtman",
            "why",
            "board.dtb",
            "uart.drivers",
            "--links=linux",
            "--timeout=never",
            "--check",
        ],
        1,
        "/uart waits for /clk (clocks): no driver matches \"fixed-clock\"\n",
        "",
    ),
    (
        &[
            "dtman",
            "why",
            "board.dtb",
            "uart.drivers",
            "/uart",
            "--links=linux",
            "--timeout",
            "30",
            "--check",
        ],
        0,
        "/uart waits for /clk (clocks): no driver matches \"fixed-clock\" (until the timeout: 30 s); bound behind the timeout by ns\n",
        "",
    ),
    (
        &[
            "dtman",
            "why",
            "board.dtb",
            "stuck.drivers",
            "--links=linux",
        ],
        0,
        "/uart waits for /clk (clocks): no driver matches \"fixed-clock\" (until the timeout: 10 s); failed behind the timeout by ns\n",
        "",
    ),
    (
        &[
            "dtman",
            "why",
            "board.dtb",
            "uart.drivers",
            "/clk",
            "--links=linux",
            "--check",
        ],
        1,
        "/clk: no driver matches \"fixed-clock\"\n",
        "",
    ),
    (
        &[
            "dtman",
            "needs",
            "board.dtb",
            "early.drivers",
            "/uart",
            "--links=linux",
        ],
        0,
        "/uart ns\ndrivers ns\n",
        "",
    ),
    (
        &[
            "dtman",
            "plan",
            "dangling.dtb",
            "board.drivers",
            "--links=linux",
        ],
        0,
        "/clk fixed ok\n/uart ns ok\n",
        "warning: /uart: clocks: entry 0 is malformed or leads nowhere\n",
    ),
    (
        &["dtman", "plan", "dangling.dtb", "board.drivers"],
        1,
        "",
        "error 54 DanglingPhandle\n",
    ),
    (
        &[
            "dtman",
            "probe",
            "board.dtb",
            "board.drivers",
            "--links=linux",
            "--without=fixed",
        ],
        0,
        "/clk unmatched\n/uart waiting /clk (until the timeout: 10 s)\n/uart bound behind the timeout by ns\nquiet\n",
        "",
    ),
    (
        &[
            "dtman",
            "probe",
            "board.dtb",
            "uart.drivers",
            "--links=linux",
            "--timeout=never",
        ],
        0,
        "/clk unmatched\n/uart waiting /clk\nquiet\n",
        "",
    ),
    (
        &[
            "dtman",
            "probe",
            "board.dtb",
            "stuck.drivers",
            "--links=linux",
            "--timeout=3",
        ],
        0,
        "/clk unmatched\n/uart waiting /clk (until the timeout: 3 s)\n/uart failed behind the timeout by ns\nquiet\n",
        "",
    ),
    (
        &[
            "dtman",
            "probe",
            "board.dtb",
            "uart.drivers",
            "--links=linux",
            "--timeout=soon",
        ],
        2,
        "",
        "error: soon: no number of seconds, nor never\n",
    ),
    (
        &[
            "dtman",
            "why",
            "board.dtb",
            "board.drivers",
            "/nix",
            "--links=linux",
        ],
        1,
        "",
        "error 53 UnknownPath\n",
    ),
    (
        &["dtman", "plan", "board.dtb", "board.drivers", "--links=bsd"],
        2,
        "",
        "error: no links are those of bsd; `linux` has some\n",
    ),
    (
        &["dtman", "plan", "board.dtb", "early.drivers"],
        1,
        "",
        "error 50 BadLine line 1\n",
    ),
];

// A serial port that names a clock which is disabled.
const DISABLED_SUPPLIERS: &[Row] = &[
    (
        &[
            "dtman",
            "why",
            "disabled.dtb",
            "board.drivers",
            "--links=linux",
            "--check",
        ],
        0,
        "/uart: bound by the links; its driver will not find /clk, which is disabled (clocks)\n",
        "",
    ),
    (
        &[
            "dtman",
            "why",
            "disabled.dtb",
            "board.drivers",
            "/uart",
            "--links=linux",
        ],
        0,
        "/uart: bound by ns\n/uart: bound by the links; its driver will not find /clk, which is disabled (clocks)\n",
        "",
    ),
    (
        &[
            "dtman",
            "why",
            "disabled.dtb",
            "board.drivers",
            "/clk",
            "--links=linux",
        ],
        0,
        "/clk: disabled\n",
        "",
    ),
    (
        &[
            "dtman",
            "probe",
            "disabled.dtb",
            "board.drivers",
            "--links=linux",
            "--strict",
        ],
        0,
        "/clk disabled\n/uart bound ns\n/uart bound by the links; its driver will not find /clk, which is disabled (clocks)\nquiet\n",
        "",
    ),
    (
        &[
            "dtman",
            "probe",
            "disabled.dtb",
            "board.drivers",
            "--links=linux",
        ],
        0,
        "/clk disabled\n/uart bound ns\nquiet\n",
        "",
    ),
    (
        &[
            "dtman",
            "probe",
            "disabled.dtb",
            "no.drivers",
            "--links=linux",
            "--strict",
        ],
        0,
        "/clk disabled\n/uart unmatched\nquiet\n",
        "",
    ),
    (
        &[
            "dtman",
            "plan",
            "disabled.dtb",
            "board.drivers",
            "--links=linux",
        ],
        0,
        "/clk ! -\n/uart ns ok\n",
        "",
    ),
];

#[test]
fn tells_suppliers_that_are_disabled(rt: HostRuntime) {
    rows_end(&rt, FILES, DISABLED_SUPPLIERS);
}

#[test]
fn answers_by_the_links_of_linux(rt: HostRuntime) {
    rows_end(&rt, FILES, BY_LINKS_OF_LINUX);
}
