//! `replay` over files in memory, with drivers that come late.

use crate::runs::{Files, Row, rows_end};

const FILES: Files = &[
    (
        "board.plan",
        b"/clk fixed ok\n/uart - - /clk\ncompatible /uart ns16550a\n",
    ),
    (
        "late.schedule",
        b"begin /clk\nfinish /clk settled\ndriver ns ns16550a\n",
    ),
    ("known.schedule", b"driver fixed ns16550a\n"),
    ("no.schedule", b"driver ns\n"),
];

const END: &str = "/clk bound fixed\n/uart bound ns\nquiet\n";

const REPLAYS: &[Row] = &[
    (
        &["dtman", "replay", "board.plan", "late.schedule"],
        0,
        "/clk bound fixed\n/uart due\nbusy\n",
        "",
    ),
    (
        &[
            "dtman",
            "replay",
            "board.plan",
            "late.schedule",
            "--workers",
            "2",
        ],
        0,
        END,
        "",
    ),
    (
        &[
            "dtman",
            "replay",
            "--workers=64",
            "board.plan",
            "late.schedule",
        ],
        0,
        END,
        "",
    ),
    (
        &["dtman", "replay", "board.plan", "known.schedule"],
        1,
        "",
        "error 67 KnownDriver event 1\n",
    ),
    (
        &[
            "dtman",
            "replay",
            "board.plan",
            "known.schedule",
            "--workers",
            "1",
        ],
        1,
        "",
        "error 67 KnownDriver event 1\n",
    ),
    (
        &[
            "dtman",
            "replay",
            "board.plan",
            "no.schedule",
            "--workers=1",
        ],
        1,
        "",
        "error 50 BadLine line 1\n",
    ),
    (
        &["dtman", "replay", "board.plan", "nix", "--workers", "1"],
        3,
        "",
        "error 80 CannotRead nix\n",
    ),
];

#[test]
fn replays_and_goes_on(rt: HostRuntime) {
    rows_end(&rt, FILES, REPLAYS);
}
