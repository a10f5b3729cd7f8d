//! `compile` over files in memory: what stands in OUT, and when it is opened at all.

use crate::runs::{Files, Writing, rows_write};

const FILES: Files = &[
    ("board.dts", b"/dts-v1/; / { };"),
    ("bad.dts", b"/dts-v1/; / {"),
    ("lost.dts", b"/dts-v1/; / { r = <&nix>; };"),
];

/// The blob of an empty root.
pub const BLOB: &[u8] =
    b"\xd0\x0d\xfe\xed\0\0\0\x48\0\0\0\x38\0\0\0\x48\0\0\0\x28\0\0\0\x11\0\0\0\x10\0\0\0\0\0\0\0\0\0\0\0\x10\
\0\0\0\0\0\0\0\0\0\0\0\0\0\0\0\0\0\0\0\x01\0\0\0\0\0\0\0\x02\0\0\0\x09";

#[test]
fn compiles_to_a_file(rt: HostRuntime) {
    const ROWS: &[Writing] = &[
        (&["dtman", "compile", "board.dts", "out"], 0, "", BLOB),
        (
            &["dtman", "compile", "--symbols", "board.dts", "out"],
            0,
            "",
            BLOB,
        ),
        (
            &["dtman", "compile", "bad.dts", "out"],
            1,
            "error 10 Syntax line 1\n",
            b"",
        ),
        (
            &["dtman", "compile", "lost.dts", "out"],
            1,
            "error 20 UnknownLabel\n",
            b"",
        ),
        (
            &["dtman", "compile", "nix.dts", "out"],
            3,
            "error 80 CannotRead nix.dts\n",
            b"",
        ),
        (
            &["dtman", "compile", "board.dts", "locked"],
            3,
            "error 81 CannotWrite locked\n",
            b"",
        ),
        // OUT isn't opened where the source is refused.
        (
            &["dtman", "compile", "bad.dts", "locked"],
            1,
            "error 10 Syntax line 1\n",
            b"",
        ),
    ];
    rows_write(&rt, FILES, ROWS);
}
