//! `overlay` over files in memory: what stands in OUT, and when it is opened at all.

use super::compiling::BLOB as BASE;
use crate::runs::{Files, Writing, row_writes, rows_write};
use dtman_engine::compile_bytes;
use std::alloc::Global;
use std::hash::RandomState;
use std::process::Abort;

/// An overlay, written as an ordinary source: its one fragment gives the root a property.
const OVERLAY: &str = "/dts-v1/; / { fragment@0 { target-path = \"/\"; __overlay__ { a; }; }; };";

/// The blob of the source `/ { a; };`.
const BLOB: &[u8] =
    b"\xd0\x0d\xfe\xed\0\0\0\x56\0\0\0\x38\0\0\0\x54\0\0\0\x28\0\0\0\x11\0\0\0\x10\0\0\0\0\0\0\0\x02\0\0\0\x1c\
\0\0\0\0\0\0\0\0\0\0\0\0\0\0\0\0\0\0\0\x01\0\0\0\0\0\0\0\x03\0\0\0\0\0\0\0\0\0\0\0\x02\0\0\0\x09a\0";

/// The blob of a source that compiles.
fn compiled(rt: &impl Abort, alloc: Global, hasher: RandomState, source: &str) -> Vec<u8> {
    compile_bytes(alloc, hasher, source.as_bytes(), false)
        .ok()
        .expect(rt, "a source that compiles")
}

#[test]
fn applies_to_a_file(rt: HostRuntime) {
    const ROWS: &[Writing] = &[
        (
            &["dtman", "overlay", "base.dtb", "over.dtbo", "out"],
            0,
            "",
            BLOB,
        ),
        (
            &["dtman", "overlay", "base.dtb", "base.dtb", "out"],
            1,
            "error 40 NotOverlay\n",
            b"",
        ),
        (
            &["dtman", "overlay", "base.dtb", "over.dtbo", "locked"],
            3,
            "error 81 CannotWrite locked\n",
            b"",
        ),
        // OUT isn't opened where the overlay is refused.
        (
            &["dtman", "overlay", "base.dtb", "base.dtb", "locked"],
            1,
            "error 40 NotOverlay\n",
            b"",
        ),
    ];
    let hasher = RandomState::new(&rt).expect(&rt, "a seed");
    let overlay = compiled(&rt, rt.alloc(), hasher, OVERLAY);
    let files = [("base.dtb", BASE), ("over.dtbo", overlay.as_slice())];
    for row in ROWS {
        row_writes(&rt, files.as_slice(), hasher, row);
    }
}

const FILES: Files = &[
    ("base.dtb", BASE),
    ("short.dtb", b"\xd0\x0d\xfe\xed"),
    ("zeros.dtb", &[0; 40]),
];

#[test]
fn tells_blobs_that_cannot_be_read(rt: HostRuntime) {
    const ROWS: &[Writing] = &[
        // Both files are read before any is parsed, in the order of the line.
        (
            &["dtman", "overlay", "short.dtb", "nix", "out"],
            3,
            "error 80 CannotRead nix\n",
            b"",
        ),
        (
            &["dtman", "overlay", "nix", "nought", "out"],
            3,
            "error 80 CannotRead nix\n",
            b"",
        ),
        (
            &["dtman", "overlay", "zeros.dtb", "short.dtb", "out"],
            1,
            "error 31 BadMagic\n",
            b"",
        ),
        (
            &["dtman", "overlay", "short.dtb", "zeros.dtb", "out"],
            1,
            "error 30 Truncated\n",
            b"",
        ),
        (
            &["dtman", "overlay", "base.dtb", "zeros.dtb", "out"],
            1,
            "error 31 BadMagic\n",
            b"",
        ),
    ];
    rows_write(&rt, FILES, ROWS);
}
