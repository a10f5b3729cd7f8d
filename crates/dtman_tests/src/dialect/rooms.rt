//! The room that options ask for in a blob: its size, and where its blocks begin, as dtc 1.6.1 has them.

use crate::runs::{Left, left_by};
use crate::shelf::Shelf;
use std::hash::RandomState;
use std::process::Abort;
use std::thread::Threads;

const FILES: &[(&str, &[u8])] = &[
    ("a.dts", b"/dts-v1/; / { };"),
    (
        "b.dts",
        b"/dts-v1/; /memreserve/ 0x1000 0x10; / { x = <1>; };",
    ),
];

/// The words, and the size, the place of the structure block and that of the strings.
struct Row {
    words: &'static [&'static str],
    size: u8,
    structure_at: u8,
    strings_at: u8,
}

const ROOMS: &[Row] = &[
    Row {
        words: &["dtc", "-q", "a.dts"],
        size: 72,
        structure_at: 56,
        strings_at: 72,
    },
    Row {
        words: &["dtc", "-q", "-S", "100", "a.dts"],
        size: 100,
        structure_at: 56,
        strings_at: 72,
    },
    Row {
        words: &["dtc", "-q", "-S", "100", "b.dts"],
        size: 106,
        structure_at: 72,
        strings_at: 104,
    },
    Row {
        words: &["dtc", "-q", "-p", "10", "-a", "16", "a.dts"],
        size: 96,
        structure_at: 56,
        strings_at: 72,
    },
    Row {
        words: &["dtc", "-q", "-R", "2", "b.dts"],
        size: 138,
        structure_at: 104,
        strings_at: 136,
    },
    Row {
        words: &["dtc", "-q", "-R", "1", "-p", "1", "-a", "64", "b.dts"],
        size: 128,
        structure_at: 88,
        strings_at: 120,
    },
];

fn gives<R: Abort + AllocGlobal + Threads + Sync>(rt: &R, hasher: RandomState, row: &Row) {
    let mut shelf = Shelf::new(rt.alloc(), FILES, hasher);
    let Left { status, text } = left_by(rt, row.words, &mut shelf);
    assert_eq!(rt; status, 0);
    assert_eq!(rt; text.len(), row.size as usize);
    assert_eq!(rt; text.get(4..8), Some([0, 0, 0, row.size].as_slice()));
    assert_eq!(rt;
        text.get(8..12),
        Some([0, 0, 0, row.structure_at].as_slice())
    );
    assert_eq!(rt;
        text.get(12..16),
        Some([0, 0, 0, row.strings_at].as_slice())
    );
}

#[test]
fn rooms(rt: HostRuntime) {
    let hasher = RandomState::new(&rt).expect(&rt, "a seed");
    for row in ROOMS {
        gives(&rt, hasher, row);
    }
}
