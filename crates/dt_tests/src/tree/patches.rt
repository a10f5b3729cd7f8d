//! Blobs changed in place.
use super::blobs::{ONE_CELL, blob, changed};
use dt_patch::{PatchError, set, set_in_place};
use std::alloc::Global;
use std::process::Abort;

// What a change of one-cell's blob is asked for, and how it ends.
const CHANGES: &[(&str, &[u8], &[u8], &[u8], Option<PatchError>)] = &[
    ("set", b"/", b"a", b"\0\0\0\x07", None),
    (
        "another length",
        b"/",
        b"a",
        b"\0\0\0\0\x07",
        Some(PatchError::OtherLength),
    ),
    (
        "no node",
        b"/b",
        b"a",
        b"\0\0\0\x07",
        Some(PatchError::NoNode),
    ),
    (
        "no property",
        b"/",
        b"b",
        b"\0\0\0\x07",
        Some(PatchError::NoProperty),
    ),
    (
        "no path",
        b"a",
        b"a",
        b"\0\0\0\x07",
        Some(PatchError::BadPath),
    ),
];

fn told(answer: Result<(), PatchError>) -> Option<PatchError> {
    match answer {
        Ok(()) => None,
        Err(error) => Some(error),
    }
}

// A change that is made writes the value at 76, and one that isn't writes nothing.
fn is_changed_so(
    rt: &impl Abort,
    alloc: Global,
    row: &(&str, &[u8], &[u8], &[u8], Option<PatchError>),
) {
    let mut bytes = Vec::from_slice(alloc, ONE_CELL).expect(rt, "memory");
    let end = set_in_place(bytes.as_mut_slice(), row.1, row.2, row.3);
    assert_eq!(rt; told(end), row.4, "{}", row.0);
    let wanted = match row.4 {
        None => changed(rt, alloc, ONE_CELL, 76, 7),
        Some(_) => Vec::from_slice(alloc, ONE_CELL).expect(rt, "memory"),
    };
    assert!(rt; bytes.as_slice() == wanted.as_slice(), "{}", row.0);
}

#[test]
fn sets_in_place(rt: HostRuntime) {
    for row in CHANGES {
        is_changed_so(&rt, rt.alloc(), row);
    }
}

#[test]
fn unordered_blocks(rt: HostRuntime) {
    let mut bytes = changed(&rt, rt.alloc(), ONE_CELL, 0x14, 16);
    let end = set_in_place(bytes.as_mut_slice(), b"/", b"a", b"\0\0\0\x07");
    assert_eq!(&rt; told(end), Some(PatchError::Unordered));
}

// One-cell's tree once a property of its root is set: the property, words of the structure block, and strings.
const SETS: &[(&[u8], &[u8], &[u32], &[u8])] = &[
    (
        b"a",
        b"\0\0\0\x07\0\0\0\x08",
        &[1, 0, 3, 8, 0, 7, 8, 2, 9],
        b"a\0",
    ),
    (b"a", b"", &[1, 0, 3, 0, 0, 2, 9], b"a\0"),
    (b"a", b"ab\0", &[1, 0, 3, 3, 0, 0x61620000, 2, 9], b"a\0"),
    (
        b"b",
        b"\0\0\0\x05",
        &[1, 0, 3, 4, 0, 1, 3, 4, 2, 5, 2, 9],
        b"a\0b\0",
    ),
    (b"ba", b"", &[1, 0, 3, 4, 0, 1, 3, 0, 2, 2, 9], b"a\0ba\0"),
];

/// The bytes, and behind them zero bytes up to a length.
fn with_room(rt: &impl Abort, alloc: Global, bytes: &[u8], length: usize) -> Vec<u8> {
    let mut roomy = Vec::from_slice(alloc, bytes).expect(rt, "memory");
    for _ in bytes.len()..length {
        roomy.push(0).expect(rt, "memory");
    }
    roomy
}

fn is_set_so(rt: &impl Abort, alloc: Global, row: &(&[u8], &[u8], &[u32], &[u8])) {
    let made = blob(rt, alloc, row.2, row.3);
    let size = made.len().max(ONE_CELL.len());
    let told_size = u32::try_from(size).expect(rt, "a blob's size");
    let wanted = changed(rt, alloc, made.as_slice(), 4, told_size);
    let mut bytes = with_room(rt, alloc, ONE_CELL, size);
    let end = set(bytes.as_mut_slice(), b"/", row.0, row.1);
    assert_eq!(rt; told(end), None);
    assert!(rt; bytes.as_slice().starts_with(wanted.as_slice()));
}

#[test]
fn sets(rt: HostRuntime) {
    for row in SETS {
        is_set_so(&rt, rt.alloc(), row);
    }
}

#[test]
fn short_of_room(rt: HostRuntime) {
    let alloc = rt.alloc();
    let mut bytes = with_room(&rt, alloc, ONE_CELL, 107);
    let before = with_room(&rt, alloc, ONE_CELL, 107);
    let end = set(bytes.as_mut_slice(), b"/", b"b", b"\0\0\0\x05");
    assert_eq!(&rt; told(end), Some(PatchError::Short(108)));
    assert!(&rt; bytes.as_slice() == before.as_slice());
}

// What isn't set, and why.
const UNSET: &[(&[u8], &[u8], PatchError)] = &[
    (b"a", b"a", PatchError::BadPath),
    (b"/b", b"a", PatchError::NoNode),
    (b"/", b"a b", PatchError::BadName),
];

#[test]
fn is_not_set(rt: HostRuntime) {
    for row in UNSET {
        let mut bytes = with_room(&rt, rt.alloc(), ONE_CELL, 128);
        let end = set(bytes.as_mut_slice(), row.0, row.1, b"");
        assert_eq!(&rt; told(end), Some(row.2));
    }
}
