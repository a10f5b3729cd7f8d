//! Properties and nodes taken out of a blob, and nodes added to it.
use super::blobs::{blob, changed};
use dt_patch::{PatchError, add_node, delete_node, delete_property};
use std::alloc::Global;
use std::process::Abort;

/// `/ { a = <7>; b = [01]; c { d { }; }; e { }; };` as words of the structure block.
const BOARD: &[u32] = &[
    1,
    0,
    3,
    4,
    0,
    7,
    3,
    1,
    2,
    0x0100_0000,
    1,
    0x6300_0000,
    1,
    0x6400_0000,
    2,
    2,
    1,
    0x6500_0000,
    2,
    2,
    9,
];

const NAMES: &[u8] = b"a\0b\0";

fn told(answer: Result<(), PatchError>) -> Option<PatchError> {
    match answer {
        Ok(()) => None,
        Err(error) => Some(error),
    }
}

/// The board's blob, and so many bytes of room behind it.
fn with_room(rt: &impl Abort, alloc: Global, room: usize) -> Vec<u8> {
    let mut bytes = blob(rt, alloc, BOARD, NAMES);
    for _ in 0..room {
        bytes.push(0).expect(rt, "memory");
    }
    bytes
}

// The blob of these words stands at the front, with the size that the header had, or a larger one.
fn is_now(rt: &impl Abort, alloc: Global, bytes: &[u8], before: usize, words: &[u32]) {
    let made = blob(rt, alloc, words, NAMES);
    let size = u32::try_from(made.len().max(before)).expect(rt, "a blob's size");
    let wanted = changed(rt, alloc, made.as_slice(), 4, size);
    assert!(rt; bytes.starts_with(wanted.as_slice()));
}

// A property of the root that is deleted, and the words of the structure block that are left.
const WITHOUT_PROPERTIES: &[(&[u8], &[u32])] = &[
    (
        b"a",
        &[
            1,
            0,
            3,
            1,
            2,
            0x0100_0000,
            1,
            0x6300_0000,
            1,
            0x6400_0000,
            2,
            2,
            1,
            0x6500_0000,
            2,
            2,
            9,
        ],
    ),
    (
        b"b",
        &[
            1,
            0,
            3,
            4,
            0,
            7,
            1,
            0x6300_0000,
            1,
            0x6400_0000,
            2,
            2,
            1,
            0x6500_0000,
            2,
            2,
            9,
        ],
    ),
];

fn is_deleted(rt: &impl Abort, alloc: Global, row: &(&[u8], &[u32])) {
    let mut bytes = with_room(rt, alloc, 0);
    let before = bytes.len();
    let end = delete_property(bytes.as_mut_slice(), b"/", row.0);
    assert_eq!(rt; told(end), None);
    assert_eq!(rt; bytes.len(), before);
    is_now(rt, alloc, bytes.as_slice(), before, row.1);
}

#[test]
fn deletes_properties(rt: HostRuntime) {
    for row in WITHOUT_PROPERTIES {
        is_deleted(&rt, rt.alloc(), row);
    }
}

// A node that is deleted, and the words that are left.
const WITHOUT_NODES: &[(&[u8], &[u32])] = &[
    (
        b"/c",
        &[
            1,
            0,
            3,
            4,
            0,
            7,
            3,
            1,
            2,
            0x0100_0000,
            1,
            0x6500_0000,
            2,
            2,
            9,
        ],
    ),
    (
        b"/c/d",
        &[
            1,
            0,
            3,
            4,
            0,
            7,
            3,
            1,
            2,
            0x0100_0000,
            1,
            0x6300_0000,
            2,
            1,
            0x6500_0000,
            2,
            2,
            9,
        ],
    ),
    (
        b"/e",
        &[
            1,
            0,
            3,
            4,
            0,
            7,
            3,
            1,
            2,
            0x0100_0000,
            1,
            0x6300_0000,
            1,
            0x6400_0000,
            2,
            2,
            2,
            9,
        ],
    ),
];

fn is_cut(rt: &impl Abort, alloc: Global, row: &(&[u8], &[u32])) {
    let mut bytes = with_room(rt, alloc, 0);
    let before = bytes.len();
    let end = delete_node(bytes.as_mut_slice(), row.0);
    assert_eq!(rt; told(end), None);
    is_now(rt, alloc, bytes.as_slice(), before, row.1);
}

#[test]
fn deletes_nodes(rt: HostRuntime) {
    for row in WITHOUT_NODES {
        is_cut(&rt, rt.alloc(), row);
    }
}

// A node that is added, how many bytes it has, and the words then.
const WITH_NODES: &[(&[u8], &[u8], usize, &[u32])] = &[
    (
        b"/",
        b"f",
        12,
        &[
            1,
            0,
            3,
            4,
            0,
            7,
            3,
            1,
            2,
            0x0100_0000,
            1,
            0x6600_0000,
            2,
            1,
            0x6300_0000,
            1,
            0x6400_0000,
            2,
            2,
            1,
            0x6500_0000,
            2,
            2,
            9,
        ],
    ),
    (
        b"/c",
        b"f@1",
        12,
        &[
            1,
            0,
            3,
            4,
            0,
            7,
            3,
            1,
            2,
            0x0100_0000,
            1,
            0x6300_0000,
            1,
            0x6640_3100,
            2,
            1,
            0x6400_0000,
            2,
            2,
            1,
            0x6500_0000,
            2,
            2,
            9,
        ],
    ),
    (
        b"/e",
        b"long",
        16,
        &[
            1,
            0,
            3,
            4,
            0,
            7,
            3,
            1,
            2,
            0x0100_0000,
            1,
            0x6300_0000,
            1,
            0x6400_0000,
            2,
            2,
            1,
            0x6500_0000,
            1,
            0x6c6f_6e67,
            0,
            2,
            2,
            2,
            9,
        ],
    ),
];

fn is_added(rt: &impl Abort, alloc: Global, row: &(&[u8], &[u8], usize, &[u32])) {
    let mut bytes = with_room(rt, alloc, row.2);
    let before = with_room(rt, alloc, 0).len();
    let end = add_node(bytes.as_mut_slice(), row.0, row.1);
    assert_eq!(rt; told(end), None);
    is_now(rt, alloc, bytes.as_slice(), before, row.3);
}

fn is_short(rt: &impl Abort, alloc: Global, row: &(&[u8], &[u8], usize, &[u32])) {
    let mut bytes = with_room(rt, alloc, row.2.saturating_sub(1));
    let before = with_room(rt, alloc, row.2.saturating_sub(1));
    let end = add_node(bytes.as_mut_slice(), row.0, row.1);
    assert_eq!(rt; told(end), Some(PatchError::Short(before.len() + 1)));
    assert!(rt; bytes.as_slice() == before.as_slice());
}

#[test]
fn adds_nodes(rt: HostRuntime) {
    for row in WITH_NODES {
        is_added(&rt, rt.alloc(), row);
        is_short(&rt, rt.alloc(), row);
    }
}

// What isn't deleted, and why: a property, and the node at a path.
const KEPT: &[(&[u8], &[u8], PatchError)] = &[
    (b"a", b"a", PatchError::BadPath),
    (b"/b", b"a", PatchError::NoNode),
    (b"/", b"c", PatchError::NoProperty),
    (b"/c", b"a", PatchError::NoProperty),
];

const KEPT_NODES: &[(&[u8], PatchError)] = &[
    (b"/", PatchError::Root),
    (b"c", PatchError::BadPath),
    (b"/c/e", PatchError::NoNode),
];

// What isn't added, and why.
const NOT_ADDED: &[(&[u8], &[u8], PatchError)] = &[
    (b"f", b"f", PatchError::BadPath),
    (b"/f", b"f", PatchError::NoNode),
    (b"/", b"a b", PatchError::BadName),
    (b"/", b"c", PatchError::Exists),
    (b"/", b"e", PatchError::Exists),
    (b"/c", b"d", PatchError::Exists),
];

fn keeps_property(rt: &impl Abort, alloc: Global, row: &(&[u8], &[u8], PatchError)) {
    let mut bytes = with_room(rt, alloc, 0);
    let end = delete_property(bytes.as_mut_slice(), row.0, row.1);
    assert_eq!(rt; told(end), Some(row.2));
}

#[test]
fn keeps_properties(rt: HostRuntime) {
    for row in KEPT {
        keeps_property(&rt, rt.alloc(), row);
    }
}

fn keeps_node(rt: &impl Abort, alloc: Global, row: &(&[u8], PatchError)) {
    let mut bytes = with_room(rt, alloc, 0);
    let end = delete_node(bytes.as_mut_slice(), row.0);
    assert_eq!(rt; told(end), Some(row.1));
}

#[test]
fn keeps_nodes(rt: HostRuntime) {
    for row in KEPT_NODES {
        keeps_node(&rt, rt.alloc(), row);
    }
}

fn adds_nothing(rt: &impl Abort, alloc: Global, row: &(&[u8], &[u8], PatchError)) {
    let mut bytes = with_room(rt, alloc, 64);
    let end = add_node(bytes.as_mut_slice(), row.0, row.1);
    assert_eq!(rt; told(end), Some(row.2));
}

#[test]
fn is_not_added(rt: HostRuntime) {
    for row in NOT_ADDED {
        adds_nothing(&rt, rt.alloc(), row);
    }
}

/// A root, 64 nodes `n` each in the next, and what ends them.
fn deepest(rt: &impl Abort, alloc: Global) -> Vec<u8> {
    let mut words = Vec::new(alloc);
    words.extend_from_slice(&[1, 0]).expect(rt, "memory");
    for _ in 0..64 {
        words
            .extend_from_slice(&[1, 0x6e00_0000])
            .expect(rt, "memory");
    }
    for _ in 0..65 {
        words.push(2).expect(rt, "memory");
    }
    words.extend_from_slice(&[9]).expect(rt, "memory");
    blob(rt, alloc, words.as_slice(), b"")
}

fn path_of(rt: &impl Abort, alloc: Global, depth: usize) -> Vec<u8> {
    let mut path = Vec::new(alloc);
    for _ in 0..depth {
        path.extend_from_slice(b"/n").expect(rt, "memory");
    }
    path
}

#[test]
fn as_deep_as_can_be(rt: HostRuntime) {
    let alloc = rt.alloc();
    let mut bytes = deepest(&rt, alloc);
    bytes.extend_from_slice(&[0; 12]).expect(&rt, "memory");
    let whole = path_of(&rt, alloc, 64);
    let above = path_of(&rt, alloc, 63);
    let end = add_node(bytes.as_mut_slice(), whole.as_slice(), b"m");
    assert_eq!(&rt; told(end), Some(PatchError::TooDeep));
    let end = add_node(bytes.as_mut_slice(), above.as_slice(), b"m");
    assert_eq!(&rt; told(end), None);
}

// Of version 16 nothing is moved.
#[test]
fn is_unordered(rt: HostRuntime) {
    let alloc = rt.alloc();
    let board = with_room(&rt, alloc, 64);
    let mut bytes = changed(&rt, alloc, board.as_slice(), 0x14, 16);
    let end = delete_property(bytes.as_mut_slice(), b"/", b"a");
    assert_eq!(&rt; told(end), Some(PatchError::Unordered));
    let end = delete_node(bytes.as_mut_slice(), b"/c");
    assert_eq!(&rt; told(end), Some(PatchError::Unordered));
    let end = add_node(bytes.as_mut_slice(), b"/", b"f");
    assert_eq!(&rt; told(end), Some(PatchError::Unordered));
}
