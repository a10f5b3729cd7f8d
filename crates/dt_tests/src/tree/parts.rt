//! Parts of values set in place, and the blob of a root alone.
use super::blobs::{NESTED, NESTED_STRINGS, blob, changed};
use dt_blob::BlobError;
use dt_patch::view::NodeOffset;
use dt_patch::{PatchError, create_empty, set_part};
use std::alloc::Global;
use std::process::Abort;

// A node of the nested blob, a name, a place of the value, a part, and the word at 0x4c, the value of `a`, then.
const SET: &[(usize, &[u8], usize, &[u8], u32)] = &[
    (0, b"a", 0, b"\x0a\x0b\x0c\x0d", 0x0a0b_0c0d),
    (0, b"a", 2, b"\x0c", 0x0000_0c01),
    (0, b"a", 4, b"", 1),
    (24, b"b", 0, b"", 1),
];

fn is_set_so(rt: &impl Abort, alloc: Global, row: &(usize, &[u8], usize, &[u8], u32)) {
    let mut bytes = blob(rt, alloc, NESTED, NESTED_STRINGS);
    let wanted = changed(rt, alloc, bytes.as_slice(), 76, row.4);
    let node = NodeOffset { at: row.0 };
    let end = set_part(bytes.as_mut_slice(), node, row.1, row.2, row.3);
    assert_eq!(rt; end.err(), None);
    assert!(rt; bytes.as_slice() == wanted.as_slice());
}

#[test]
fn sets_parts(rt: HostRuntime) {
    for row in SET {
        is_set_so(&rt, rt.alloc(), row);
    }
}

// What isn't set, and why.
const UNSET: &[(usize, &[u8], usize, &[u8], PatchError)] = &[
    (0, b"b", 0, b"", PatchError::NoProperty),
    (0, b"a", 1, b"\0\0\0\0", PatchError::OtherLength),
    (0, b"a", 5, b"", PatchError::OtherLength),
    (0, b"a", usize::MAX, b"\0", PatchError::OtherLength),
    (24, b"b", 0, b"\0", PatchError::OtherLength),
    (8, b"a", 0, b"", PatchError::BadOffset),
];

fn is_unset(rt: &impl Abort, alloc: Global, row: &(usize, &[u8], usize, &[u8], PatchError)) {
    let mut bytes = blob(rt, alloc, NESTED, NESTED_STRINGS);
    let node = NodeOffset { at: row.0 };
    let end = set_part(bytes.as_mut_slice(), node, row.1, row.2, row.3);
    assert_eq!(rt; end.err(), Some(row.4));
    let wanted = blob(rt, alloc, NESTED, NESTED_STRINGS);
    assert!(rt; bytes.as_slice() == wanted.as_slice());
}

#[test]
fn parts_that_are_not_set(rt: HostRuntime) {
    for row in UNSET {
        is_unset(&rt, rt.alloc(), row);
    }
}

// What libfdt 1.6.1 leaves in 84 bytes: the header, room, the end of the reserved memory, the root, and four bytes behind.
const EMPTY: &[u32] = &[
    0xd00d_feed,
    84,
    64,
    80,
    48,
    17,
    16,
    0,
    0,
    16,
    0,
    0,
    0,
    0,
    0,
    0,
    1,
    0,
    2,
    9,
    0,
];

#[test]
fn creates(rt: HostRuntime) {
    let mut buffer = [0x55; 84];
    assert_eq!(&rt; create_empty(&mut buffer).err(), None);
    for (place, word) in EMPTY.iter().enumerate() {
        assert!(&rt;
            buffer[place % 21 * 4..].starts_with(&word.to_be_bytes()),
            "{place}"
        );
    }
}

#[test]
fn has_no_room(rt: HostRuntime) {
    let mut buffer = [0x55; 79];
    let end = create_empty(&mut buffer);
    assert_eq!(&rt; end.err(), Some(PatchError::Short(80)));
    assert!(&rt; buffer == [0x55; 79]);
    let mut other = changed(&rt, rt.alloc(), &[0; 60], 0, 7);
    let end = set_part(other.as_mut_slice(), NodeOffset { at: 0 }, b"a", 0, b"");
    let wanted = PatchError::Blob(BlobError::BadMagic);
    assert_eq!(&rt; end.err(), Some(wanted));
}
