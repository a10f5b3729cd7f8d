//! Properties and nodes that become NOPs.
use super::blobs::{NESTED, NESTED_STRINGS, blob, changed};
use dt_blob::BlobError;
use dt_patch::view::{NodeOffset, PropertyOffset};
use dt_patch::{PatchError, nop_node, nop_property};
use std::alloc::Global;
use std::process::Abort;

/// What becomes NOPs, by its offset.
#[derive(Clone, Copy, Drop)]
enum Part {
    Property(usize),
    Node(usize),
}

fn nopped(blob: &mut [u8], part: Part) -> Option<PatchError> {
    let end = match part {
        Part::Property(at) => nop_property(blob, PropertyOffset { at }),
        Part::Node(at) => nop_node(blob, NodeOffset { at }),
    };
    end.err()
}

// What goes of the nested blob, and the words of the structure block then.
const GONE: &[(Part, &[u32])] = &[
    (
        Part::Property(8),
        &[1, 0, 4, 4, 4, 4, 1, 0x6e00_0000, 3, 0, 2, 2, 2, 9],
    ),
    (
        Part::Property(32),
        &[1, 0, 3, 4, 0, 1, 1, 0x6e00_0000, 4, 4, 4, 2, 2, 9],
    ),
    (Part::Node(24), &[1, 0, 3, 4, 0, 1, 4, 4, 4, 4, 4, 4, 2, 9]),
    (Part::Node(0), &[4, 4, 4, 4, 4, 4, 4, 4, 4, 4, 4, 4, 4, 9]),
];

fn goes_so(rt: &impl Abort, alloc: Global, part: Part, words: &[u32]) {
    let mut bytes = blob(rt, alloc, NESTED, NESTED_STRINGS);
    assert_eq!(rt; nopped(bytes.as_mut_slice(), part), None);
    let wanted = blob(rt, alloc, words, NESTED_STRINGS);
    assert!(rt; bytes.as_slice() == wanted.as_slice());
}

#[test]
fn goes(rt: HostRuntime) {
    for row in GONE {
        goes_so(&rt, rt.alloc(), row.0, row.1);
    }
}

// Offsets of the nested blob at which there is nothing of the kind: another token, the length of a value, which looks like a NOP, no word's
// place, and behind the end.
const STAYS: &[Part] = &[
    Part::Property(0),
    Part::Property(12),
    Part::Property(10),
    Part::Property(44),
    Part::Property(52),
    Part::Property(56),
    Part::Node(8),
    Part::Node(12),
    Part::Node(48),
    Part::Node(usize::MAX),
];

fn stays(rt: &impl Abort, alloc: Global, part: Part) {
    let mut bytes = blob(rt, alloc, NESTED, NESTED_STRINGS);
    let end = nopped(bytes.as_mut_slice(), part);
    assert_eq!(rt; end, Some(PatchError::BadOffset));
    let wanted = blob(rt, alloc, NESTED, NESTED_STRINGS);
    assert!(rt; bytes.as_slice() == wanted.as_slice());
}

#[test]
fn nothing_goes(rt: HostRuntime) {
    for part in STAYS {
        stays(&rt, rt.alloc(), *part);
    }
}

// A node that has no end, a broken header, and the version 16, of which a node goes, too.
#[test]
fn broken_blobs(rt: HostRuntime) {
    let alloc = rt.alloc();
    let mut endless = blob(&rt, alloc, &[1, 0, 4, 9], b"");
    let end = nopped(endless.as_mut_slice(), Part::Node(0));
    assert_eq!(&rt; end, Some(PatchError::Blob(BlobError::BadToken)));
    let whole = blob(&rt, alloc, NESTED, NESTED_STRINGS);
    let mut other = changed(&rt, alloc, whole.as_slice(), 0, 7);
    let end = nopped(other.as_mut_slice(), Part::Property(8));
    assert_eq!(&rt; end, Some(PatchError::Blob(BlobError::BadMagic)));
    let mut old = changed(&rt, alloc, whole.as_slice(), 0x14, 16);
    assert_eq!(&rt; nopped(old.as_mut_slice(), Part::Node(24)), None);
}
