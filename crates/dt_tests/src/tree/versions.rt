//! Blobs of version 16: its header has no size of the structure block, which its END ends.
use crate::tree::blobs::{ONE_CELL, blob, changed, is_one_cell, is_told, refusal};
use dt_blob::read;
use std::alloc::Global;
use std::hash::RandomState;
use std::process::Abort;

/// The same blob in version 16, with no size where version 17 has it.
fn in_version_16(rt: &impl Abort, alloc: Global, blob: &[u8]) -> Vec<u8> {
    let bytes = changed(rt, alloc, blob, 0x14, 16);
    changed(rt, alloc, bytes.as_slice(), 0x24, 0xffff_ffff)
}

/// One-cell's blob with four zero bytes behind END.
fn behind_end(rt: &impl Abort, alloc: Global) -> Vec<u8> {
    blob(rt, alloc, &[1, 0, 3, 4, 0, 1, 2, 9, 0], b"a\0")
}

fn is_one_cell_in_16(rt: &impl Abort, alloc: Global, hasher: RandomState, blob: &[u8]) -> bool {
    let bytes = in_version_16(rt, alloc, blob);
    is_one_cell(rt, alloc, hasher, bytes.as_slice())
}

#[test]
fn version_16(rt: HostRuntime) {
    let alloc = rt.alloc();
    let hasher = RandomState::new(&rt).expect(&rt, "a seed");
    assert!(rt; is_one_cell_in_16(&rt, alloc, hasher, ONE_CELL));
}

fn refusal_with_size(rt: &impl Abort, alloc: Global, blob: &[u8], size: u32) -> Option<u8> {
    let bytes = changed(rt, alloc, blob, 0x24, size);
    refusal(read(alloc, bytes.as_slice()))
}

fn is_one_cell_with_size(
    rt: &impl Abort,
    alloc: Global,
    hasher: RandomState,
    blob: &[u8],
    size: u32,
) -> bool {
    let bytes = changed(rt, alloc, blob, 0x24, size);
    is_one_cell(rt, alloc, hasher, bytes.as_slice())
}

#[test]
fn bytes_behind_end(rt: HostRuntime) {
    let alloc = rt.alloc();
    let hasher = RandomState::new(&rt).expect(&rt, "a seed");
    let bytes = behind_end(&rt, alloc);
    assert!(rt; is_one_cell_in_16(&rt, alloc, hasher, bytes.as_slice()));
    assert!(rt; is_one_cell_with_size(&rt, alloc, hasher, bytes.as_slice(), 0x20));
    assert_eq!(rt;
        refusal_with_size(&rt, alloc, bytes.as_slice(), 0x24),
        Some(34)
    );
}

// A place in one-cell's blob of version 16, the word that is put there, and the number of the refusal, if any.
const CHANGED: &[(usize, u32, Option<u8>)] = &[
    (0x54, 4, Some(34)),
    (0x14, 15, Some(32)),
    (0x18, 17, None),
    (0x18, 18, Some(32)),
    (0x24, 0, None),
    (0x24, 0x20, None),
    (0x08, 0x58, Some(34)),
    (0x08, 0x5c, Some(33)),
    (0x08, 0xffff_fffc, Some(33)),
    (0x08, 0x3a, Some(33)),
    (0x04, 0x5b, Some(30)),
    (0x04, 0x58, Some(33)),
    (0x04, 0x27, Some(33)),
    (0x44, 0xffff_ffff, Some(34)),
    (0x48, 2, Some(35)),
];

fn changed_refusal(rt: &impl Abort, alloc: Global, at: usize, word: u32) -> Option<u8> {
    let old = in_version_16(rt, alloc, ONE_CELL);
    let bytes = changed(rt, alloc, old.as_slice(), at, word);
    refusal(read(alloc, bytes.as_slice()))
}

fn is_refused_changed(rt: &impl Abort, alloc: Global, row: &(usize, u32, Option<u8>)) {
    let (at, word, number) = *row;
    let told = changed_refusal(rt, alloc, at, word);
    assert_eq!(rt; told, number, "{at} {word}");
}

#[test]
fn version_16_changed(rt: HostRuntime) {
    for row in CHANGED {
        is_refused_changed(&rt, rt.alloc(), row);
    }
}

// What a blob of version 16 has, the words of its structure block, its strings, and the number of the refusal, if any.
const UNSIZED: &[(&str, &[u32], &[u8], Option<u8>)] = &[
    ("its END at the end", &[1, 0, 2, 9], b"", None),
    ("zero bytes behind END", &[1, 0, 2, 9, 0, 0], b"a\0", None),
    ("an unknown token behind END", &[1, 0, 2, 9, 5], b"", None),
    ("a second END", &[1, 0, 2, 9, 9], b"", None),
    ("its END in the strings", &[1, 0, 2], b"\0\0\0\x09", None),
    ("no END", &[1, 0, 2], b"", Some(34)),
    ("a cut word in place of END", &[1, 0, 2], b"a\0", Some(34)),
    (
        "zero bytes in place of END",
        &[1, 0, 2, 0],
        b"a\0",
        Some(34),
    ),
    ("no structure block", &[], b"", Some(34)),
    ("END in a node", &[1, 0, 9, 2, 9], b"", Some(34)),
    (
        "a value past the blob",
        &[1, 0, 3, 9, 0, 2, 9],
        b"a\0",
        Some(34),
    ),
    ("a name past the blob", &[1, 0x6e6e_6e6e], b"", Some(35)),
    ("a root with a name", &[1, 0x6e00_0000, 2, 9], b"", Some(37)),
];

fn unsized_refusal(
    rt: &impl Abort,
    alloc: Global,
    structure: &[u32],
    strings: &[u8],
) -> Option<u8> {
    let sized = blob(rt, alloc, structure, strings);
    let bytes = in_version_16(rt, alloc, sized.as_slice());
    refusal(read(alloc, bytes.as_slice()))
}

#[test]
fn structure_blocks_of_version_16(rt: HostRuntime) {
    for (name, structure, strings, number) in UNSIZED {
        let told = unsized_refusal(&rt, rt.alloc(), *structure, *strings);
        is_told(&rt, told, *number, *name);
    }
}
