//! The size that a blob's header tells.
use super::blobs::{ONE_CELL, changed};
use dt_blob::BlobError;
use dt_patch::{PatchError, grow, trim};
use std::alloc::Global;
use std::process::Abort;

/// One-cell's blob, and so many bytes of room behind it.
fn with_room(rt: &impl Abort, alloc: Global, room: usize) -> Vec<u8> {
    let mut bytes = Vec::from_slice(alloc, ONE_CELL).expect(rt, "memory");
    for _ in 0..room {
        bytes.push(0).expect(rt, "memory");
    }
    bytes
}

// One-cell's 90 bytes and 32 of room: the word at 4 tells 122, and no other byte is another; then 90 again.
#[test]
fn grows_and_is_trimmed(rt: HostRuntime) {
    let alloc = rt.alloc();
    let mut bytes = with_room(&rt, alloc, 32);
    assert!(&rt; grow(bytes.as_mut_slice()).is_ok());
    let wanted = changed(&rt, alloc, ONE_CELL, 4, 122);
    assert!(&rt; bytes.as_slice().starts_with(wanted.as_slice()));
    assert!(&rt; trim(bytes.as_mut_slice()).is_ok());
    assert!(&rt; bytes.as_slice().starts_with(ONE_CELL));
}

fn is_refused(rt: &impl Abort, bytes: &mut [u8], wanted: PatchError) {
    assert_eq!(rt; grow(bytes).err(), Some(wanted));
    assert_eq!(rt; trim(bytes).err(), Some(wanted));
}

// The version 16, which tells no size of the structure block, another magic number, and too few bytes.
#[test]
fn keeps_its_size(rt: HostRuntime) {
    let alloc = rt.alloc();
    let mut old = changed(&rt, alloc, ONE_CELL, 0x14, 16);
    is_refused(&rt, old.as_mut_slice(), PatchError::Unordered);
    let mut other = changed(&rt, alloc, ONE_CELL, 0, 7);
    let wanted = PatchError::Blob(BlobError::BadMagic);
    is_refused(&rt, other.as_mut_slice(), wanted);
    let wanted = PatchError::Blob(BlobError::Truncated);
    is_refused(&rt, &mut [0; 39], wanted);
}
