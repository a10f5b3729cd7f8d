//! Reserved memory, added to a blob and taken from it.
use super::blobs::{ONE_CELL, changed};
use dt_patch::view::View;
use dt_patch::{PatchError, add_reservation, delete_reservation};
use dt_tree::behind;
use std::alloc::Global;
use std::process::Abort;

fn told(answer: Result<(), PatchError>) -> Option<PatchError> {
    match answer {
        Ok(()) => None,
        Err(error) => Some(error),
    }
}

/// One-cell's blob, and so many bytes of room behind it.
fn with_room(rt: &impl Abort, alloc: Global, room: usize) -> Vec<u8> {
    let mut bytes = Vec::from_slice(alloc, ONE_CELL).expect(rt, "memory");
    for _ in 0..room {
        bytes.push(0).expect(rt, "memory");
    }
    bytes
}

/// Its blob with the reservations (1, 2) and (3, 4), in 122 bytes.
fn with_two(rt: &impl Abort, alloc: Global) -> Vec<u8> {
    let mut bytes = with_room(rt, alloc, 32);
    let end = add_reservation(bytes.as_mut_slice(), 1, 2);
    assert_eq!(rt; told(end), None);
    let end = add_reservation(bytes.as_mut_slice(), 3, 4);
    assert_eq!(rt; told(end), None);
    bytes
}

// What a blob says of its reservations, by their places.
fn has(rt: &impl Abort, bytes: &[u8], pairs: &[Option<(u64, u64)>]) {
    let view = View::open(bytes).expect(rt, "a view");
    for (place, pair) in pairs.iter().enumerate() {
        assert_eq!(rt; view.reservation(place), *pair);
    }
}

// The header's first words then: the magic number, the size, and where the structure block and the strings begin.
const HEADER: &[u8] = b"\xd0\x0d\xfe\xed\0\0\0\x7a\0\0\0\x58\0\0\0\x78";

// Two pairs and the one that ends the list.
const PAIRS: &[u8] =
    b"\0\0\0\0\0\0\0\x01\0\0\0\0\0\0\0\x02\0\0\0\0\0\0\0\x03\0\0\0\0\0\0\0\x04\0\0\0\0\0\0\0\0\0\0\0\0\0\0\0\0";

// The list begins at 40; behind it each block stands 16 bytes further for each pair.
#[test]
fn reserves(rt: HostRuntime) {
    let bytes = with_two(&rt, rt.alloc());
    assert!(&rt; bytes.as_slice().starts_with(HEADER));
    assert!(&rt; behind(bytes.as_slice(), 40).starts_with(PAIRS));
    assert!(&rt; behind(bytes.as_slice(), 88).starts_with(behind(ONE_CELL, 56)));
    has(&rt, bytes.as_slice(), &[Some((1, 2)), Some((3, 4)), None]);
}

/// The place of a reservation that is deleted, why it isn't, and the one that is first then.
const DELETED: &[(usize, Option<PatchError>, (u64, u64))] = &[
    (0, None, (3, 4)),
    (1, None, (1, 2)),
    (2, Some(PatchError::NoReservation), (1, 2)),
    (usize::MAX, Some(PatchError::NoReservation), (1, 2)),
];

fn is_deleted(rt: &impl Abort, alloc: Global, row: &(usize, Option<PatchError>, (u64, u64))) {
    let mut bytes = with_two(rt, alloc);
    let end = delete_reservation(bytes.as_mut_slice(), row.0);
    assert_eq!(rt; told(end), row.1);
    has(rt, bytes.as_slice(), &[Some(row.2)]);
}

#[test]
fn unreserves(rt: HostRuntime) {
    for row in DELETED {
        is_deleted(&rt, rt.alloc(), row);
    }
}

// All that was moved is where it was, and the size in the header is what it grew to.
#[test]
fn is_as_before(rt: HostRuntime) {
    let alloc = rt.alloc();
    let mut bytes = with_two(&rt, alloc);
    let end = delete_reservation(bytes.as_mut_slice(), 1);
    assert_eq!(&rt; told(end), None);
    let end = delete_reservation(bytes.as_mut_slice(), 0);
    assert_eq!(&rt; told(end), None);
    let wanted = changed(&rt, alloc, ONE_CELL, 4, 122);
    assert!(&rt; bytes.as_slice().starts_with(wanted.as_slice()));
}

#[test]
fn is_not_reserved(rt: HostRuntime) {
    let alloc = rt.alloc();
    let mut bytes = with_room(&rt, alloc, 15);
    let end = add_reservation(bytes.as_mut_slice(), 1, 2);
    assert_eq!(&rt; told(end), Some(PatchError::Short(106)));
    let end = add_reservation(bytes.as_mut_slice(), 0, 0);
    assert_eq!(&rt; told(end), Some(PatchError::EndPair));
    let end = add_reservation(bytes.as_mut_slice(), u64::MAX, 0);
    assert_eq!(&rt; told(end), Some(PatchError::EndPair));
    let end = delete_reservation(bytes.as_mut_slice(), 0);
    assert_eq!(&rt; told(end), Some(PatchError::NoReservation));
    let mut old = changed(&rt, alloc, ONE_CELL, 0x14, 16);
    let end = add_reservation(old.as_mut_slice(), 1, 2);
    assert_eq!(&rt; told(end), Some(PatchError::Unordered));
    let end = delete_reservation(old.as_mut_slice(), 0);
    assert_eq!(&rt; told(end), Some(PatchError::Unordered));
}
