//! A blob with room, or with another processor that boots: what dtc's options `-R`, `-S`, `-p`, `-a` and `-b` ask for.
ghost use Rattle.std.specs.Prelude.{◌≡◌, ◌+◌, ◌%◌, ◌^◌, ◌<◌, ◌≤◌, ◌++◌, ◌⊎◌, ℕ, drop, length, max, replicate, take, IfOk, MatchOption, MatchResult, OnOk};
ghost use Rattle.dt_tree.specs.TreeData.{TreeData, IsTree};
ghost use Rattle.dt_blob.specs.BigEndian.{word};
ghost use Rattle.dt_blob.specs.Blob.{limit, blob_of};
ghost use Rattle.dt_blob.specs.HeaderWords.{word_at};
ghost use Rattle.dt_blob.specs.Holds.{Holds};
ghost use Rattle.dtman_blobs.specs.declared.widening.Room.{Room};
ghost use Rattle.dtman_blobs.specs.Widening.{asked_size, blob_with_room, rounded_up, size_with_room, RefusesRoom};
ghost use Rattle.dtman_blobs.specs.Widening.Private.{AreInside, moved};

use byteorder::{BigEndian, ByteOrder};
use dt_tree::behind;
use std::alloc::{AllocError, Global};

/// The bytes of the header.
const HEADER_SIZE: usize = 40;

/// The bytes of a reservation.
const RESERVATION_SIZE: u64 = 16;

/// Where the header has the processor that boots.
const BOOT_CPU_AT: usize = 28;

/// The room that a blob is given behind what it needs.
#[derive(Clone, Copy, Debug)]
pub struct Room {
    /// Empty entries of the memory reservations (`-R`).
    pub reserves: u32,
    /// The least size (`-S`), in bytes.
    pub space: u32,
    /// Bytes behind the blob (`-p`).
    pub padding: u32,
    /// What the size is a multiple of (`-a`); 0 where nothing is said.
    pub align: u32,
}

/// Why a blob isn't given room.
#[derive(Clone, Copy, Debug, PartialEq, Eq)]
pub enum RoomError {
    NoMemory,
    /// It would have 2^32 bytes or more.
    TooLong,
    /// The bytes are no blob: they are shorter than a header, or a block begins in it or outside.
    NoBlob,
}

impl From<AllocError> for RoomError {
    ghost use Rattle.std.specs.Prelude.{◌≡◌};
    ghost use Rattle.dtman_blobs.specs.declared.widening.RoomError.TheVariants.{NoMemory};

    ghost from_gives = { λ _ e. e ≡ NoMemory };

    fn from(_error: AllocError) -> RoomError {
        RoomError::NoMemory
    }
}

/// Where the structure block and the strings begin.
#[derive(Clone, Copy)]
struct Places {
    structure_at: usize,
    strings_at: usize,
}

fn rounded_up(align: u32, size: u64) -> u64
    requires { size < 2 ^ 63 + 2 ^ 37 }
    ensures { result ≡ rounded_up align size }
{
    if align == 0 {
        return size;
    }
    let align = u64::from(align);
    size + (align - size % align) % align
}

fn asked_size(room: &Room, size: u64) -> u64
    requires { size < 2 ^ 63 + 2 ^ 36 }
    ensures { result ≡ asked_size room.now size }
{
    rounded_up(
        room.align,
        size.max(u64::from(room.space)) + u64::from(room.padding),
    )
}

fn places_of(blob: &[u8]) -> Option<Places>
    ensures { MatchOption result (length blob.now < 40 ⊎ (AreInside blob.now → ⊥))
        (λ p. (p.structure_at ≡ word_at 8 blob.now) × (p.strings_at ≡ word_at 12 blob.now) × (40 ≤ p.structure_at)
        × (p.structure_at ≤ length blob.now) × (p.strings_at ≤ length blob.now)) }
{
    if blob.len() < HEADER_SIZE {
        return None;
    }
    let structure_at = BigEndian::read_u32(&blob[8..]) as usize;
    let strings_at = BigEndian::read_u32(&blob[12..]) as usize;
    if structure_at < HEADER_SIZE || structure_at > blob.len() || strings_at > blob.len() {
        return None;
    }
    Some(Places {
        structure_at,
        strings_at,
    })
}

#[tactic(auto, unfolding(dt_blob::specs::BigEndian::word))]
fn put_word(out: &mut Vec<u8>, number: u32) -> Result<(), AllocError>
    ensures { OnOk result (out.new.items ≡ out.old.items ++ word number) }
{
    let mut bytes = [0; 4];
    BigEndian::write_u32(&mut bytes, number);
    out.extend_from_slice(&bytes)
}

fn put_zeros(out: &mut Vec<u8>, count: usize) -> Result<(), AllocError>
    ensures { OnOk result (out.new.items ≡ out.old.items ++ replicate count 0) }
{
    for _ in 0..count {
        out.push(0)?;
    }
    Ok(())
}

/// Puts a blob with zeros before its structure block, and then up to a size.
fn put_moved(
    out: &mut Vec<u8>,
    blob: &[u8],
    places: Places,
    zeros: usize,
    size: usize,
) -> Result<(), AllocError>
    requires structure { 40 ≤ places.structure_at }
    requires inside { places.structure_at ≤ length blob.now }
    requires strings { places.strings_at ≤ length blob.now }
    requires fits { length blob.now + zeros ≤ size }
    requires short { size < 2 ^ 32 }
    ensures { OnOk result (out.new.items ≡ out.old.items
        ++ moved blob.now places.structure_at places.strings_at zeros size) }
{
    out.extend_from_slice(&blob[..4])?;
    put_word(out, size as u32)?;
    put_word(out, (places.structure_at + zeros) as u32)?;
    put_word(out, (places.strings_at + zeros) as u32)?;
    out.extend_from_slice(&blob[16..places.structure_at])?;
    put_zeros(out, zeros)?;
    out.extend_from_slice(behind(blob, places.structure_at))?;
    put_zeros(out, size - (blob.len() + zeros))
}

/// The blob of a tree with the room that is asked for, where the header's words and the reservations stand (Devicetree Specification v0.4,
/// sections 5.2 and 5.3). The blob is copied once.
///
/// Fails with `TooLong` where it would have 2^32 bytes or more, and with `NoMemory`. Bytes that are no tree's blob are given room somehow, or
/// refused by `NoBlob` where a block begins outside.
pub fn with_room(alloc: Global, blob: &[u8], room: &Room) -> Result<Vec<u8>, RoomError>
    ensures made { (tree : TreeData) → IsTree tree → blob.now ≡ blob_of tree
        → MatchResult result (λ wide. wide.items ≡ blob_with_room room.now tree) (RefusesRoom (size_with_room room.now tree)) }
    // It holds the tree, where it isn't over 268,435,456 bytes (`dt_blob::MAX_SIZE`).
    ensures held { (tree : TreeData) → IsTree tree → blob.now ≡ blob_of tree
        → IfOk result (λ wide. length wide.items ≤ limit → Holds wide.items tree) }
{
    let zeros = RESERVATION_SIZE * u64::from(room.reserves);
    let size = asked_size(room, blob.len() as u64 + zeros);
    if size > u64::from(u32::MAX) {
        return Err(RoomError::TooLong);
    }
    let Some(places) = places_of(blob) else {
        return Err(RoomError::NoBlob);
    };
    let mut wide = Vec::with_capacity(alloc, size as usize)?;
    put_moved(&mut wide, blob, places, zeros as usize, size as usize)?;
    Ok(wide)
}

/// A blob with room has the size that is asked for: that of the blob with its entries at least, as many bytes as `space` and, behind it,
/// `padding`, and the first multiple of `align` from there on.
pub fn size_is_asked()
    ensures whole { (room : Room) (tree : TreeData) → length (blob_with_room room tree) ≡ size_with_room room tree }
    ensures space { (room : Room) (size : ℕ) → room.space ≤ asked_size room size }
    ensures padding { (room : Room) (size : ℕ) → size + room.padding ≤ asked_size room size }
    ensures multiple { (room : Room) (size : ℕ) → 0 < room.align → (asked_size room size % room.align ≡ 0)
        × (asked_size room size < max size room.space + room.padding + room.align) }
{}

/// Puts bytes at a place.
fn put(blob: &mut [u8], at: usize, bytes: &[u8])
    requires { at + length bytes.now ≤ length blob.old }
    ensures { blob.new ≡ take at blob.old ++ (bytes.now ++ drop (at + length bytes.now) blob.old) }
{
    blob[at..at + bytes.len()].copy_from_slice(bytes);
}

#[tactic(auto, unfolding(dt_blob::specs::BigEndian::word))]
fn put_boot_cpu(blob: &mut [u8], number: u32)
    requires { 40 ≤ length blob.old }
    ensures { blob.new ≡ take 28 blob.old ++ (word number ++ drop 32 blob.old) }
{
    let mut bytes = [0; 4];
    BigEndian::write_u32(&mut bytes, number);
    put(blob, BOOT_CPU_AT, &bytes);
}

/// Sets the processor that boots, a word of the header (Devicetree Specification v0.4, section 5.2). Bytes that are shorter than a header stay
/// as they are.
pub fn set_boot_cpu(blob: &mut [u8], number: u32)
    ensures { (tree : TreeData) → blob.old ≡ blob_of tree → blob.new ≡ blob_of (record tree { boot_cpu = number }) }
{
    if blob.len() < HEADER_SIZE {
        return;
    }
    put_boot_cpu(blob, number);
}
