//! Where the device of a path stands, as a guess.
ghost use Rattle.std.specs.Prelude.{◌≤◌, ◌<◌, ◌+◌, length};

use crate::planned::Planned;
use std::alloc::{AllocError, Global};

/// An odd number with no pattern in its bits (2^64 over the golden ratio), so that a product's high bits depend on all bits
/// of its other factor.
const SPREAD: usize = 0x9e37_79b9_7f4a_7c15;

/// A place for what tells most paths apart: a path's length and its last 16 bytes. Two paths may be alike in these, and
/// then one of them has no place here, so a guess has to be compared.
#[derive(Drop)]
pub struct PathHints {
    places: Vec<u16>,
    mask: usize,
}

// At least eight places a device, so that few of them meet: a power of two.
fn room(count: usize) -> usize
    ensures { 0 < result }
{
    if count <= 64 {
        return 512;
    }
    if count <= 512 {
        return 4096;
    }
    32_768
}

// Eight bytes of a path as a number.
fn word_at(path: &[u8], place: usize) -> usize
    requires { place + 8 ≤ length path.now }
{
    usize::from_le_bytes([
        path[place],
        path[place + 1],
        path[place + 2],
        path[place + 3],
        path[place + 4],
        path[place + 5],
        path[place + 6],
        path[place + 7],
    ])
}

// A short path as a number.
fn short_word(path: &[u8]) -> usize {
    let mut word = 0usize;
    for byte in path {
        word = word.wrapping_shl(8) ^ usize::from(*byte);
    }
    word
}

// The last 16 bytes as a number.
fn last_word(path: &[u8]) -> usize {
    let len = path.len();
    if len < 8 {
        return short_word(path);
    }
    let last = word_at(path, len - 8);
    let before = word_at(path, len.saturating_sub(16));
    last ^ before.rotate_left(29)
}

impl PathHints {
    /// Of these devices.
    pub fn of(alloc: Global, devices: &[Planned]) -> Result<Self, AllocError> {
        let room = room(devices.len());
        let mut hints = Self {
            places: Vec::from_elem(alloc, 0, room)?,
            mask: room - 1,
        };
        for (place, device) in devices.iter().enumerate() {
            hints.put(device.path().as_bytes(), place);
        }
        Ok(hints)
    }

    fn slot(&self, path: &[u8]) -> usize {
        let word = last_word(path) ^ path.len().wrapping_shl(11);
        let spread = (word ^ word.wrapping_shr(32)).wrapping_mul(SPREAD);
        spread.wrapping_shr(40) & self.mask
    }

    fn put(&mut self, path: &[u8], place: usize) {
        let slot = self.slot(path);
        if let (Some(kept), Ok(place)) = (self.places.get_mut(slot), u16::try_from(place)) {
            *kept = place;
        }
    }

    /// The only place where the path's device may stand, unless the path is like another one.
    pub fn guess(&self, path: &[u8]) -> usize {
        match self.places.get(self.slot(path)) {
            Some(place) => usize::from(*place),
            None => 0,
        }
    }
}
