ghost use Rattle.std.specs.Prelude.{◌≡◌, ◌≢◌, ◌==◌, ◌<◌, ℕ, false, true};
ghost use Rattle.std.specs.Int.{bit_at};
ghost use Rattle.bus_manager.specs.Private.Seen.{IsPut};
ghost use Rattle.bus_manager.specs.Seen.{sees};

use bus_plan::{Device, MAX_DEVICES};
use std::marker::Model;

/// How many devices have their bits in one word.
const WORD_BITS: usize = 64;

/// How many words the devices of the largest plan need.
const WORDS: usize = MAX_DEVICES / WORD_BITS;

/// The devices that were seen bound for a flight, a bit a device. It has room for those of the largest plan, and takes no
/// memory.
#[derive(Clone, Copy)]
pub struct Seen {
    words: [u64; WORDS],
}

impl Model for Seen {
    ghost use Rattle.std.specs.Prelude.{List, ℕ};

    ghost Value = { List ℕ };

    ghost view = { λ seen. seen.words };

    ghost inverse = { λ words. record { words = words } };
}

impl Seen {
    /// No device.
    pub(crate) fn new() -> Self
        ensures { (d : ℕ) → sees result d ≡ false }
    {
        Self { words: [0; WORDS] }
    }

    /// Whether the device was seen bound.
    pub fn contains(&self, device: Device) -> bool
        ensures { result ≡ sees self.now device }
    {
        match self.words.get(device.index() / WORD_BITS) {
            Some(word) => has_bit(*word, device.index() % WORD_BITS),
            None => false,
        }
    }

    /// Puts a device into the set.
    pub(crate) fn insert(&mut self, device: Device)
        requires { device < MAX_DEVICES }
        ensures { IsPut self.old self.new device true }
    {
        self.put(device, true)
    }

    /// Says whether a device is in the set.
    pub(crate) fn put(&mut self, device: Device, is_bound: bool)
        requires { device < MAX_DEVICES }
        ensures { IsPut self.old self.new device is_bound }
    {
        let index = device.index() / WORD_BITS;
        self.words[index] = with_bit(self.words[index], device.index() % WORD_BITS, is_bound);
    }
}

fn has_bit(word: u64, bit: usize) -> bool
    requires { bit < 64 }
    ensures { result ≡ (bit_at word bit == 1) }
{
    (word >> bit) & 1 == 1
}

// The word with this bit set or cleared.
fn with_bit(word: u64, bit: usize, is_set: bool) -> u64
    requires { bit < 64 }
    ensures here { (bit_at result bit == 1) ≡ is_set }
    ensures others { (i : ℕ) → i < 64 → i ≢ bit → bit_at result i ≡ bit_at word i }
{
    if is_set {
        word | (1 << bit)
    } else {
        word & !(1 << bit)
    }
}
