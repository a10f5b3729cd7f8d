//! Where to try first. A board's hints are plain atomics beside its words, and nothing rests on what they say: one that is
//! wrong or late costs a try.

ghost use Rattle.std.specs.Prelude.{◌<◌, IfSome};

use std::alloc::{AllocError, Global};
use std::sync::atomic::{AtomicU64, Ordering};

/// How many places have their bits in one word.
const WORD_BITS: usize = 64;

/// A bit a device, set where its word becomes FRESH or WOKEN and taken by who tries it; above them a bit for each word of
/// bits, so that the first is found without a walk. And for each device the place of the supplier that a wake found not BOUND.
#[derive(Drop)]
pub struct Hints {
    bits: Vec<AtomicU64>,
    rows: Vec<AtomicU64>,
    lacking: Vec<AtomicU64>,
}

impl Hints {
    /// A hint at each of so many devices.
    pub fn new(alloc: Global, count: usize) -> Result<Hints, AllocError> {
        let words = count.div_ceil(WORD_BITS);
        let hints = Hints {
            bits: zeros(alloc, words)?,
            rows: zeros(alloc, words.div_ceil(WORD_BITS))?,
            lacking: zeros(alloc, count)?,
        };
        for place in 0..count {
            hints.set(place);
        }
        Ok(hints)
    }

    /// A claim may be won here.
    pub fn set(&self, place: usize) {
        raise(&self.bits, place);
        raise(&self.rows, place / WORD_BITS);
    }

    /// Takes a hint away, and says whether it was there.
    pub fn clear(&self, place: usize) -> bool {
        let was = lower(&self.bits, place);
        self.mend(place / WORD_BITS);
        was
    }

    /// Takes away the first hint, below so many places.
    pub fn take_first(&self, count: usize) -> Option<usize>
        ensures { IfSome result (λ place. place < count) }
    {
        for _try in 0..=self.bits.len() {
            let row = first_bit(&self.rows)?;
            if let Some(bit) = lowest(load(&self.bits, row)) {
                let place = row.saturating_mul(WORD_BITS).saturating_add(bit);
                if self.clear(place) & (place < count) {
                    return Some(place);
                }
            } else {
                self.mend(row);
            }
        }
        None
    }

    /// Whether there is more than one.
    pub fn has_two(&self) -> bool {
        let Some(row) = first_bit(&self.rows) else {
            return false;
        };
        load(&self.bits, row).count_ones() > 1
            || self
                .rows
                .iter()
                .any(|word| word.load(Ordering::SeqCst).count_ones() > 1)
    }

    // A row without hints is marked so. A hint that comes meanwhile is seen by the second look, or marks the row itself.
    fn mend(&self, row: usize) {
        if load(&self.bits, row) == 0 {
            lower(&self.rows, row);
            if load(&self.bits, row) != 0 {
                raise(&self.rows, row);
            }
        }
    }

    /// Where in its list the supplier stands at which a wake of the device last stopped.
    pub fn lacking(&self, place: usize) -> usize {
        match self.lacking.get(place) {
            Some(word) => word.load(Ordering::SeqCst) as usize,
            None => 0,
        }
    }

    /// A wake of the device stopped at this place of its list.
    pub fn note_lacking(&self, place: usize, supplier: usize) {
        if let Some(word) = self.lacking.get(place) {
            word.store(supplier as u64, Ordering::SeqCst);
        }
    }
}

fn zeros(alloc: Global, count: usize) -> Result<Vec<AtomicU64>, AllocError> {
    let mut words = Vec::with_capacity(alloc, count)?;
    for _word in 0..count {
        words.push(AtomicU64::new(0))?;
    }
    Ok(words)
}

fn load(words: &[AtomicU64], index: usize) -> u64 {
    match words.get(index) {
        Some(word) => word.load(Ordering::SeqCst),
        None => 0,
    }
}

fn mask_of(place: usize) -> u64 {
    1 << (place % WORD_BITS)
}

fn raise(words: &[AtomicU64], place: usize) {
    if let Some(word) = words.get(place / WORD_BITS) {
        if word.load(Ordering::SeqCst) & mask_of(place) == 0 {
            word.fetch_or(mask_of(place), Ordering::SeqCst);
        }
    }
}

fn lower(words: &[AtomicU64], place: usize) -> bool {
    match words.get(place / WORD_BITS) {
        Some(word) => word.fetch_and(!mask_of(place), Ordering::SeqCst) & mask_of(place) != 0,
        None => false,
    }
}

// The place of the lowest bit.
fn lowest(word: u64) -> Option<usize> {
    if word == 0 {
        return None;
    }
    Some(word.trailing_zeros() as usize)
}

// The place of the first bit.
fn first_bit(words: &[AtomicU64]) -> Option<usize> {
    for index in 0..words.len() {
        if let Some(bit) = lowest(load(words, index)) {
            return Some(index.saturating_mul(WORD_BITS).saturating_add(bit));
        }
    }
    None
}
