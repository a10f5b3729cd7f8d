//! Sets of bytes.

/// A set of bytes.
#[derive(Clone, Copy, Debug)]
pub struct ByteSet {
    words: [u64; 4],
}

impl ByteSet {
    pub const NONE: ByteSet = ByteSet { words: [0; 4] };

    /// Of one byte.
    pub fn of(byte: u8) -> Self {
        let mut set = Self::NONE;
        set.insert(byte);
        set
    }

    /// Puts a byte in.
    pub fn insert(&mut self, byte: u8) {
        let word = byte as usize / 64;
        self.words[word] |= 1u64 << (byte % 64);
    }

    /// Puts the bytes from one to another in.
    pub fn insert_range(&mut self, first: u8, last: u8) {
        for byte in first..last {
            self.insert(byte);
        }
        if first <= last {
            self.insert(last);
        }
    }

    /// Puts the bytes of another set in.
    pub fn insert_all(&mut self, other: &ByteSet) {
        for index in 0..4 {
            self.words[index] |= other.words[index];
        }
    }

    /// The bytes that aren't in it.
    pub fn others(&self) -> Self {
        let mut set = Self::NONE;
        for index in 0..4 {
            set.words[index] = !self.words[index];
        }
        set
    }

    /// Whether a byte is in it.
    pub fn contains(&self, byte: u8) -> bool {
        let word = byte as usize / 64;
        (self.words[word] >> (byte % 64)) & 1 == 1
    }
}
