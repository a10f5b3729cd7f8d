//! Text that is put together.
ghost use Rattle.std.specs.Prelude.{◌≡◌, ◌∷◌, ◌++◌, [], codes, decimal, OnOk};

use std::alloc::{AllocError, Global};

/// Text so far.
#[derive(Drop)]
pub struct Writer {
    alloc: Global,
    pub text: Vec<u8>,
}

impl Writer {
    /// No text.
    pub fn new(alloc: Global) -> Self
        ensures { result.text.items ≡ [] }
    {
        Self {
            alloc,
            text: Vec::new(alloc),
        }
    }

    /// Puts bytes last.
    pub fn put(&mut self, bytes: &[u8]) -> Result<(), AllocError>
        ensures { OnOk result (self.new.text.items ≡ self.old.text.items ++ bytes.now) }
    {
        self.text.extend_from_slice(bytes)
    }

    /// Puts a word and then a number.
    pub fn count(&mut self, word: &str, number: usize) -> Result<(), AllocError>
        ensures { OnOk result (self.new.text.items ≡ self.old.text.items ++ word.now ++ decimal number) }
    {
        let text = format!(in self.alloc; "{word}{number}")?;
        self.text.extend_from_slice(text.as_bytes())
    }

    /// Puts a word and then a number in hex.
    pub fn hex(&mut self, word: &str, number: u64) -> Result<(), AllocError> {
        let text = format!(in self.alloc; "{word}{number:x}")?;
        self.text.extend_from_slice(text.as_bytes())
    }

    /// Puts a word and then a byte of a name, in quotes.
    pub fn byte(&mut self, word: &str, byte: u8) -> Result<(), AllocError>
        ensures { OnOk result
            (self.new.text.items ≡ self.old.text.items ++ word.now ++ codes " '" ++ byte ∷ codes "'") }
    {
        self.put(word.as_bytes())?;
        self.put(b" '")?;
        self.text.push(byte)?;
        self.put(b"'")
    }
}
