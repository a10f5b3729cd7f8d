//! A channel over memory, for tests of what reads and writes.
ghost use Rattle.std.specs.Prelude.{◌≡◌, [], None};

use crate::channel::{Channel, Failed};
use std::alloc::Global;

/// Bytes to read, and those that were written. The chosen call fails, and so does one that could move nothing.
#[derive(Drop)]
pub struct Memory<'a> {
    pub left: &'a [u8],
    pub written: Vec<u8>,
    /// The most bytes that one call moves.
    pub pace: usize,
    /// The calls before the one that fails, if one does.
    pub calls_left: Option<usize>,
    /// Why that one fails.
    pub failing: Failed,
    /// Why the last call failed that did.
    pub failure: Option<Failed>,
}

impl<'a> Memory<'a> {
    /// A channel on which no call fails.
    pub fn new(alloc: Global, left: &'a [u8]) -> Memory<'a>
        ensures left { result.left.now ≡ left.now }
        ensures written { result.written.items ≡ [] }
        ensures faultless { result.calls_left ≡ None }
        ensures sound { result.failure ≡ None }
    {
        Memory {
            left,
            written: Vec::new(alloc),
            pace: usize::MAX,
            calls_left: None,
            failing: Failed::Fault,
            failure: None,
        }
    }
}

/// Counts a call, and answers whether it is the one that fails.
fn is_failing(calls_left: &mut Option<usize>) -> bool {
    match *calls_left {
        Some(0) => true,
        Some(calls) => {
            *calls_left = Some(calls - 1);
            false
        }
        None => false,
    }
}

impl Channel for Memory<'_> {
    ghost use Rattle.std.specs.Prelude.{Some, is_some};

    ghost left = { λ memory. Some memory.left.now };

    ghost written = { λ memory. Some memory.written.items };

    ghost has_failed = { λ memory. is_some memory.failure };

    ghost failure = { λ memory. memory.failure };

    fn read(&mut self, buffer: &mut [u8]) -> Result<usize, Failed> {
        let count = self.pace.min(buffer.len()).min(self.left.len());
        let is_stuck = count == 0 && !buffer.is_empty() && !self.left.is_empty();
        if is_failing(&mut self.calls_left) || is_stuck {
            self.failure = Some(self.failing);
            return Err(self.failing);
        }
        buffer[..count].copy_from_slice(&self.left[..count]);
        self.left = &self.left[count..];
        Ok(count)
    }

    fn write(&mut self, piece: &[u8]) -> Result<usize, Failed> {
        let count = self.pace.min(piece.len());
        let is_stuck = count == 0 && !piece.is_empty();
        if is_failing(&mut self.calls_left) || is_stuck {
            self.failure = Some(self.failing);
            return Err(self.failing);
        }
        match self.written.extend_from_slice(&piece[..count]) {
            Ok(()) => Ok(count),
            Err(_) => {
                self.failure = Some(Failed::Fault);
                Err(Failed::Fault)
            }
        }
    }
}
