//! What bytes come from and go to.
ghost use Rattle.std.specs.Prelude.{◌≡◌, ℕ, ◌<◌, ◌≤◌, Bool, true, List, Option, Some, take, length, IfOk, IfErr, OnOk, OnErr};
ghost use Rattle.std.specs.Io.KnownBytes.{Appends, Consumes, IsAtEnd, Keeps};
ghost use Rattle.dtman_engine.specs.declared.channel.Failed.{Failed};

/// Why a call moved nothing that counts.
#[derive(Clone, Copy, Debug, PartialEq, Eq)]
pub enum Failed {
    /// It met a fault, was interrupted, or could take nothing.
    Fault,
    /// Nobody reads what is written: the other end of the pipe is closed.
    Unread,
}

/// A file, standard output, or memory.
pub trait Channel {
    // The bytes that are left to read, where the channel tells them.
    ghost left: { Self → Option (List ℕ) };

    // The bytes that were written, where the channel tells them.
    ghost written: { Self → Option (List ℕ) };

    // Whether a call has failed.
    ghost has_failed: { Self → Bool };

    // Why the last call failed that did.
    ghost failure: { Self → Option Failed };

    /// Reads bytes to the front of the buffer, and answers how many: none only at the end, or where there is no room.
    fn read(&mut self, buffer: &mut [u8]) -> Result<usize, Failed>
        ensures count { IfOk result (λ n. n ≤ length buffer.old) }
        ensures taken { IfOk result (λ n. Consumes (left self.old) (left self.new) (take n buffer.new)) }
        ensures end { IfOk result (λ n. n ≡ 0 → 0 < length buffer.old → IsAtEnd (left self.new)) }
        ensures others { Keeps (written self.old) (written self.new) }
        ensures ok { OnOk result (has_failed self.new ≡ has_failed self.old) }
        ensures failed { OnErr result (has_failed self.new ≡ true) };

    /// Writes bytes from the front of the piece, and answers how many: none only where the piece has none.
    fn write(&mut self, piece: &[u8]) -> Result<usize, Failed>
        ensures count { IfOk result (λ n. n ≤ length piece.now) }
        ensures some { IfOk result (λ n. 0 < length piece.now → 0 < n) }
        ensures given { IfOk result (λ n. Appends (written self.old) (written self.new) (take n piece.now)) }
        ensures none { OnErr result (Keeps (written self.old) (written self.new)) }
        ensures others { Keeps (left self.old) (left self.new) }
        ensures ok { OnOk result (has_failed self.new ≡ has_failed self.old) }
        ensures failed { OnErr result (has_failed self.new ≡ true) }
        ensures why { IfErr result (λ why. failure self.new ≡ Some why) };
}
