//! Whole inputs read and whole outputs written.
ghost use Rattle.std.specs.Prelude.{◌≡◌, ◌+◌, ◌<◌, ◌≤◌, ◌^◌, false, true, length, Some, IfOk, IfErr, OnOk};
ghost use Rattle.std.specs.Io.KnownBytes.{Appends, Consumes, IsAtEnd};
ghost use Rattle.dtman_engine.specs.Transfer.{CannotTake, CannotTakeAll, TakesAll, WritesFront};

use crate::channel::{Channel, Failed};
use crate::fault::Fault;
use std::alloc::Global;

/// The most bytes that are asked for at once.
const PIECE: usize = 16384;

/// A write that failed, how many bytes were written before it, and why it did.
#[derive(Clone, Copy, Debug, PartialEq, Eq)]
pub struct WriteFault {
    pub written: usize,
    pub why: Failed,
}

/// The bytes of a channel up to its end, or one more than the limit where there are more.
pub fn read_all<C: Channel>(alloc: Global, channel: &mut C, limit: usize) -> Result<Vec<u8>, Fault>
    requires bounded { limit < 2 ^ 32 }
    requires sound { C.has_failed channel.old ≡ false }
    // What is taken is the answer, and no more.
    ensures taken { IfOk result (λ bytes. Consumes (C.left channel.old) (C.left channel.new) bytes.items) }
    ensures most { IfOk result (λ bytes. length bytes.items ≤ limit + 1) }
    // It stops before that at the end alone.
    ensures end { IfOk result (λ bytes. length bytes.items ≤ limit → IsAtEnd (C.left channel.new)) }
    ensures ok { OnOk result (C.has_failed channel.new ≡ false) }
    ensures fault { IfErr result (CannotTake (C.has_failed channel.new)) }
{
    let mut bytes = Vec::new(alloc);
    let mut piece = [0u8; PIECE];
    while bytes.len() <= limit {
        let room = PIECE.min(limit + 1 - bytes.len());
        match channel.read(&mut piece[..room]) {
            Ok(0) => return Ok(bytes),
            Ok(count) => bytes.extend_from_slice(&piece[..count])?,
            Err(_) => return Err(Fault::cannot_read()),
        }
    }
    Ok(bytes)
}

/// The bytes of a channel up to its end, where they are no more than the limit.
pub fn read_within<C: Channel>(
    alloc: Global,
    channel: &mut C,
    limit: usize,
) -> Result<Vec<u8>, Fault>
    requires bounded { limit < 2 ^ 32 }
    requires sound { C.has_failed channel.old ≡ false }
    ensures taken { IfOk result (λ bytes. TakesAll (C.left channel.old) (C.left channel.new) bytes.items limit) }
    ensures fault { IfErr result (CannotTakeAll (C.has_failed channel.new) (C.left channel.old) limit) }
{
    let bytes = read_all(alloc, channel, limit)?;
    if bytes.len() > limit {
        return Err(Fault::file_too_long());
    }
    Ok(bytes)
}

/// Writes the whole text, piece by piece. Takes no memory.
pub fn write_out<C: Channel>(channel: &mut C, text: &[u8]) -> Result<(), WriteFault>
    requires { C.has_failed channel.old ≡ false }
    ensures whole { OnOk result (Appends (C.written channel.old) (C.written channel.new) text.now) }
    ensures ok { OnOk result (C.has_failed channel.new ≡ false) }
    // After a fault the channel has the first bytes of the text, as many as the fault says.
    ensures front { IfErr result (WritesFront (C.written channel.old) (C.written channel.new) text.now) }
    ensures fault { IfErr result (λ _. C.has_failed channel.new ≡ true) }
    // The fault tells why the channel's call failed.
    ensures why { IfErr result (λ fault. C.failure channel.new ≡ Some fault.why) }
{
    let mut written = 0;
    while written < text.len() {
        match channel.write(&text[written..]) {
            Ok(count) => written += count,
            Err(why) => return Err(WriteFault { written, why }),
        }
    }
    Ok(())
}
