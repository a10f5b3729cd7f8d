//! The blob of a root alone.
ghost use Rattle.std.specs.Prelude.{◌≡◌, ◌-◌, ◌++◌, ◌≤◌, MatchResult, None, OnErr, OnOk, Some, length, replicate};
ghost use Rattle.dt_blob.specs.Holds.{Holds};
ghost use Rattle.dt_patch.specs.Creating.{empty_blob, empty_fault, empty_front, empty_tree};

use crate::bytes::put;
use crate::error::PatchError;
use crate::sizing::grow;
use dt_blob::BlobError;

/// The most bytes of a blob.
const MAX_SIZE: usize = 1 << 28;

/// The blob of a root alone: the header, room up to a multiple of 16, the end of the reserved memory, and a node without a name.
const EMPTY: &[u8] =
    b"\xd0\x0d\xfe\xed\x00\x00\x00\x50\x00\x00\x00\x40\x00\x00\x00\x50\x00\x00\x00\x30\x00\x00\x00\x11\x00\x00\x00\x10\x00\x00\x00\x00\x00\x00\x00\x00\x00\x00\x00\x10\x00\x00\x00\x00\x00\x00\x00\x00\x00\x00\x00\x00\x00\x00\x00\x00\x00\x00\x00\x00\x00\x00\x00\x00\x00\x00\x00\x01\x00\x00\x00\x00\x00\x00\x00\x02\x00\x00\x00\x09";

/// Puts that blob at the front of a buffer, and zero bytes behind it.
fn put_empty(buffer: &mut [u8])
    requires { 80 ≤ length buffer.old }
    ensures { buffer.new ≡ empty_front ++ replicate (length buffer.old - 80) 0 }
{
    buffer.fill(0);
    put(buffer, 0, EMPTY);
}

/// Makes a buffer the blob of a tree whose root has nothing in it; its size in the header is the buffer's, and what stands behind its blocks
/// is zero (Devicetree Specification v0.4, chapter 5).
///
/// Fails with `Blob`, `TooLarge`, in more than 2^28 bytes, and with `Short` in less than 80; the buffer is then as it was.
pub fn create_empty(buffer: &mut [u8]) -> Result<(), PatchError>
    ensures made { OnOk result (buffer.new ≡ empty_blob (length buffer.old)) }
    ensures held { OnOk result (Holds buffer.new empty_tree) }
    // Each refusal has its reason, and each reason is told.
    ensures fault { MatchResult result (λ _. empty_fault (length buffer.old) ≡ None)
        (λ e. empty_fault (length buffer.old) ≡ Some e) }
    ensures refused { OnErr result (buffer.new ≡ buffer.old) }
{
    if buffer.len() > MAX_SIZE {
        return Err(PatchError::Blob(BlobError::TooLarge));
    }
    if buffer.len() < EMPTY.len() {
        return Err(PatchError::Short(EMPTY.len()));
    }
    put_empty(buffer);
    grow(buffer)
}
