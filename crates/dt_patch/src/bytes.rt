//! Bytes written in the place of others.
ghost use Rattle.std.specs.Prelude.{◌≡◌, ◌+◌, ◌*◌, ◌-◌, ◌%◌, ◌≤◌, ◌<◌, ◌^◌, length};
ghost use Rattle.dt_blob.specs.BigEndian.{double_word, word};
ghost use Rattle.dt_blob.specs.Blob.{padding};
ghost use Rattle.dt_patch.specs.Nopping.{nops};
ghost use Rattle.dt_patch.specs.Private.Places.{put_at};
ghost use Rattle.dt_patch.specs.Private.Cutting.{node_bytes};
ghost use Rattle.dt_patch.specs.Private.Pieces.{property_bytes};

use byteorder::{BigEndian, ByteOrder};

/// The words that begin a node, end it, and begin a property (section 5.4.1).
const BEGIN_NODE: u32 = 1;

const END_NODE: u32 = 2;

const PROPERTY: u32 = 3;

/// The word of a token that says nothing.
const NOP: u32 = 4;

/// Puts bytes at a place.
pub(crate) fn put(blob: &mut [u8], at: usize, bytes: &[u8])
    requires { at + length bytes.now ≤ length blob.old }
    ensures { blob.new ≡ put_at blob.old at bytes.now }
{
    blob[at..at + bytes.len()].copy_from_slice(bytes);
}

/// Puts a number of 32 bits at a place.
#[tactic(auto, unfolding(dt_blob::specs::BigEndian::word))]
pub(crate) fn put_word(blob: &mut [u8], at: usize, number: u32)
    requires { at + 4 ≤ length blob.old }
    ensures { blob.new ≡ put_at blob.old at (word number) }
{
    let mut bytes = [0; 4];
    BigEndian::write_u32(&mut bytes, number);
    put(blob, at, &bytes);
}

/// Puts a number of 64 bits at a place.
#[tactic(auto, unfolding(dt_blob::specs::BigEndian::double_word))]
pub(crate) fn put_long(blob: &mut [u8], at: usize, number: u64)
    requires { at + 8 ≤ length blob.old }
    ensures { blob.new ≡ put_at blob.old at (double_word number) }
{
    let mut bytes = [0; 8];
    BigEndian::write_u64(&mut bytes, number);
    put(blob, at, &bytes);
}

/// Puts the zero bytes at a place that stand behind so many bytes.
fn put_padding(blob: &mut [u8], at: usize, len: usize)
    requires { at + (4 - len % 4) % 4 ≤ length blob.old }
    ensures { blob.new ≡ put_at blob.old at (padding len) }
{
    put(blob, at, &[0, 0, 0][..(4 - len % 4) % 4]);
}

/// Puts a property at a place, whose name stands at another in the strings.
pub(crate) fn put_property(blob: &mut [u8], at: usize, name: u32, value: &[u8])
    requires room { at + length (property_bytes name value.now) ≤ length blob.old }
    requires short { length blob.old < 2 ^ 32 }
    ensures { blob.new ≡ put_at blob.old at (property_bytes name value.now) }
{
    put_word(blob, at, PROPERTY);
    put_word(blob, at + 4, value.len() as u32);
    put_word(blob, at + 8, name);
    put(blob, at + 12, value);
    put_padding(blob, at + 12 + value.len(), value.len());
}

/// Puts an empty node of a name at a place.
pub(crate) fn put_node(blob: &mut [u8], at: usize, name: &[u8])
    requires room { at + length (node_bytes name.now) ≤ length blob.old }
    requires short { length blob.old < 2 ^ 32 }
    ensures { blob.new ≡ put_at blob.old at (node_bytes name.now) }
{
    let end = at + 4 + name.len();
    put_word(blob, at, BEGIN_NODE);
    put(blob, at + 4, name);
    put(blob, end, &[0]);
    put_padding(blob, end + 1, name.len() + 1);
    put_word(blob, end + 1 + (4 - (name.len() + 1) % 4) % 4, END_NODE);
}

/// Puts so many NOPs at a place.
pub(crate) fn put_nops(blob: &mut [u8], at: usize, count: usize)
    requires { at + 4 * count ≤ length blob.old }
    ensures { blob.new ≡ put_at blob.old at (nops count) }
{
    for place in 0..count {
        put_word(blob, at + 4 * place, NOP);
    }
}
