//! The order of a blob's blocks.
ghost use Rattle.std.specs.Prelude.{◌≡◌, ◌≤◌, ◌<◌, ◌^◌, ◌+◌, false, length, MatchResult, None, true};
ghost use Rattle.byteorder.specs.Endian.{big_number};
ghost use Rattle.dt_blob.specs.HeaderWords.{header_fault, header_of, word_at};
ghost use Rattle.dt_patch.specs.Order.{is_ordered};
ghost use Rattle.dt_patch.specs.Private.Splicing.{IsLayout, IsRelaid};

use crate::bytes::put_word;
use crate::error::PatchError;
use byteorder::{BigEndian, ByteOrder};
use dt_tree::behind;

/// The header's size in bytes.
const HEADER_SIZE: usize = 40;

/// The version that tells the size of the structure block.
const SIZED_VERSION: u32 = 17;

fn word(bytes: &[u8], place: usize) -> u32
    requires { place + 4 ≤ length bytes.now }
    ensures { result ≡ word_at place bytes.now }
{
    BigEndian::read_u32(behind(bytes, place))
}

/// Where the structure block begins, of a blob whose header was tested and whose reserved memory has so many bytes.
pub(crate) fn ordered_structure(blob: &[u8], reserved: usize) -> Result<usize, PatchError>
    requires fault { header_fault blob.now ≡ None }
    requires few { reserved ≤ length blob.now }
    ensures { MatchResult result (λ at. (at ≡ (header_of blob.now).structure_at) × (is_ordered blob.now reserved ≡ true))
        (λ e. (e ≡ PatchError.Unordered) × (is_ordered blob.now reserved ≡ false)) }
{
    if word(blob, 20) < SIZED_VERSION {
        return Err(PatchError::Unordered);
    }
    let reserves_at = word(blob, 16) as usize;
    let structure_at = word(blob, 8) as usize;
    let strings_at = word(blob, 12) as usize;
    let size = word(blob, 36) as usize;
    let reserves_end = reserves_at + reserved;
    let structure_end = structure_at + size;
    if reserves_at < HEADER_SIZE {
        return Err(PatchError::Unordered);
    }
    if structure_at < reserves_end {
        return Err(PatchError::Unordered);
    }
    if strings_at < structure_end {
        return Err(PatchError::Unordered);
    }
    Ok(structure_at)
}

/// Where the blocks of a blob stand, as its header says.
#[derive(Clone, Copy)]
pub(crate) struct Layout {
    /// The blob's size.
    pub(crate) size: usize,
    pub(crate) structure_at: usize,
    pub(crate) structure_size: usize,
    pub(crate) strings_at: usize,
    pub(crate) strings_size: usize,
}

/// What the words of a header say.
pub(crate) fn layout_of(blob: &[u8]) -> Layout
    requires { 40 ≤ length blob.now }
    ensures { IsLayout blob.now result }
{
    Layout {
        size: word(blob, 4) as usize,
        structure_at: word(blob, 8) as usize,
        structure_size: word(blob, 36) as usize,
        strings_at: word(blob, 12) as usize,
        strings_size: word(blob, 32) as usize,
    }
}

/// Where the reserved memory begins, as the header says.
pub(crate) fn reserves_at(blob: &[u8]) -> usize
    requires { 40 ≤ length blob.now }
    ensures { result ≡ word_at 16 blob.now }
{
    word(blob, 16) as usize
}

/// Where the structure block begins, as the header says.
pub(crate) fn structure_at(blob: &[u8]) -> usize
    requires { 40 ≤ length blob.now }
    ensures { result ≡ word_at 8 blob.now }
{
    word(blob, 8) as usize
}

/// Makes the header say where the blocks stand.
pub(crate) fn lay(blob: &mut [u8], layout: &Layout)
    requires whole { 40 ≤ length blob.old }
    requires size { layout.now.size < 2 ^ 32 }
    requires structure_at { layout.now.structure_at < 2 ^ 32 }
    requires structure_size { layout.now.structure_size < 2 ^ 32 }
    requires strings_at { layout.now.strings_at < 2 ^ 32 }
    requires strings_size { layout.now.strings_size < 2 ^ 32 }
    ensures { IsRelaid blob.old blob.new layout.now }
{
    put_word(blob, 4, layout.size as u32);
    put_word(blob, 8, layout.structure_at as u32);
    put_word(blob, 12, layout.strings_at as u32);
    put_word(blob, 32, layout.strings_size as u32);
    put_word(blob, 36, layout.structure_size as u32);
}
