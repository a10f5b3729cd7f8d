//! The blocks of a blob.
ghost use Rattle.std.specs.Prelude.{◌≡◌, ◌≤◌, ◌+◌, length, MatchResult, None};
ghost use Rattle.dt_blob.specs.Answers.{IsHeaderRefusal};
ghost use Rattle.dt_blob.specs.Blocks.{AreBlocks};
ghost use Rattle.dt_blob.specs.HeaderWords.{block, header_fault};

use crate::parts::first;
use crate::read_error::ReadError;
use crate::read_header::read_header;
use dt_tree::behind;

/// The blocks of a blob whose header passes its tests, over the blob's bytes.
#[derive(Clone, Copy)]
pub struct BlobBlocks<'a> {
    /// From the reserved memory on, up to the end of the blob.
    pub reserves: &'a [u8],
    /// The structure block; in version 16, whose header has no size of it, up to the end of the blob.
    pub structure: &'a [u8],
    pub strings: &'a [u8],
    pub boot_cpu: u32,
    /// Whether the header tells the size of the structure block.
    pub is_sized: bool,
    /// How many bytes of the blob stand before the reserved memory.
    pub reserves_at: usize,
    /// How many bytes of the blob stand before the structure block.
    pub structure_at: usize,
}

fn block(bytes: &[u8], place: u32, size: u32) -> &[u8]
    requires { place + size ≤ length bytes.now }
    ensures { result.now ≡ block place size bytes.now }
{
    first(behind(bytes, place as usize), size as usize)
}

/// The blocks, by the header alone: the first of its faults (`TooLarge`, `Truncated`, `BadMagic`, `BadVersion`, `BadLayout`) else.
pub fn blocks_in(bytes: &[u8]) -> Result<BlobBlocks<'_>, ReadError>
    ensures { MatchResult result (λ b. AreBlocks bytes.now b × (header_fault bytes.now ≡ None))
        (IsHeaderRefusal bytes.now) }
{
    let header = read_header(bytes)?;
    let blob = first(bytes, header.size as usize);
    let room = header
        .structure_size
        .unwrap_or(header.size - header.structure_at);
    Ok(BlobBlocks {
        reserves: behind(blob, header.reserves_at as usize),
        structure: block(bytes, header.structure_at, room),
        strings: block(bytes, header.strings_at, header.strings_size),
        boot_cpu: header.boot_cpu,
        is_sized: header.structure_size.is_some(),
        reserves_at: header.reserves_at as usize,
        structure_at: header.structure_at as usize,
    })
}
