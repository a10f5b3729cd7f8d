//! The word of a blob at which it is refused.
ghost use Rattle.std.specs.Prelude.{◌≡◌, ◌≤◌, ◌%◌};
ghost use Rattle.dtman_diagnosis.specs.BlobWords.{IsPlace, word_in};

use dt_tree::cell_at;

/// A place of a file, and the word that stands there.
#[derive(Clone, Copy)]
pub(crate) struct BlobWord {
    pub offset: usize,
    /// None where the file hasn't all of it.
    pub found: Option<u32>,
}

// The word at an offset, where all of it is there.
fn word_in(bytes: &[u8], offset: usize) -> Option<u32>
    ensures { result ≡ word_in bytes.now offset }
{
    if bytes.len() < 4 {
        return None;
    }
    if offset > bytes.len() - 4 {
        return None;
    }
    Some(cell_at(bytes, offset))
}

// The word that an offset lies in, or the last of so many bytes.
fn aligned(len: usize, offset: usize) -> usize
    ensures inside { result ≤ len }
    ensures word { result % 4 ≡ 0 }
{
    offset.min(len) / 4 * 4
}

/// The word behind so many bytes of a file.
pub(crate) fn word_behind(bytes: &[u8], before: usize) -> BlobWord
    ensures { IsPlace bytes.now result.offset result.found }
{
    let offset = aligned(bytes.len(), before);
    BlobWord {
        offset,
        found: word_in(bytes, offset),
    }
}
