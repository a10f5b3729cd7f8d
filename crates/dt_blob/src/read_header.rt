//! The header of a blob and its tests.
ghost use Rattle.std.specs.Prelude.{◌≡◌, ◌≤◌, ◌+◌, length, None, Some, true, false, MatchResult};
ghost use Rattle.dt_blob.specs.Steps.Answered.{ReadsHeader};
ghost use Rattle.dt_blob.specs.Answers.{IsHeaderRefusal};
ghost use Rattle.dt_blob.specs.Format.{header_size};
ghost use Rattle.dt_blob.specs.HeaderWords.{word_at, structure_size_in, header_of, is_laid_out, IsMisplaced, header_fault};

use crate::error::BlobError;
use crate::header::{HEADER_SIZE, MAGIC, VERSION};
use crate::parts::word;
use crate::read_error::{ReadError, Wanted, refused};
use crate::room::MAX_SIZE;
use dt_tree::behind;

/// The lowest version that is read.
const OLDEST_VERSION: u32 = 16;

const MAGIC_AT: usize = 0;

const SIZE_AT: usize = 4;

const STRUCTURE_AT: usize = 8;

const STRINGS_AT: usize = 12;

/// Where the header tells the place of the reserved memory.
pub(crate) const RESERVES_AT: usize = 16;

const VERSION_AT: usize = 20;

const LAST_COMPATIBLE_AT: usize = 24;

const BOOT_CPU_AT: usize = 28;

const STRINGS_SIZE_AT: usize = 32;

const STRUCTURE_SIZE_AT: usize = 36;

/// The words of the header.
#[derive(Clone, Copy)]
pub(crate) struct Header {
    pub magic: u32,
    pub size: u32,
    pub structure_at: u32,
    pub strings_at: u32,
    pub reserves_at: u32,
    pub version: u32,
    pub last_compatible: u32,
    pub boot_cpu: u32,
    pub strings_size: u32,
    pub structure_size: Option<u32>,
}

fn word_at(bytes: &[u8], place: usize) -> u32
    requires { place + 4 ≤ length bytes.now }
    ensures { result ≡ word_at place bytes.now }
{
    word(behind(bytes, place))
}

// The size of the structure block, which came with version 17.
fn structure_size(bytes: &[u8]) -> Option<u32>
    requires { header_size ≤ length bytes.now }
    ensures { result ≡ structure_size_in bytes.now }
{
    if word_at(bytes, VERSION_AT) < VERSION {
        return None;
    }
    Some(word_at(bytes, STRUCTURE_SIZE_AT))
}

fn header_of(bytes: &[u8]) -> Header
    requires { header_size ≤ length bytes.now }
    ensures { result ≡ header_of bytes.now }
{
    Header {
        magic: word_at(bytes, MAGIC_AT),
        size: word_at(bytes, SIZE_AT),
        structure_at: word_at(bytes, STRUCTURE_AT),
        strings_at: word_at(bytes, STRINGS_AT),
        reserves_at: word_at(bytes, RESERVES_AT),
        version: word_at(bytes, VERSION_AT),
        last_compatible: word_at(bytes, LAST_COMPATIBLE_AT),
        boot_cpu: word_at(bytes, BOOT_CPU_AT),
        strings_size: word_at(bytes, STRINGS_SIZE_AT),
        structure_size: structure_size(bytes),
    }
}

// Both blocks end inside the blob, whatever their sums, or begin there, and the two places are aligned.
fn check_layout(header: Header) -> Result<(), ReadError>
    ensures { MatchResult result (λ _. is_laid_out header ≡ true)
        (λ e. (is_laid_out header ≡ false) × IsMisplaced header e) }
{
    let size = u64::from(header.size);
    let structure = u64::from(header.structure_at);
    let strings = u64::from(header.strings_at);
    if size < HEADER_SIZE as u64 {
        return Err(misplaced(SIZE_AT, Wanted::SizeOfHeader));
    }
    if size < structure {
        return Err(misplaced(STRUCTURE_AT, Wanted::StructureInBlob));
    }
    if size < structure + u64::from(header.structure_size.unwrap_or(0)) {
        return Err(misplaced(STRUCTURE_SIZE_AT, Wanted::StructureEndInBlob));
    }
    if size < strings {
        return Err(misplaced(STRINGS_AT, Wanted::StringsInBlob));
    }
    if size < strings + u64::from(header.strings_size) {
        return Err(misplaced(STRINGS_SIZE_AT, Wanted::StringsEndInBlob));
    }
    if header.structure_at % 4 != 0 {
        return Err(misplaced(STRUCTURE_AT, Wanted::StructureAligned));
    }
    if header.reserves_at % 8 != 0 {
        return Err(misplaced(RESERVES_AT, Wanted::ReservesAligned));
    }
    Ok(())
}

fn misplaced(at: usize, wanted: Wanted) -> ReadError
    ensures kind { result.kind ≡ BlobError.BadLayout }
    ensures at { result.at ≡ at }
{
    refused(BlobError::BadLayout, at, wanted)
}

fn check(header: Header, len: usize) -> Result<Header, ReadError>
    ensures { ReadsHeader header len result }
{
    if header.magic != MAGIC {
        return Err(refused(BlobError::BadMagic, MAGIC_AT, Wanted::MagicNumber));
    }
    if header.version < OLDEST_VERSION {
        return Err(refused(BlobError::BadVersion, VERSION_AT, Wanted::Version));
    }
    if VERSION < header.last_compatible {
        return Err(refused(
            BlobError::BadVersion,
            LAST_COMPATIBLE_AT,
            Wanted::LastCompatible,
        ));
    }
    if len < header.size as usize {
        return Err(refused(BlobError::Truncated, SIZE_AT, Wanted::SizeInFile));
    }
    check_layout(header)?;
    Ok(header)
}

/// The header, once its tests are passed: their first fault else, at the word that shows it.
pub(crate) fn read_header(bytes: &[u8]) -> Result<Header, ReadError>
    ensures { MatchResult result (λ h. (h ≡ header_of bytes.now) × (header_fault bytes.now ≡ None))
        (IsHeaderRefusal bytes.now) }
{
    if bytes.len() > MAX_SIZE {
        return Err(refused(BlobError::TooLarge, MAX_SIZE, Wanted::FewerBytes));
    }
    if bytes.len() < HEADER_SIZE {
        let last = bytes.len() / 4 * 4;
        return Err(refused(BlobError::Truncated, last, Wanted::Header));
    }
    check(header_of(bytes), bytes.len())
}
