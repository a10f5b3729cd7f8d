//! Files that are looked for by the bytes of their paths.
ghost use Rattle.std.specs.Prelude.{◌<◌, ◌^◌};

use crate::surroundings::Surroundings;
use dtman_engine::{MAX_BLOB_LEN, read_all};
use std::alloc::{AllocError, Global};
use std::io::{Error, ErrorKind};
use std::str;

/// The most bytes that are kept of a file: one less than 4 GiB.
const MAX_FILE_LEN: usize = u32::MAX as usize;

/// What is found where a file is looked for.
#[derive(Drop)]
pub enum Sought {
    /// All bytes of the file.
    Read(Vec<u8>),
    Missing,
    /// It is there, and can't be read to its end. The surroundings tell why.
    Broken,
}

/// Looks for the file at a path, which leads nowhere where it is no text. One of 4 GiB or more is broken.
pub fn file_at<S: Surroundings>(
    alloc: Global,
    surroundings: &mut S,
    path: &[u8],
) -> Result<Sought, AllocError> {
    let Ok(path) = str::from_utf8(path) else {
        surroundings.note(Error::new(ErrorKind::InvalidFilename, "its name is no text of UTF-8"));
        return Ok(Sought::Missing);
    };
    match read_whole(alloc, surroundings, path, MAX_BLOB_LEN)? {
        Some(sought) => Ok(sought),
        None => long_file_at(alloc, surroundings, path),
    }
}

// The same of a file that is longer than a blob may be. A device, which has no length, might never end.
fn long_file_at<S: Surroundings>(
    alloc: Global,
    surroundings: &mut S,
    path: &str,
) -> Result<Sought, AllocError> {
    let len = surroundings.len(path).unwrap_or(0);
    let limit = usize::try_from(len).unwrap_or(0);
    if MAX_BLOB_LEN < limit && limit < MAX_FILE_LEN {
        if let Some(sought) = read_whole(alloc, surroundings, path, limit)? {
            return Ok(sought);
        }
    }
    surroundings.note(Error::new(
        ErrorKind::FileTooLarge,
        "of files that are taken in, less than 4 GiB are read",
    ));
    Ok(Sought::Broken)
}

// Looks for a file. None where it has more bytes than the limit.
fn read_whole<S: Surroundings>(
    alloc: Global,
    surroundings: &mut S,
    path: &str,
    limit: usize,
) -> Result<Option<Sought>, AllocError>
    requires { limit < 2 ^ 32 }
{
    let Ok(mut file) = surroundings.open(path) else {
        return Ok(Some(Sought::Missing));
    };
    match read_all(alloc, &mut file, limit) {
        Ok(bytes) if bytes.len() > limit => Ok(None),
        Ok(bytes) => Ok(Some(Sought::Read(bytes))),
        Err(fault) if fault.number == 0 => Err(AllocError),
        Err(_) => Ok(Some(Sought::Broken)),
    }
}
