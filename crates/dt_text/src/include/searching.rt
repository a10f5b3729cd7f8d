//! Files by the names that sources give them: beside the file that names them, then in folders, in order.
ghost use Rattle.std.specs.Prelude.{◌≡◌, ℕ, List, IfOk, map};
ghost use Rattle.dt_text.specs.Include.Private.Sought.{Answers, AnswersFirst};
ghost use Rattle.dt_text.specs.Include.Searching.{FindsWithin, IsFolder, IsSought, LacksWithin, in_folder, is_closed};

use crate::include::bytes::{begins, front};
use crate::include::inclusion::Found;
use std::alloc::{AllocError, Global};
use std::str;

/// Files by their paths.
pub trait Reads {
    ghost use Rattle.dt_text.specs.Include.Searching.{IsRead};

    // that a path was read to these bytes, and that no file was read there; each kind of files says what that means
    ghost reads: { List ℕ → List ℕ → Type 0 };

    ghost lacks: { List ℕ → Type 0 };

    /// The bytes of a file; none where it can't be read.
    fn read(&mut self, alloc: Global, path: &str) -> Result<Option<Vec<u8>>, AllocError>
        ensures { IfOk result (IsRead reads lacks path.now) };
}

/// The file of a name, as dtc looks for it: by the name alone where that begins with a slash, else beside the file that
/// names it, then in the folders.
pub fn search<R: Reads>(
    alloc: Global,
    reads: &mut R,
    folders: &[&str],
    beside: &[u8],
    name: &[u8],
) -> Result<Option<Found>, AllocError>
    ensures { let within = map (λ folder. folder.now) folders.now in
        IfOk result (IsSought (FindsWithin R.reads R.lacks within) (LacksWithin R.lacks within) beside.now name.now) }
{
    if begins(name, b'/') {
        return read_in(alloc, reads, b"", name);
    }
    if let Some(found) = read_in(alloc, reads, folder_of(beside), name)? {
        return Ok(Some(found));
    }
    read_first(alloc, reads, folders, name)
}

/// The file of a name in the first of these folders that has one.
fn read_first<R: Reads>(
    alloc: Global,
    reads: &mut R,
    folders: &[&str],
    name: &[u8],
) -> Result<Option<Found>, AllocError>
    ensures { IfOk result (AnswersFirst R.reads R.lacks (map (λ folder. in_folder folder.now name.now) folders.now)) }
{
    for folder in folders {
        if let Some(found) = read_in(alloc, reads, folder.as_bytes(), name)? {
            return Ok(Some(found));
        }
    }
    Ok(None)
}

/// The file of a name in a folder. A path that is no text names none.
fn read_in<R: Reads>(
    alloc: Global,
    reads: &mut R,
    folder: &[u8],
    name: &[u8],
) -> Result<Option<Found>, AllocError>
    ensures { IfOk result (Answers R.reads R.lacks (in_folder folder.now name.now)) }
{
    let path = path_in(alloc, folder, name)?;
    let Ok(text) = str::from_utf8(path.as_slice()) else {
        return Ok(None);
    };
    match reads.read(alloc, text)? {
        Some(bytes) => Ok(Some(Found { path, bytes })),
        None => Ok(None),
    }
}

/// The path of a name in a folder.
fn path_in(alloc: Global, folder: &[u8], name: &[u8]) -> Result<Vec<u8>, AllocError>
    ensures { IfOk result (λ path. path.items ≡ in_folder folder.now name.now) }
{
    let mut path = Vec::from_slice(alloc, folder)?;
    if !is_closed(folder) {
        path.push(b'/')?;
    }
    path.extend_from_slice(name)?;
    Ok(path)
}

/// Whether a name can stand behind a folder as it is.
fn is_closed(folder: &[u8]) -> bool
    ensures { result ≡ is_closed folder.now }
{
    match folder.last() {
        Some(c) => *c == b'/',
        None => true,
    }
}

/// The folder of a path, with its slash, or nothing where it names none.
fn folder_of(path: &[u8]) -> &[u8]
    ensures { IsFolder path.now result.now }
{
    let mut end = path.len();
    while !is_closed(front(path, end)) {
        end -= 1;
    }
    front(path, end)
}
