//! New files beside those whose place they are to take.

use std::alloc::Global;
use std::fs;
use std::fs::{Metadata, OpenFile, OpenOptions};
use std::io::ErrorKind;
use std::os::unix::fs::MetadataExt;
use std::rt::Files;

/// How many names are tried for a new file: those of programs that write to one path at a time, and those that were ended in it.
const NAMES: u8 = 100;

/// A new file, and its path beside the one that it may take the place of.
#[derive(Drop)]
pub struct Beside<F> {
    pub path: String,
    pub file: F,
}

/// What a path names, as far as a new file may take its place.
#[derive(Drop)]
enum Found {
    Nothing,
    /// A regular file that may be written and has no other name.
    File(Metadata),
    /// A device, a pipe, a link, a folder, or what can't be told: it is written where it is.
    Other,
}

fn named_by<R: Files>(files: &R, path: &str) -> Found {
    match fs::symlink_metadata(files, path) {
        Ok(found) => {
            if found.is_file() && found.nlink() == 1 && may_write(files, path) {
                Found::File(found)
            } else {
                Found::Other
            }
        }
        Err(error) => match error.kind() {
            ErrorKind::NotFound => Found::Nothing,
            _ => Found::Other,
        },
    }
}

fn may_write<R: Files>(files: &R, path: &str) -> bool {
    OpenOptions::new().write(true).open(files, path).is_ok()
}

/// A new file beside a path, or None where the path has to be written itself.
pub fn create_beside<R: Files>(files: &R, alloc: Global, path: &str) -> Option<Beside<R::File>> {
    match named_by(files, path) {
        Found::Nothing => create_new(files, alloc, path),
        Found::File(old) => like(files, create_new(files, alloc, path)?, &old),
        Found::Other => None,
    }
}

fn create_new<R: Files>(files: &R, alloc: Global, path: &str) -> Option<Beside<R::File>> {
    for number in 0..NAMES {
        let name = format!(in alloc; "{path}.{number}.part").ok()?;
        match OpenOptions::new()
            .write(true)
            .create_new(true)
            .open(files, name.as_str())
        {
            Ok(file) => return Some(Beside { path: name, file }),
            Err(error) if error.kind() == ErrorKind::AlreadyExists => {}
            Err(_) => return None,
        }
    }
    None
}

// The new file with the rights of the old one, or None where it can't have them.
fn like<R: Files>(files: &R, new: Beside<R::File>, old: &Metadata) -> Option<Beside<R::File>> {
    if has_rights(&new.file, old) {
        return Some(new);
    }
    let _ = fs::remove_file(files, new.path.as_str());
    None
}

fn has_rights<F: OpenFile>(file: &F, old: &Metadata) -> bool {
    match file.metadata() {
        Ok(new) => {
            new.uid() == old.uid()
                && new.gid() == old.gid()
                && file.set_permissions(old.permissions()).is_ok()
        }
        Err(_) => false,
    }
}
