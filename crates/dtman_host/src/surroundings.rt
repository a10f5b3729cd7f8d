//! What the program asks of its surroundings: files, standard input, and a random seed.
ghost use Rattle.std.specs.Prelude.{◌≡◌, false, IfOk, IfSome};

use crate::beside::{Beside, create_beside};
use crate::noted::{Noted, Reason, noting};
use dtman_engine::{Channel, Failed, FileChannel, InputChannel};
use std::alloc::Global;
use std::fs::Metadata;
use std::hash::RandomState;
use std::random::RandomSource;
use std::rt::Files;
use std::{fs, io};

/// What stands in a folder.
#[derive(Clone, Copy, Debug, PartialEq, Eq)]
pub enum EntryKind {
    File,
    Folder,
    /// Neither, as a pipe, or a link that leads nowhere.
    Other,
}

/// One of those, by its name.
#[derive(Drop)]
pub struct Entry {
    pub name: String,
    pub kind: EntryKind,
}

/// Files by their paths, standard input, and the seed that hashing of what comes from strangers begins with.
pub trait Surroundings {
    type File: Channel + Drop;

    type Input: Channel + Drop;

    fn open(&mut self, path: &str) -> Result<Self::File, Failed>
        ensures { IfOk result (λ file. Self.File.has_failed file ≡ false) };

    fn create(&mut self, path: &str) -> Result<Self::File, Failed>
        ensures { IfOk result (λ file. Self.File.has_failed file ≡ false) };

    /// A new file beside a path, where one may take the place of what the path names: of a regular file, or of none.
    fn create_beside(&mut self, alloc: Global, path: &str) -> Option<Beside<Self::File>>
        ensures { IfSome result (λ beside. Self.File.has_failed beside.file ≡ false) };

    /// What a folder has, in the order in which the system tells it.
    fn entries(&mut self, alloc: Global, path: &str) -> Result<Vec<Entry>, Failed>;

    /// Standard input.
    fn input(&mut self) -> Self::Input
        ensures { Self.Input.has_failed result ≡ false };

    /// Takes a created file back once all was written to it.
    fn close(&mut self, path: &str, file: Self::File);

    /// Has a path name the file beside it, and that one's own path nothing.
    fn replace(&mut self, beside: &str, path: &str) -> Result<(), Failed>;

    /// Removes a file, where that can be done.
    fn remove(&mut self, path: &str);

    fn seed(&mut self) -> io::Result<RandomState>;

    /// Why the last call failed, where the system told it.
    fn reason(&mut self) -> Option<io::Error> {
        None
    }

    /// Notes why the last call failed, where it wasn't the system that told it.
    fn note(&mut self, _reason: io::Error) {}

    /// How many bytes the file at a path has, where that can be told.
    fn len(&mut self, _path: &str) -> Option<u64> {
        None
    }
}

/// The files of the system, its standard input, and its source of random bytes, with why the last call on them failed.
pub struct System<'a, R> {
    pub rt: &'a R,
    pub reason: &'a Reason,
}

impl<R> Drop for System<'_, R> {
    fn drop(self) {
        let System { rt: _, reason: _ } = self;
    }
}

// What stands where this was found.
fn kind_of(found: io::Result<Metadata>) -> EntryKind {
    match found {
        Ok(found) if found.is_dir() => EntryKind::Folder,
        Ok(found) if found.is_file() => EntryKind::File,
        _ => EntryKind::Other,
    }
}

impl<'a, R: Files + Input + RandomSource + AllocGlobal + Clone + Drop> Surroundings
    for System<'a, R> {
    type File = FileChannel<Noted<'a, R::File>>;

    type Input = InputChannel<Noted<'a, R::Reader>>;

    fn open(&mut self, path: &str) -> Result<FileChannel<Noted<'a, R::File>>, Failed> {
        match noting(self.reason, fs::open(self.rt, path)) {
            Ok(file) => Ok(FileChannel::new(Noted::new(file, self.reason))),
            Err(_) => Err(Failed::Fault),
        }
    }

    fn create(&mut self, path: &str) -> Result<FileChannel<Noted<'a, R::File>>, Failed> {
        match noting(self.reason, fs::create(self.rt, path)) {
            Ok(file) => Ok(FileChannel::new(Noted::new(file, self.reason))),
            Err(_) => Err(Failed::Fault),
        }
    }

    fn create_beside(
        &mut self,
        alloc: Global,
        path: &str,
    ) -> Option<Beside<FileChannel<Noted<'a, R::File>>>> {
        match create_beside(self.rt, alloc, path) {
            Some(Beside { path, file }) => Some(Beside {
                path,
                file: FileChannel::new(Noted::new(file, self.reason)),
            }),
            None => None,
        }
    }

    fn entries(&mut self, alloc: Global, path: &str) -> Result<Vec<Entry>, Failed> {
        let Ok(folder) = fs::read_dir(self.rt, path) else {
            return Err(Failed::Fault);
        };
        let mut entries = Vec::new(alloc);
        for entry in folder {
            let Ok(entry) = entry else {
                return Err(Failed::Fault);
            };
            // what a link leads to
            let kind = kind_of(fs::metadata(self.rt, entry.path()));
            let Ok(name) = String::from_str(alloc, entry.file_name()) else {
                return Err(Failed::Fault);
            };
            if entries.push(Entry { name, kind }).is_err() {
                return Err(Failed::Fault);
            }
        }
        Ok(entries)
    }

    fn input(&mut self) -> InputChannel<Noted<'a, R::Reader>> {
        InputChannel::new(Noted::new(self.rt.reader(), self.reason))
    }

    fn close(&mut self, _path: &str, _file: FileChannel<Noted<'a, R::File>>) {}

    fn replace(&mut self, beside: &str, path: &str) -> Result<(), Failed> {
        noting(self.reason, fs::rename(self.rt, beside, path)).map_err(|_| Failed::Fault)
    }

    fn remove(&mut self, path: &str) {
        let _ = fs::remove_file(self.rt, path);
    }

    fn seed(&mut self) -> io::Result<RandomState> {
        noting(self.reason, RandomState::new(self.rt))
    }

    fn reason(&mut self) -> Option<io::Error> {
        self.reason.get()
    }

    fn note(&mut self, reason: io::Error) {
        self.reason.set(Some(reason));
    }

    fn len(&mut self, path: &str) -> Option<u64> {
        match fs::metadata(self.rt, path) {
            Ok(found) => Some(found.len()),
            Err(_) => None,
        }
    }
}
