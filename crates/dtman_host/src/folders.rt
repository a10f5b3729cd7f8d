//! The files that a source takes in, looked for in the folders of the command line.
ghost use Rattle.std.specs.Prelude.{◌≡◌};
ghost use Rattle.dtman_host.specs.SourceFiles.{SomeFile, NoFile};
ghost use Rattle.dtman_host.specs.Outcome.{IsOutcome};

use crate::diagnosing::Given;
use crate::outcome::{Outcome, compile_dtc};
use crate::seeking::{Sought, file_at};
use crate::sums::Sums;
use crate::surroundings::Surroundings;
use dt_text::include::{Files, Found, Reads, search};
use dtman_engine::DtcOptions;
use std::alloc::{AllocError, Global};
use std::hash::RandomState;
use std::io::{Error, ErrorKind};

/// The surroundings, and the folders.
struct Folders<'a, S> {
    surroundings: &'a mut S,
    folders: &'a [&'a str],
    /// The paths of the files that were read.
    found: &'a mut Vec<Vec<u8>>,
    /// What those come to.
    sums: Sums,
    /// A file was there and couldn't be read to its end: no other is taken in its place.
    is_broken: bool,
}

/// Compiles a source in dtc's language with what it takes in, beside it or from folders. The paths of the files that are read are added to
/// those that were found.
pub fn compile_in<S: Surroundings>(
    alloc: Global,
    hasher: RandomState,
    surroundings: &mut S,
    folders: &[&str],
    found: &mut Vec<Vec<u8>>,
    source: Given<'_>,
    options: DtcOptions,
) -> Outcome
    ensures { IsOutcome SomeFile NoFile source.entry.name.now source.entry.bytes.now options result }
{
    let mut files = Folders {
        surroundings,
        folders,
        found,
        sums: Sums::new(alloc, hasher),
        is_broken: false,
    };
    compile_dtc(
        alloc,
        hasher,
        &mut files,
        source.name,
        source.bytes,
        options,
    )
}

impl<S: Surroundings> Files for Folders<'_, S> {
    ghost use Rattle.dtman_host.specs.SourceFiles.{SomeFile, NoFile};

    // Some folders lead to it: they stand in `self`, of which this knows nothing.
    ghost finds = { SomeFile };

    ghost lacks = { NoFile };

    fn find(
        &mut self,
        alloc: Global,
        beside: &[u8],
        name: &[u8],
    ) -> Result<Option<Found>, AllocError> {
        let folders = self.folders;
        search(alloc, self, folders, beside, name)
    }
}

impl<S: Surroundings> Reads for Folders<'_, S> {
    // Nothing is promised of a disk.
    ghost reads = { λ path bytes. Unit {0} };

    ghost lacks = { λ path. Unit {0} };

    fn read(&mut self, alloc: Global, path: &str) -> Result<Option<Vec<u8>>, AllocError> {
        if self.is_broken {
            return Ok(None);
        }
        match file_at(alloc, self.surroundings, path.as_bytes())? {
            Sought::Read(bytes) => self.kept(alloc, path, bytes),
            Sought::Missing => Ok(None),
            Sought::Broken => {
                self.is_broken = true;
                Ok(None)
            }
        }
    }
}

impl<S: Surroundings> Folders<'_, S> {
    // A file that was read, where there is room for it beside the others.
    fn kept(
        &mut self,
        alloc: Global,
        path: &str,
        bytes: Vec<u8>,
    ) -> Result<Option<Vec<u8>>, AllocError> {
        let path = path.as_bytes();
        if self.sums.add(Vec::from_slice(alloc, path)?, bytes.len())? {
            self.found.push(Vec::from_slice(alloc, path)?)?;
            return Ok(Some(bytes));
        }
        self.surroundings.note(Error::new(
            ErrorKind::FileTooLarge,
            "files are taken in so often that they come to over 40 times their size",
        ));
        self.is_broken = true;
        Ok(None)
    }
}

impl<S> Drop for Folders<'_, S> {
    fn drop(self) {
        let Folders {
            surroundings: _,
            folders: _,
            found: _,
            sums: _,
            is_broken: _,
        } = self;
    }
}
