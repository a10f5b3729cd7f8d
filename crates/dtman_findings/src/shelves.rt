//! Files, as the preprocessor and dtc's language ask for them.

use dt_preprocess::Headers;
use dt_text::include::{Found, Reads, search};
use dtman_lsp::Files;
use std::alloc::{AllocError, Global};

/// The name of a file that no disk has, which makes a part of a board one.
pub(crate) const VERSION: &str = "<dts-v1>";

/// Its text.
const VERSION_TEXT: &[u8] = b"/dts-v1/;\n";

/// Files by their paths, and the folders in which they are sought.
pub(crate) struct Shelf<'s, F> {
    pub files: &'s mut F,
    pub folders: &'s [&'s str],
}

impl<F> Drop for Shelf<'_, F> {
    fn drop(self) {
        let Shelf {
            files: _,
            folders: _,
        } = self;
    }
}

impl<F: Files> Headers for Shelf<'_, F> {
    fn open(&mut self, alloc: Global, path: &[u8]) -> Result<Option<Vec<u8>>, AllocError> {
        if path == VERSION.as_bytes() {
            return Ok(Some(Vec::from_slice(alloc, VERSION_TEXT)?));
        }
        self.files.read(alloc, path)
    }
}

impl<F: Files> Reads for Shelf<'_, F> {
    // Nothing is promised of a disk.
    ghost reads = { λ path bytes. Unit {0} };

    ghost lacks = { λ path. Unit {0} };

    fn read(&mut self, alloc: Global, path: &str) -> Result<Option<Vec<u8>>, AllocError> {
        self.files.read(alloc, path.as_bytes())
    }
}

impl<F: Files> dt_text::include::Files for Shelf<'_, F> {
    // Nor of what is found there.
    ghost finds = { λ beside name found. Unit {0} };

    ghost lacks = { λ beside name. Unit {0} };

    fn find(
        &mut self,
        alloc: Global,
        beside: &[u8],
        name: &[u8],
    ) -> Result<Option<Found>, AllocError> {
        let folders = self.folders;
        search(alloc, self, folders, beside, name)
    }
}
