//! What a text takes in, and by which texts it is taken in.

use crate::address::{folder_of, joined};
use crate::library::shelf::Library;
use crate::ports::Files;
use dt_outline::Header;
use std::alloc::{AllocError, Global};

/// Where headers are sought: files, and folders in their order.
pub(crate) struct Search<'s, F> {
    pub alloc: Global,
    pub files: &'s mut F,
    pub folders: &'s [&'s str],
}

impl<F> Drop for Search<'_, F> {
    fn drop(self) {
        let Search {
            alloc: _,
            files: _,
            folders: _,
        } = self;
    }
}

impl<F: Files> Search<'_, F> {
    /// The text that a header of a text names: beside that one where it is quoted, else in the folders.
    pub(crate) fn header(
        &mut self,
        library: &mut Library,
        number: usize,
        header: Header,
    ) -> Result<Option<usize>, AllocError> {
        let alloc = self.alloc;
        let Some(source) = library.get(number) else {
            return Ok(None);
        };
        let name = Vec::from_slice(alloc, source.bytes(header.name))?;
        if header.is_beside {
            let path = joined(alloc, folder_of(source.path.as_slice()), name.as_slice())?;
            if let Some(found) = library.load(self.files, path.as_slice())? {
                return Ok(Some(found));
            }
        }
        self.in_folders(library, name.as_slice())
    }

    fn in_folders(
        &mut self,
        library: &mut Library,
        name: &[u8],
    ) -> Result<Option<usize>, AllocError> {
        for folder in self.folders {
            let path = joined(self.alloc, folder.as_bytes(), name)?;
            if let Some(found) = library.load(self.files, path.as_slice())? {
                return Ok(Some(found));
            }
        }
        Ok(None)
    }

    /// Adds the texts that a text names, but for those that are there.
    fn add_headers(
        &mut self,
        library: &mut Library,
        number: usize,
        reached: &mut Vec<usize>,
    ) -> Result<(), AllocError> {
        let headers = match library.get(number) {
            Some(source) => Vec::from_slice(self.alloc, source.outline.headers.as_slice())?,
            None => return Ok(()),
        };
        for header in &headers {
            if let Some(found) = self.header(library, number, *header)? {
                add(reached, found)?;
            }
        }
        Ok(())
    }

    /// A text with all that it takes in, itself first, each once.
    pub(crate) fn reach(
        &mut self,
        library: &mut Library,
        number: usize,
    ) -> Result<Vec<usize>, AllocError> {
        let mut reached = Vec::new(self.alloc);
        reached.push(number)?;
        for at in 0..usize::MAX {
            let Some(next) = reached.get(at).copied() else {
                break;
            };
            self.add_headers(library, next, &mut reached)?;
        }
        Ok(reached)
    }

    /// The texts that are open and take in a text, by themselves or through others.
    pub(crate) fn takers(
        &mut self,
        library: &mut Library,
        number: usize,
    ) -> Result<Vec<usize>, AllocError> {
        let mut takers = Vec::new(self.alloc);
        for other in 0..library.sources().len() {
            if other == number || !library.get(other).is_some_and(|source| source.is_open()) {
                continue;
            }
            if self.reach(library, other)?.as_slice().contains(&number) {
                takers.push(other)?;
            }
        }
        Ok(takers)
    }

    /// The texts among which a name of a text is looked for: what it takes in, and what those take in that take it in.
    pub(crate) fn scope(
        &mut self,
        library: &mut Library,
        number: usize,
    ) -> Result<Vec<usize>, AllocError> {
        let mut scope = self.reach(library, number)?;
        let takers = self.takers(library, number)?;
        for taker in &takers {
            let reached = self.reach(library, *taker)?;
            for found in &reached {
                add(&mut scope, *found)?;
            }
        }
        Ok(scope)
    }
}

/// Adds a number, but for one that is there.
fn add(numbers: &mut Vec<usize>, number: usize) -> Result<(), AllocError> {
    if !numbers.as_slice().contains(&number) {
        numbers.push(number)?;
    }
    Ok(())
}
