//! All texts that are known.

use crate::address::{normal, uri_of};
use crate::library::source::{Opened, Source};
use crate::ports::Files;
use std::alloc::{AllocError, Global};

/// The most texts that are known at once; files beyond count as missing.
const MAX_SOURCES: usize = 2000;

/// The longest text that is kept, in bytes; a longer file counts as missing.
const MAX_TEXT: usize = 1 << 26;

/// Texts by their numbers, each path once.
#[derive(Drop)]
pub(crate) struct Library {
    alloc: Global,
    sources: Vec<Source>,
}

impl Library {
    pub(crate) fn new(alloc: Global) -> Library {
        Library {
            alloc,
            sources: Vec::new(alloc),
        }
    }

    pub(crate) fn sources(&self) -> &[Source] {
        self.sources.as_slice()
    }

    pub(crate) fn get(&self, number: usize) -> Option<&Source> {
        self.sources.get(number)
    }

    /// The text of a path, as `address::normal` has it.
    pub(crate) fn number_of(&self, path: &[u8]) -> Option<usize> {
        self.sources
            .as_slice()
            .iter()
            .position(|source| source.path.as_slice() == path)
    }

    /// The text of a path that is open.
    pub(crate) fn open_at(&self, path: &[u8]) -> Option<&Source> {
        self.get(self.number_of(path)?)
            .filter(|source| source.is_open())
    }

    fn put(&mut self, source: Source) -> Result<usize, AllocError> {
        let number = self.sources.len();
        self.sources.push(source)?;
        Ok(number)
    }

    /// Takes a text that is open, in the place of what was known of its path.
    pub(crate) fn open(
        &mut self,
        path: &[u8],
        text: Vec<u8>,
        opened: Opened,
    ) -> Result<(), AllocError> {
        let path = Vec::from_slice(self.alloc, path)?;
        let number = self.number_of(path.as_slice());
        let source = Source::new(self.alloc, path, text, Some(opened))?;
        match number {
            Some(number) => {
                if let Some(old) = self.sources.get_mut(number) {
                    *old = source;
                }
            }
            None => {
                self.put(source)?;
            }
        }
        Ok(())
    }

    /// Forgets a path.
    pub(crate) fn close(&mut self, path: &[u8]) {
        self.sources.retain(|source| source.path.as_slice() != path);
    }

    /// Forgets all that lies on disk, which may have changed.
    pub(crate) fn forget(&mut self) {
        self.sources.retain(|source| source.is_open());
    }

    /// The number of the text at a path, which is read where it isn't known; none where there is none.
    pub(crate) fn load<F: Files>(
        &mut self,
        files: &mut F,
        path: &[u8],
    ) -> Result<Option<usize>, AllocError> {
        let name = normal(self.alloc, path)?;
        if let Some(number) = self.number_of(name.as_slice()) {
            return Ok(self.there(number));
        }
        if self.sources.len() >= MAX_SOURCES {
            return Ok(None);
        }
        let source = match files.read(self.alloc, path)? {
            Some(text) if text.len() <= MAX_TEXT => Source::new(self.alloc, name, text, None)?,
            _ => Source::missing(self.alloc, name)?,
        };
        let number = self.put(source)?;
        Ok(self.there(number))
    }

    /// A number, where there is such a file.
    fn there(&self, number: usize) -> Option<usize> {
        match self.get(number) {
            Some(source) if source.is_there => Some(number),
            _ => None,
        }
    }

    /// The URI of a text: the editor's own, where it is open.
    pub(crate) fn uri(&self, number: usize) -> Result<String, AllocError> {
        let Some(source) = self.get(number) else {
            return Ok(String::new(self.alloc));
        };
        match &source.opened {
            Some(opened) => opened.uri.clone(),
            None => uri_of(self.alloc, source.path.as_slice()),
        }
    }
}
