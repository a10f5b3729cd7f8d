//! The files that were opened, each once, by their paths.

use crate::lexing::bytes::{behind, front};
use crate::lexing::lexer::{Lexed, lex};
use crate::lexing::splicing::splice;
use crate::refusal::{Fault, Reason};
use crate::request::Headers;
use crate::token::Token;
use crate::words::{MAX_TEXT, Words};
use indexmap::IndexMap;
use memchr::memrchr;
use std::alloc::{AllocError, Global};
use std::hash::RandomState;

/// A file: its path, its lines, and how many bytes it has.
#[derive(Drop)]
pub(crate) struct File {
    pub path: Vec<u8>,
    pub lexed: Lexed,
    pub length: usize,
}

/// All files by their numbers, the numbers by their paths (none where there is no file), and how many bytes were read.
#[derive(Drop)]
pub(crate) struct Library {
    alloc: Global,
    files: Vec<File>,
    paths: IndexMap<Vec<u8>, Option<usize>, RandomState>,
    read: usize,
}

/// The path of a name in a folder.
fn in_folder(alloc: Global, folder: &[u8], name: &[u8]) -> Result<Vec<u8>, AllocError> {
    let mut path = Vec::from_slice(alloc, folder)?;
    if let Some(last) = folder.last() {
        if *last != b'/' {
            path.push(b'/')?;
        }
    }
    path.extend_from_slice(name)?;
    Ok(path)
}

/// The folder of a path, with its `/`.
fn folder_of(path: &[u8]) -> &[u8] {
    match memrchr(b'/', path) {
        Some(at) => front(path, at.saturating_add(1)),
        None => b"",
    }
}

/// Where a file is sought: the folder of the file that names it, if it counts, and then those of `-I`.
#[derive(Drop)]
pub(crate) struct Search<'a> {
    pub own: Option<usize>,
    pub folders: &'a [&'a str],
}

impl Library {
    pub(crate) fn new(alloc: Global, hasher: RandomState) -> Self {
        Library {
            alloc,
            files: Vec::new(alloc),
            paths: IndexMap::with_hasher(alloc, hasher),
            read: 0,
        }
    }

    pub(crate) fn file(&self, number: usize) -> Option<&File> {
        self.files.get(number)
    }

    pub(crate) fn path(&self, number: usize) -> &[u8] {
        match self.files.get(number) {
            Some(file) => file.path.as_slice(),
            None => b"",
        }
    }

    /// Adds a file with these bytes.
    pub(crate) fn add(
        &mut self,
        words: &mut Words,
        path: &[u8],
        bytes: &[u8],
    ) -> Result<usize, Fault> {
        let number = self.files.len();
        self.files.push(File {
            path: Vec::from_slice(self.alloc, path)?,
            lexed: Lexed::new(self.alloc),
            length: bytes.len(),
        })?;
        self.paths
            .insert(Vec::from_slice(self.alloc, path)?, Some(number))?;
        let spliced = splice(self.alloc, bytes)?;
        let lexed = lex(self.alloc, words, number, &spliced)?;
        if let Some(file) = self.files.get_mut(number) {
            file.lexed = lexed;
        }
        Ok(number)
    }

    /// Counts the bytes of a file that is read, again or for the first time, to 64 MiB in all.
    pub(crate) fn spend(&mut self, length: usize, token: &Token) -> Result<(), Fault> {
        self.read = self.read.saturating_add(length).saturating_add(1);
        if self.read > MAX_TEXT {
            return Err(Fault::new(Reason::TooLong, token.place, token.word));
        }
        Ok(())
    }

    /// The file at a path, opened if it wasn't.
    fn open<H: Headers>(
        &mut self,
        headers: &mut H,
        words: &mut Words,
        path: &[u8],
    ) -> Result<Option<usize>, Fault> {
        if let Some(known) = self.paths.get(path) {
            return Ok(*known);
        }
        match headers.open(self.alloc, path)? {
            Some(bytes) => Ok(Some(self.add(words, path, bytes.as_slice())?)),
            None => {
                self.paths.insert(Vec::from_slice(self.alloc, path)?, None)?;
                Ok(None)
            }
        }
    }

    /// The first file of a name on the search path.
    fn on_path<H: Headers>(
        &mut self,
        headers: &mut H,
        words: &mut Words,
        folders: &[&str],
        name: &[u8],
    ) -> Result<Option<usize>, Fault> {
        for folder in folders {
            let path = in_folder(self.alloc, folder.as_bytes(), name)?;
            let found = self.open(headers, words, path.as_slice())?;
            if found.is_some() {
                return Ok(found);
            }
        }
        Ok(None)
    }

    /// The file of a name; a name that begins with `/` is a path.
    pub(crate) fn find<H: Headers>(
        &mut self,
        headers: &mut H,
        words: &mut Words,
        search: &Search<'_>,
        name: &[u8],
    ) -> Result<Option<usize>, Fault> {
        if name.first() == Some(&b'/') {
            return self.open(headers, words, name);
        }
        if let Some(own) = search.own {
            let path = in_folder(self.alloc, folder_of(self.path(own)), name)?;
            let found = self.open(headers, words, path.as_slice())?;
            if found.is_some() {
                return Ok(found);
            }
        }
        self.on_path(headers, words, search.folders, name)
    }
}

/// The name between the first and the last byte of `"F"` or `<F>`.
pub(crate) fn header_name(word: &[u8]) -> &[u8] {
    front(behind(word, 1), word.len().saturating_sub(2))
}
