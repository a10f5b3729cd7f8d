//! What the server asks of its surroundings.

use std::alloc::{AllocError, Global};

/// Files by their paths, as they lie on disk.
pub trait Files {
    /// The bytes of a file; none where there is none, or where it can't be read.
    fn read(&mut self, alloc: Global, path: &[u8]) -> Result<Option<Vec<u8>>, AllocError>;
}

/// A text that is to be examined.
#[derive(Clone, Copy)]
pub struct Board<'a> {
    pub path: &'a [u8],
    pub text: &'a [u8],
    /// Where its headers are sought, as by `-I`.
    pub folders: &'a [&'a str],
    /// Whether it is a board by itself, and no part of one: whether `/dts-v1/` stands in it.
    pub is_whole: bool,
}

/// What is wrong at a place.
#[derive(Drop)]
pub struct Finding {
    /// The path of the file.
    pub path: Vec<u8>,
    /// The line, from 1; 0 where it is of the file as a whole.
    pub line: usize,
    /// The byte in its line, from 1, as far as that is known.
    pub column: usize,
    /// The word that is meant, as the file has it, or nothing.
    pub word: Vec<u8>,
    /// The number of the refusal, as `dtman explain` takes it.
    pub number: u8,
    pub message: String,
}

/// What finds the faults of boards.
pub trait Examiner {
    /// The faults of a text with all that it takes in from these files, in the order in which they stand.
    fn examine<F: Files>(
        &mut self,
        alloc: Global,
        files: &mut F,
        board: Board<'_>,
    ) -> Result<Vec<Finding>, AllocError>;
}
