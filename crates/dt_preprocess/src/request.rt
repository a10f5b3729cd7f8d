//! What is asked for, and what is given.

use std::alloc::{AllocError, Global};

/// Files by their paths.
pub trait Headers {
    /// The bytes of the file at a path; none where there is none.
    fn open(&mut self, alloc: Global, path: &[u8]) -> Result<Option<Vec<u8>>, AllocError>;
}

/// A text to be preprocessed.
#[derive(Drop)]
pub struct Request<'a> {
    /// The path of its file: what it includes by `"F"` is sought in this file's folder first.
    pub path: &'a [u8],
    /// The bytes of the file, at most 64 MiB together with all that it includes.
    pub text: &'a [u8],
    /// Where included files are sought, as by `-I`, in this order.
    pub folders: &'a [&'a str],
    /// Definitions as by `-D`: `NAME`, which is then 1, or `NAME=BODY`.
    pub defines: &'a [&'a str],
    /// Files that are read before the text, as by `-include`, in this order.
    pub preincluded: &'a [&'a str],
}

/// What a text comes to.
#[derive(Drop)]
pub struct Preprocessed {
    /// The text, at most 64 MiB, with gcc's line markers `# LINE "FILE"`: a 1 behind one where a file begins, a 2 where one goes on
    /// behind what it included.
    pub text: Vec<u8>,
}
