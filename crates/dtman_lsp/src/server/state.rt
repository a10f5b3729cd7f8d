//! The state of the server.

use crate::library::Library;
use crate::ports::Finding;
use std::alloc::{AllocError, Global};

/// How far the client has come.
#[derive(Clone, Copy, PartialEq, Eq, Debug)]
pub(crate) enum Phase {
    /// Before `initialize`.
    Waiting,
    Running,
    /// Behind `shutdown`.
    Shut,
    /// Behind `exit`, with the status.
    Over(u8),
}

/// What was found in a board.
#[derive(Drop)]
pub(crate) struct Judged {
    /// The path of the board.
    pub path: Vec<u8>,
    pub findings: Vec<Finding>,
}

/// A language server: what it knows of its client and of texts.
pub struct Server<'a, X> {
    pub(crate) alloc: Global,
    pub(crate) examiner: X,
    /// The folders of the command line.
    pub(crate) given: &'a [&'a str],
    /// All folders in which headers are sought, once the client has said where it works.
    pub(crate) folders: Vec<String>,
    pub(crate) phase: Phase,
    pub(crate) library: Library,
    pub(crate) judged: Vec<Judged>,
}

impl<X: Drop> Drop for Server<'_, X> {
    fn drop(self) {
        let Server {
            alloc: _,
            examiner: _,
            given: _,
            folders: _,
            phase: _,
            library: _,
            judged: _,
        } = self;
    }
}

impl<'a, X> Server<'a, X> {
    /// A server for a client that is yet to speak. Headers are sought in these folders, as by `-I`.
    pub fn new(alloc: Global, examiner: X, folders: &'a [&'a str]) -> Self {
        Server {
            alloc,
            examiner,
            given: folders,
            folders: Vec::new(alloc),
            phase: Phase::Waiting,
            library: Library::new(alloc),
            judged: Vec::new(alloc),
        }
    }

    /// The exit status, once `exit` was read: 0 behind `shutdown`, else 1.
    pub fn status(&self) -> Option<u8> {
        match self.phase {
            Phase::Over(status) => Some(status),
            _ => None,
        }
    }
}

/// The folders in which headers are sought.
pub(crate) fn folders_of(alloc: Global, folders: &[String]) -> Result<Vec<&str>, AllocError> {
    let mut named = Vec::with_capacity(alloc, folders.len())?;
    for folder in folders {
        named.push(folder.as_str())?;
    }
    Ok(named)
}
