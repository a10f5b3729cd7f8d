//! Surroundings over memory.
ghost use Rattle.std.specs.Prelude.{◌≡◌, None};

use dtman_engine::{Channel, Failed, Memory};
use dtman_host::{Beside, Entry, EntryKind, Surroundings};
use std::alloc::Global;
use std::cell::RefCell;
use std::hash::RandomState;
use std::{fmt, io};

/// What stands in a folder, each by its name, in the system's order.
pub type Things<'a> = &'a [(&'a str, EntryKind)];

/// Files by their paths, and what was written to those that were created.
#[derive(Drop)]
pub struct Shelf<'a> {
    pub alloc: Global,
    pub files: &'a [(&'a str, &'a [u8])],
    /// Folders by their paths.
    pub folders: &'a [(&'a str, Things<'a>)],
    /// What standard input has.
    pub input: &'a [u8],
    /// The seed, where there is one.
    pub seed: Option<RandomState>,
    /// Which call on each file fails.
    pub fails_at: Option<usize>,
    /// The most bytes that one call on a file moves.
    pub pace: usize,
    /// The path and the bytes of the last file that was created and closed.
    pub closed: Option<(Vec<u8>, Vec<u8>)>,
    /// Why a call failed, where that is told.
    pub reason: Option<io::Error>,
}

impl<'a> Shelf<'a> {
    pub fn new(alloc: Global, files: &'a [(&'a str, &'a [u8])], seed: RandomState) -> Shelf<'a> {
        Shelf::with_folders(alloc, files, &[], seed)
    }

    /// The same with folders.
    pub fn with_folders(
        alloc: Global,
        files: &'a [(&'a str, &'a [u8])],
        folders: &'a [(&'a str, Things<'a>)],
        seed: RandomState,
    ) -> Shelf<'a> {
        Shelf {
            alloc,
            files,
            folders,
            input: b"",
            seed: Some(seed),
            fails_at: None,
            pace: 7,
            closed: None,
            reason: None,
        }
    }

    /// That the last file that was written is this one, with these bytes; or that none was, where there are none.
    pub fn has_written(&self, path: &str, bytes: &[u8]) -> bool {
        match &self.closed {
            Some((name, written)) => {
                name.as_slice() == path.as_bytes() && written.as_slice() == bytes
            }
            None => bytes.is_empty(),
        }
    }

    fn channel(&self, bytes: &'a [u8]) -> Memory<'a>
        ensures { result.failure ≡ None }
    {
        let mut memory = Memory::new(self.alloc, bytes);
        memory.pace = self.pace;
        memory.calls_left = self.fails_at;
        memory
    }
}

impl<'a> Surroundings for Shelf<'a> {
    type File = Memory<'a>;

    type Input = Memory<'a>;

    fn open(&mut self, path: &str) -> Result<Memory<'a>, Failed> {
        for (name, bytes) in self.files {
            if *name == path {
                return Ok(self.channel(bytes));
            }
        }
        Err(Failed::Fault)
    }

    fn create(&mut self, path: &str) -> Result<Memory<'a>, Failed> {
        if path == "locked" {
            return Err(Failed::Fault);
        }
        Ok(self.channel(b""))
    }

    fn entries(&mut self, alloc: Global, path: &str) -> Result<Vec<Entry>, Failed> {
        // all paths into `loop` lead to it
        let path = if path.ends_with("/loop") {
            "loop"
        } else {
            path
        };
        for (name, things) in self.folders {
            if *name == path {
                return entries_of(alloc, *things).ok_or(Failed::Fault);
            }
        }
        Err(Failed::Fault)
    }

    fn input(&mut self) -> Memory<'a> {
        let input = self.channel(self.input);
        self.input = b"";
        input
    }

    fn create_beside(&mut self, _alloc: Global, _path: &str) -> Option<Beside<Memory<'a>>> {
        None
    }

    fn replace(&mut self, _beside: &str, _path: &str) -> Result<(), Failed> {
        Err(Failed::Fault)
    }

    fn remove(&mut self, _path: &str) {}

    fn close(&mut self, path: &str, file: Memory<'a>) {
        let Memory { written, .. } = file;
        self.closed = match Vec::from_slice(self.alloc, path.as_bytes()) {
            Ok(path) => Some((path, written)),
            Err(_) => None,
        };
    }

    fn seed(&mut self) -> io::Result<RandomState> {
        self.seed.ok_or(io::Error::from(io::ErrorKind::Other))
    }

    fn reason(&mut self) -> Option<io::Error> {
        self.reason
    }
}

fn entries_of(alloc: Global, things: Things<'_>) -> Option<Vec<Entry>> {
    let mut entries = Vec::new(alloc);
    for (name, kind) in things {
        let name = String::from_str(alloc, *name).ok()?;
        entries.push(Entry { name, kind: *kind }).ok()?;
    }
    Some(entries)
}

/// Standard error over memory.
#[derive(Drop)]
pub struct Errors {
    pub text: RefCell<String>,
}

impl Errors {
    pub fn new(alloc: Global) -> Errors {
        Errors {
            text: RefCell::new(String::new(alloc)),
        }
    }
}

impl Eprint for Errors {
    fn eprint<D: fmt::Display + Drop>(&self, value: D) -> io::Result<()> {
        if let Ok(mut text) = self.text.try_borrow_mut() {
            write!(&mut *text, "{value}")?;
        }
        Ok(())
    }

    fn eprintln<D: fmt::Display + Drop>(&self, value: D) -> io::Result<()> {
        self.eprint(value)?;
        self.eprint("\n")
    }
}
