//! What a command works with: files, threads, standard error, and how much a refusal tells.
ghost use Rattle.std.specs.Prelude.{◌≡◌};
ghost use Rattle.dtman_engine.specs.BlobFaults.{blob_fault};
ghost use Rattle.dtman_engine.specs.Fault.{fault_value};

use crate::detail::{Detail, told};
use crate::diagnosing::{Inputs, blob_fault};
use crate::failure::Failure;
use crate::files::{read_at, seed, text_at};
use crate::shortfalls::{TOO_LONG, shortfall_fault};
use crate::surroundings::Surroundings;
use bus_kernel::unpacking::{MAX_IMAGE_LEN, unpacked_image};
use dt_blob::BlobError;
use dtman_engine::{Fault, MAX_BLOB_LEN, MAX_SOURCE_LEN};
use std::alloc::Global;
use std::hash::RandomState;
use std::str;

/// The program around a command.
pub struct Host<'h, S, E, T> {
    pub alloc: Global,
    /// Files, standard input and the random seed.
    pub surroundings: &'h mut S,
    pub threads: &'h T,
    /// Standard error.
    pub errors: &'h E,
    pub detail: Detail,
}

impl<S: Surroundings, E: Eprint, T> Host<'_, S, E, T> {
    /// The bytes of a blob.
    pub fn blob<'a>(&mut self, path: &'a str) -> Result<Vec<u8>, Failure<'a>> {
        read_at(self.alloc, self.surroundings, path, MAX_BLOB_LEN)
    }

    /// The text of a source.
    pub fn source<'a>(&mut self, path: &'a str) -> Result<Vec<u8>, Failure<'a>> {
        read_at(self.alloc, self.surroundings, path, MAX_SOURCE_LEN)
    }

    /// The same of one that has all of its bytes: a longer one than sources may be is refused.
    pub fn whole_source<'a>(&mut self, path: &'a str) -> Result<Vec<u8>, Failure<'a>> {
        let text = self.source(path)?;
        if text.len() > MAX_SOURCE_LEN {
            return Err(Failure::Refused(shortfall_fault(&TOO_LONG)));
        }
        Ok(text)
    }

    /// A kernel's image, unpacked.
    pub fn image<'a>(&mut self, path: &'a str) -> Result<Vec<u8>, Failure<'a>> {
        let image = read_at(self.alloc, self.surroundings, path, MAX_IMAGE_LEN)?;
        unpacked_image(self.alloc, image).map_err(|error| Failure::Image(error, path))
    }

    /// The same, or none where no file is named.
    pub fn image_of<'a>(&mut self, path: Option<&'a str>) -> Result<Option<Vec<u8>>, Failure<'a>> {
        match path {
            Some(path) => Ok(Some(self.image(path)?)),
            None => Ok(None),
        }
    }

    /// A driver, plan or schedule file.
    pub fn text<'a>(&mut self, path: &'a str) -> Result<Vec<u8>, Failure<'a>> {
        text_at(self.alloc, self.surroundings, path)
    }

    /// The same, or nothing where no file is named.
    pub fn text_of<'a>(&mut self, path: Option<&'a str>) -> Result<Vec<u8>, Failure<'a>> {
        match path {
            Some(path) => self.text(path),
            None => Ok(Vec::new(self.alloc)),
        }
    }

    /// A seed for hashing what comes from strangers.
    pub fn seed(&mut self) -> Result<RandomState, Failure<'static>> {
        seed(self.surroundings)
    }

    /// Prints warnings, each in its line.
    pub fn warn(&self, warnings: &[u8]) {
        if let Ok(text) = str::from_utf8(warnings) {
            let _ = eprint!(self.errors; "{text}");
        }
    }

    /// Puts lines on standard error, where it is open; `error` where they are no text.
    pub fn tell(&self, lines: &[u8]) {
        let text = str::from_utf8(lines).unwrap_or("error\n");
        // Standard error is the last place to say anything: the status stands alone where it is closed.
        let _ = eprint!(self.errors; "{text}");
    }

    /// The fault of a blob that is refused without its word: that is looked for where more than a line is told.
    pub fn blob_fault(&self, blob: &[u8], error: BlobError) -> Fault
        ensures { fault_value result ≡ blob_fault error }
    {
        match self.detail {
            Detail::Line => Fault::from(error),
            _ => blob_fault(self.alloc, blob, error),
        }
    }

    /// A refusal of what was read, as it is told: by its line, or in detail.
    pub fn refusal<'a>(&self, fault: Fault, inputs: Inputs<'_>) -> Failure<'a> {
        told(self.alloc, self.detail, fault, inputs)
    }
}

impl<S, E, T> Drop for Host<'_, S, E, T> {
    fn drop(self) {
        let Host {
            alloc: _,
            surroundings: _,
            threads: _,
            errors: _,
            detail: _,
        } = self;
    }
}
