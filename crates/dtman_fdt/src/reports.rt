//! Why a tool ends without its output, and how that is told.
ghost use Rattle.std.specs.Prelude.{◌≡◌, false, OnOk};

use crate::words::Unread;
use dt_blob::BlobError;
use dtman_engine::Channel;
use dtman_host::{Host, Surroundings, print};
use std::alloc::{AllocError, Global};
use std::io;

/// The status of a command line that wasn't done.
pub const FAILED: u8 = 1;

/// Why a tool ends without its output.
#[derive(Clone, Copy)]
pub enum Failure<'a> {
    NoMemory,
    /// The words are no command line.
    Usage(&'static str),
    Unopened(&'a str),
    Unwritten(&'a str),
    /// What is at a place, as libfdt's errors call it.
    At(&'a str, &'static str),
    /// Anything else.
    Said(&'static str),
    /// A word of a value is no number.
    NoNumber(&'a str),
    /// The file's header is no blob's.
    NoHeader(&'a str),
    /// No blob begins in the file.
    NoMagic(&'a str),
}

impl From<AllocError> for Failure<'_> {
    fn from(_error: AllocError) -> Self {
        Failure::NoMemory
    }
}

impl From<Unread> for Failure<'_> {
    fn from(error: Unread) -> Self {
        match error {
            Unread::NoMemory => Failure::NoMemory,
            Unread::Option => Failure::Usage("unknown option"),
        }
    }
}

/// What libfdt calls a blob's error.
pub fn fdt_error(error: BlobError) -> &'static str {
    match error {
        BlobError::Truncated => "FDT_ERR_TRUNCATED",
        BlobError::BadMagic => "FDT_ERR_BADMAGIC",
        BlobError::BadVersion => "FDT_ERR_BADVERSION",
        BlobError::BadLayout => "FDT_ERR_BADLAYOUT",
        BlobError::TooLarge => "FDT_ERR_NOSPACE",
        _ => "FDT_ERR_BADSTRUCTURE",
    }
}

// The system's reason stands behind a file's name where it is known.
fn with_reason(
    alloc: Global,
    words: String,
    reason: Option<io::Error>,
) -> Result<String, AllocError> {
    match reason {
        Some(error) => format!(in alloc; "{words}: {error}\n"),
        None => format!(in alloc; "{words}\n"),
    }
}

fn line_of(
    alloc: Global,
    failure: Failure<'_>,
    reason: Option<io::Error>,
) -> Result<String, AllocError> {
    match failure {
        Failure::NoMemory => format!(in alloc; "out of memory\n"),
        Failure::Usage(what) => format!(in alloc; "Error: {what}\n"),
        Failure::Unopened(path) => {
            let words = format!(in alloc; "Couldn't open blob from '{path}'")?;
            with_reason(alloc, words, reason)
        }
        Failure::Unwritten(path) => {
            let words = format!(in alloc; "Couldn't write blob to '{path}'")?;
            with_reason(alloc, words, reason)
        }
        Failure::At(place, error) => format!(in alloc; "Error at '{place}': {error}\n"),
        Failure::Said(what) => format!(in alloc; "{what}\n"),
        Failure::NoNumber(word) => format!(in alloc;
            "Error: '{word}' is no number of this width\n"
        ),
        Failure::NoHeader(path) => {
            format!(in alloc; "FATAL ERROR: {path}: header is not valid\n")
        }
        Failure::NoMagic(path) => {
            format!(in alloc; "FATAL ERROR: {path}: could not locate fdt magic\n")
        }
    }
}

/// Tells a failure on standard error, behind the usage where the words are wrong, and answers the status.
pub fn fail<S: Surroundings, E: Eprint, T>(
    host: &mut Host<'_, S, E, T>,
    usage: &[u8],
    failure: Failure<'_>,
) -> u8 {
    if let Failure::Usage(_) = failure {
        host.tell(usage);
        host.tell(b"\n");
    }
    let reason = host.surroundings.reason();
    match line_of(host.alloc, failure, reason) {
        Ok(line) => host.tell(line.as_bytes()),
        Err(_) => host.tell(b"out of memory\n"),
    }
    FAILED
}

/// Prints what a tool answers.
pub fn put<O: Channel>(output: &mut O, text: &[u8]) -> Result<(), Failure<'static>>
    requires { O.has_failed output.old ≡ false }
    ensures { OnOk result (O.has_failed output.new ≡ false) }
{
    match print(output, text) {
        Ok(()) => Ok(()),
        Err(_) => Err(Failure::Unwritten("-")),
    }
}

/// The bytes of a file.
pub fn read_file<'a, S: Surroundings, E: Eprint, T>(
    host: &mut Host<'_, S, E, T>,
    path: &'a str,
) -> Result<Vec<u8>, Failure<'a>> {
    match host.blob(path) {
        Ok(bytes) => Ok(bytes),
        Err(_) => Err(Failure::Unopened(path)),
    }
}
