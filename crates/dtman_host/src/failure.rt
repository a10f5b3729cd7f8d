//! Why a command ends without its output, and the one line that tells it.

use crate::status::{COMMAND_LINE, FILE, REFUSED};
use bus_kernel::unpacking::ImageError;
use dtman_engine::Fault;
use std::alloc::{AllocError, Global};
use std::{io, str};

/// Why a command ended without its output.
#[derive(Drop)]
pub enum Failure<'a> {
    Refused(Fault),
    /// A refusal with the lines that say where and what.
    Told(String),
    /// A fault of the file at a path.
    File(Fault, &'a str),
    /// A file of this name that a source takes in can't be read.
    Lost(Vec<u8>),
    /// The same, with the lines that say where.
    LostAt(String),
    /// The image of a kernel at a path, of which nothing is read.
    Image(ImageError, &'a str),
    /// Nobody reads the output any more. That isn't told.
    Unread,
    /// A word for which there is nothing.
    NoSuch(Missing<'a>),
    /// A name that no links have.
    NoSuchLinks(&'a str),
    /// A word of the command line, and what is wrong with it.
    BadWord(&'a str, &'static str),
    /// All was printed or told: devices wait, boards differ, or files are refused. The exit status.
    Ended(u8),
}

/// A word of the command line for which there is nothing.
#[derive(Drop)]
pub struct Missing<'a> {
    /// What isn't there, in words up to the word.
    pub what: &'static str,
    pub word: &'a str,
    /// What is spelled like it.
    pub near: Option<String>,
}

impl From<Fault> for Failure<'_> {
    fn from(fault: Fault) -> Self {
        Failure::Refused(fault)
    }
}

/// Prints the line of a failure, or its lines, and answers its exit status.
pub fn fail<E: Eprint>(errors: &E, failure: Failure<'_>) -> u8 {
    let (printed, status) = match failure {
        Failure::Refused(fault) => (eprintln!(errors; "{fault}"), REFUSED),
        Failure::Told(lines) => (eprint!(errors; "{lines}"), REFUSED),
        Failure::File(fault, path) => (eprintln!(errors; "{fault} {path}"), FILE),
        Failure::Lost(name) => (lost(errors, name.as_slice()), FILE),
        Failure::LostAt(lines) => (eprint!(errors; "{lines}"), FILE),
        Failure::Image(error, path) => (image(errors, error, path), FILE),
        Failure::Unread => (Ok(()), FILE),
        Failure::NoSuch(missing) => (no_such(errors, missing), COMMAND_LINE),
        Failure::NoSuchLinks(name) => (
            eprintln!(errors; "error: no links are those of {name}; `linux` has some"),
            COMMAND_LINE,
        ),
        Failure::BadWord(word, why) => (eprintln!(errors; "error: {word}: {why}"), COMMAND_LINE),
        Failure::Ended(status) => (Ok(()), status),
    };
    // Standard error is the last place to say anything: the status stands alone where it is closed.
    let _ = printed;
    status
}

// How the image is packed, with the command that unpacks it.
fn image<E: Eprint>(errors: &E, error: ImageError, path: &str) -> io::Result<()> {
    match error {
        ImageError::Gzip(error) => eprintln!(errors; "error: {path}: {error}"),
        ImageError::Packed(packing) => match packing.command() {
            Some(command) => eprintln!(errors;
                "error: {path}: {packing} isn't unpacked here; `{command} {path}` does"
            ),
            None => eprintln!(errors; "error: {path}: {packing}"),
        },
    }
}

fn no_such<E: Eprint>(errors: &E, missing: Missing<'_>) -> io::Result<()> {
    let Missing { what, word, near } = missing;
    match near {
        Some(near) => eprintln!(errors; "error: {what} {word}; did you mean {near}?"),
        None => eprintln!(errors; "error: {what} {word}"),
    }
}

// The line of a file that a source takes in.
fn lost<E: Eprint>(errors: &E, name: &[u8]) -> io::Result<()> {
    let fault = Fault::cannot_read();
    let name = printable(name);
    eprintln!(errors; "{fault} {name}")
}

/// The same line, for others to follow.
pub fn lost_line(alloc: Global, name: &[u8]) -> Result<String, AllocError> {
    let fault = Fault::cannot_read();
    let name = printable(name);
    format!(in alloc; "{fault} {name}")
}

// A name out of a source, or a question mark for one that a terminal might obey or that is no text.
fn printable(name: &[u8]) -> &str {
    if name.iter().any(|c| c.is_ascii_control()) {
        return "?";
    }
    str::from_utf8(name).unwrap_or("?")
}
