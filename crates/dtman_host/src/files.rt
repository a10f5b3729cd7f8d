//! Files, standard output and the random seed, each with the fault that tells it.
ghost use Rattle.std.specs.Prelude.{◌≡◌, ◌<◌, ◌^◌, false, OnOk};

use crate::beside::Beside;
use crate::failure::Failure;
use crate::surroundings::Surroundings;
use dtman_engine::{Channel, Failed, Fault, MAX_TEXT_LEN, read_all, read_within, write_out};
use std::alloc::Global;
use std::hash::RandomState;

/// Standard input or standard output as the path of a command line.
const STANDARD: &str = "-";

/// Standard input as the path of a fault.
pub const INPUT: &str = "stdin";

/// Standard output as the path of a fault.
const OUTPUT: &str = "stdout";

/// The source of the random seed as the path of a fault.
const SEED: &str = "random";

/// A source or a blob, or as much of a file as shows that it is too long for one.
pub fn read_at<'a, S: Surroundings>(
    alloc: Global,
    surroundings: &mut S,
    path: &'a str,
    limit: usize,
) -> Result<Vec<u8>, Failure<'a>>
    requires { limit < 2 ^ 32 }
{
    if path == STANDARD {
        return read_all(alloc, &mut surroundings.input(), limit).map_err(|fault| at(INPUT, fault));
    }
    match surroundings.open(path) {
        Ok(mut file) => read_all(alloc, &mut file, limit).map_err(|fault| at(path, fault)),
        Err(_) => Err(Failure::File(Fault::cannot_read(), path)),
    }
}

/// Has a path name a file with these bytes. What it named stays where that fails, but for what has to be written where it is.
pub fn write_at<'a, S: Surroundings, O: Channel>(
    alloc: Global,
    surroundings: &mut S,
    output: &mut O,
    path: &'a str,
    bytes: &[u8],
) -> Result<(), Failure<'a>>
    requires { O.has_failed output.old ≡ false }
    ensures { OnOk result (O.has_failed output.new ≡ false) }
{
    if path == STANDARD {
        return print(output, bytes);
    }
    let written = match surroundings.create_beside(alloc, path) {
        Some(beside) => write_beside(surroundings, path, beside, bytes),
        None => write_in_place(surroundings, path, bytes),
    };
    written.map_err(|why| unwritten(path, why))
}

// Writes a new file that then takes the place of what the path names.
fn write_beside<S: Surroundings>(
    surroundings: &mut S,
    path: &str,
    beside: Beside<S::File>,
    bytes: &[u8],
) -> Result<(), Failed>
    requires { S.File.has_failed beside.file ≡ false }
{
    let Beside {
        path: name,
        mut file,
    } = beside;
    let written = write_out(&mut file, bytes);
    surroundings.close(name.as_str(), file);
    let replaced = match written {
        Ok(()) => surroundings.replace(name.as_str(), path),
        Err(fault) => Err(fault.why),
    };
    if replaced.is_err() {
        surroundings.remove(name.as_str());
    }
    replaced
}

/// Writes a file where it is, which is made or emptied first; standard output where the path is `-`.
pub fn put_at<S: Surroundings, O: Channel>(
    surroundings: &mut S,
    output: &mut O,
    path: &str,
    bytes: &[u8],
) -> Result<(), Failed>
    requires { O.has_failed output.old ≡ false }
{
    if path == STANDARD {
        return write_out(output, bytes).map_err(|fault| fault.why);
    }
    write_in_place(surroundings, path, bytes)
}

/// Writes a file that is made or emptied first. After a failed write it holds a beginning of the bytes, or nothing.
pub fn write_in_place<S: Surroundings>(
    surroundings: &mut S,
    path: &str,
    bytes: &[u8],
) -> Result<(), Failed> {
    let mut file = surroundings.create(path)?;
    write_out(&mut file, bytes).map_err(|fault| fault.why)?;
    surroundings.close(path, file);
    Ok(())
}

/// How an input is called: standard input has no path.
pub fn named(path: &str) -> &str {
    match path {
        STANDARD => "<stdin>",
        path => path,
    }
}

/// A driver, plan or schedule file.
pub fn text_at<'a, S: Surroundings>(
    alloc: Global,
    surroundings: &mut S,
    path: &'a str,
) -> Result<Vec<u8>, Failure<'a>> {
    if path == STANDARD {
        return read_within(alloc, &mut surroundings.input(), MAX_TEXT_LEN).map_err(|fault| at(
            INPUT, fault,
        ));
    }
    match surroundings.open(path) {
        Ok(mut file) => read_within(alloc, &mut file, MAX_TEXT_LEN).map_err(|fault| at(
            path, fault,
        )),
        Err(_) => Err(Failure::File(Fault::cannot_read(), path)),
    }
}

/// A fault met while the file at a path was read: want of memory is no file's.
fn at(path: &str, fault: Fault) -> Failure<'_> {
    match fault.number {
        0 => Failure::Refused(fault),
        _ => Failure::File(fault, path),
    }
}

pub fn seed<S: Surroundings>(surroundings: &mut S) -> Result<RandomState, Failure<'static>> {
    surroundings
        .seed()
        .map_err(|_| Failure::File(Fault::cannot_read(), SEED))
}

/// Writes an answer to standard output, once all of it is there.
pub fn print<O: Channel>(output: &mut O, text: &[u8]) -> Result<(), Failure<'static>>
    requires { O.has_failed output.old ≡ false }
    ensures { OnOk result (O.has_failed output.new ≡ false) }
{
    write_out(output, text).map_err(|fault| unwritten(OUTPUT, fault.why))
}

/// A fault met while the file at a path was written.
fn unwritten(path: &str, why: Failed) -> Failure<'_> {
    match why {
        Failed::Unread => Failure::Unread,
        Failed::Fault => Failure::File(Fault::cannot_write(), path),
    }
}
