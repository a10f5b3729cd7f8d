//! `fdtoverlay`: overlays applied to a base, one behind the other.
//!
//! The text that it prints by `-h` says what its options are.
ghost use Rattle.std.specs.Prelude.{◌≡◌, false};

use crate::reports::{Failure, fail, report_fault};
use crate::running::{FAILED, put, read};
use dtman_engine::{Channel, Fault, copy_bytes, overlay_bytes};
use dtman_host::{DONE, DTC_VERSION, Given, Host, Surroundings};
use dtman_words::dtc_options::BadWord;
use std::alloc::Global;

const HELP: &[u8] = b"Usage: apply a number of overlays to a base blob
\tfdtoverlay <options> <overlay.dtbo> [<overlay.dtbo>]

Options: -[i:o:vhV]
  -i, --input <arg>  the blob that they are applied to
  -o, --output <arg> the output file, - for standard output
  -v, --verbose      taken, without effect
  -h, --help         this text
  -V, --version      the version\n";

/// An overlay's number where it has no fragment.
const NOT_OVERLAY: u8 = 40;

/// What is asked for.
#[derive(Drop)]
struct Wanted<'a> {
    base: Option<&'a str>,
    output: Option<&'a str>,
    overlays: Vec<&'a str>,
    /// What is told in place of a run.
    told: Option<&'static [u8]>,
}

/// An option that a word belongs to.
#[derive(Clone, Copy, Debug, PartialEq, Eq)]
enum Letter {
    Input,
    Output,
}

/// Runs fdtoverlay by the words behind its name: `-i BASE -o OUT OVERLAY..`. Answers the exit status.
pub fn run_fdtoverlay<S: Surroundings, O: Channel, E: Eprint, T>(
    host: &mut Host<'_, S, E, T>,
    output: &mut O,
    words: &[&str],
) -> u8
    requires { O.has_failed output.old ≡ false }
{
    match apply(host, output, words) {
        Ok(()) => DONE,
        Err(failure) => {
            fail(host, &failure);
            FAILED
        }
    }
}

fn apply<'a, S: Surroundings, O: Channel, E: Eprint, T>(
    host: &mut Host<'_, S, E, T>,
    output: &mut O,
    words: &[&'a str],
) -> Result<(), Failure<'a>>
    requires { O.has_failed output.old ≡ false }
{
    let wanted = read_wanted(host.alloc, words)?;
    if let Some(text) = wanted.told {
        return put(host, output, "-", text);
    }
    let Some(base) = wanted.base else {
        return Err(Failure::Word(BadWord::NoArgument("-i")));
    };
    let Some(path) = wanted.output else {
        return Err(Failure::Word(BadWord::NoArgument("-o")));
    };
    if wanted.overlays.is_empty() {
        return Err(Failure::Word(BadWord::NoOverlay));
    }
    let blob = applied_all(host, base, wanted.overlays.as_slice())?;
    put(host, output, path, blob.as_slice())
}

/// The blob with all overlays on it.
fn applied_all<'a, S: Surroundings, E: Eprint, T>(
    host: &mut Host<'_, S, E, T>,
    base: &'a str,
    overlays: &[&'a str],
) -> Result<Vec<u8>, Failure<'a>> {
    let mut blob = read(host, base)?;
    for path in overlays {
        let overlay = read(host, *path)?;
        let pair = Pair {
            base,
            path: *path,
            blob: blob.as_slice(),
            overlay: overlay.as_slice(),
        };
        blob = applied(host, &pair)?;
    }
    Ok(blob)
}

/// A blob and an overlay for it, with the files that they come from.
#[derive(Clone, Copy)]
struct Pair<'a, 'b> {
    base: &'a str,
    path: &'a str,
    blob: &'b [u8],
    overlay: &'b [u8],
}

/// The blob with the overlay on it. One without a fragment changes nothing.
fn applied<'a, S: Surroundings, E: Eprint, T>(
    host: &mut Host<'_, S, E, T>,
    pair: &Pair<'a, '_>,
) -> Result<Vec<u8>, Failure<'a>> {
    let Ok(hasher) = host.seed() else {
        return Err(Failure::NoSeed);
    };
    let fault = match overlay_bytes(host.alloc, hasher, pair.blob, pair.overlay) {
        Ok(blob) => return Ok(blob),
        Err(fault) => fault,
    };
    match copy_bytes(host.alloc, hasher, pair.blob) {
        Ok(copy) if fault.number == NOT_OVERLAY => Ok(copy),
        Ok(_) => Err(not_applied(host, pair.path, &fault)),
        Err(of_base) => Err(not_applied(host, pair.base, &of_base)),
    }
}

/// Tells in which file a fault is.
fn not_applied<'a, S: Surroundings, E: Eprint, T>(
    host: &mut Host<'_, S, E, T>,
    path: &'a str,
    fault: &Fault,
) -> Failure<'a> {
    let blob = Given {
        name: path.as_bytes(),
        bytes: b"",
    };
    match report_fault(host, blob, fault) {
        Failure::Said(_) => Failure::NotApplied(path),
        failure => failure,
    }
}

fn read_wanted<'a>(alloc: Global, words: &[&'a str]) -> Result<Wanted<'a>, Failure<'a>> {
    let mut wanted = Wanted {
        base: None,
        output: None,
        overlays: Vec::new(alloc),
        told: None,
    };
    let mut open: Option<(Letter, &'a str)> = None;
    for word in words {
        match open.take() {
            Some((letter, _)) => set(&mut wanted, letter, *word),
            None => open = read_word(&mut wanted, *word)?,
        }
    }
    match open {
        Some((_, word)) => Err(Failure::Word(BadWord::NoArgument(word))),
        None => Ok(wanted),
    }
}

fn set<'a>(wanted: &mut Wanted<'a>, letter: Letter, word: &'a str) {
    match letter {
        Letter::Input => wanted.base = Some(word),
        Letter::Output => wanted.output = Some(word),
    }
}

/// Takes a word, and answers the option that the next one belongs to.
fn read_word<'a>(
    wanted: &mut Wanted<'a>,
    word: &'a str,
) -> Result<Option<(Letter, &'a str)>, Failure<'a>> {
    match word {
        "-i" | "--input" => return Ok(Some((Letter::Input, word))),
        "-o" | "--output" => return Ok(Some((Letter::Output, word))),
        "-v" | "--verbose" => {}
        "-h" | "--help" => wanted.told = Some(HELP),
        "-V" | "--version" => wanted.told = Some(DTC_VERSION),
        word => read_joined(wanted, word)?,
    }
    Ok(None)
}

/// `-iFILE`, `--input=FILE`, or an overlay.
fn read_joined<'a>(wanted: &mut Wanted<'a>, word: &'a str) -> Result<(), Failure<'a>> {
    let (letter, path) = match joined(word) {
        Some(joined) => joined,
        None if word.starts_with("-") && word != "-" => {
            return Err(Failure::Word(BadWord::Unknown(word)));
        }
        None => {
            wanted.overlays.push(word)?;
            return Ok(());
        }
    };
    set(wanted, letter, path);
    Ok(())
}

fn joined<'a>(word: &'a str) -> Option<(Letter, &'a str)> {
    for (front, letter) in [
        ("--input=", Letter::Input),
        ("--output=", Letter::Output),
        ("-i", Letter::Input),
        ("-o", Letter::Output),
    ] {
        if let Some(path) = word.strip_prefix(front) {
            return Some((letter, path));
        }
    }
    None
}
