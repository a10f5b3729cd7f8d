//! The program: the words of a command line in, its exit status out.
ghost use Rattle.std.specs.Prelude.{◌≡◌, false};

use crate::failing::tell_failure;
use crate::performing::perform;
use crate::tools::{run_tool, tool_in};
use clap::error::ErrorKind as Mistake;
use dtman_engine::{Channel, Fault, OutputChannel};
use dtman_host::{
    COMMAND_LINE, DONE, Detail, Failure, Host, Noted, Surroundings, System, asked_for, fail, print,
};
use dtman_words::command;
use std::alloc::{AllocError, Global};
use std::cell::Cell;
use std::io::ErrorKind;
use std::process::ExitCode;
use std::random::RandomSource;
use std::rt::{Env, Files};
use std::thread::Threads;
use std::{env, io};

/// Reads the arguments, runs the command, and answers the exit status.
pub fn run<
    R: Env
        + Files
        + Input
        + RandomSource
        + Print
        + Eprint
        + AllocGlobal
        + Threads
        + Sync
        + Clone
        + Drop,
>(rt: &R) -> ExitCode {
    let reason = Cell::new(None);
    let mut output = OutputChannel::new(Noted::new(io::writer(rt), &reason));
    let mut system = System {
        rt,
        reason: &reason,
    };
    let status = match arguments(rt) {
        Ok(words) => {
            match listed(rt.alloc(), words.as_slice(), wants_detail(rt)) {
                Ok(words) => run_words(
                    rt.alloc(),
                    &mut system,
                    rt,
                    &mut output,
                    rt,
                    words.as_slice(),
                ),
                Err(_) => fail(rt, Failure::Refused(Fault::no_memory())),
            }
        }
        Err(error) if error.kind() == ErrorKind::OutOfMemory => fail(
            rt,
            Failure::Refused(Fault::no_memory()),
        ),
        Err(_) => {
            let _ = eprintln!(rt; "error: an argument is not text");
            COMMAND_LINE
        }
    };
    ExitCode::from(status)
}

// Whether `DTMAN_VERBOSE=1` stands in the environment.
fn wants_detail<R: Env + AllocGlobal>(rt: &R) -> bool {
    match env::var(rt, "DTMAN_VERBOSE") {
        Ok(value) => value.as_str() == "1",
        Err(_) => false,
    }
}

// The words, in front of them one that asks for detail where it is wanted, but for a tool, which has no such word.
fn listed(alloc: Global, words: &[String], detail: bool) -> Result<Vec<&str>, AllocError> {
    let plain: Vec<&str> = words.iter().map(|word| word.as_str()).collect(alloc)?;
    if !detail || tool_in(plain.as_slice()).is_some() {
        return Ok(plain);
    }
    let mut list = Vec::with_capacity(alloc, plain.len().saturating_add(1))?;
    list.push("--verbose")?;
    list.extend_from_slice(plain.as_slice())?;
    Ok(list)
}

fn arguments<R: Env + AllocGlobal>(rt: &R) -> io::Result<Vec<String>> {
    let words: Vec<String> = env::args(rt)?.collect(rt.alloc())?;
    Ok(words)
}

/// Runs the command that the words name, over any files and any standard output, and answers the exit status.
///
/// Where that isn't 0, nothing was written to standard output, unless that is what failed, or a command has listed what should not be
/// there, or `fdtget` what it found first, or an editor's session ended early, or a file couldn't be written whose rule of make stands
/// there. The words `-v`, `--verbose` and `--json` ask for detail, before or behind the others. Where the
/// program's name or its first word is one of dtc's package (`dtc`, `fdtoverlay`, `fdtget`, `fdtput`, `fdtdump`), it does what that does.
pub fn run_words<S: Surroundings, O: Channel, E: Eprint, T: Threads + Sync>(
    alloc: Global,
    surroundings: &mut S,
    threads: &T,
    output: &mut O,
    errors: &E,
    words: &[&str],
) -> u8
    requires { O.has_failed output.old ≡ false }
{
    let Some((tool, words)) = tool_in(words) else {
        return run_asked(alloc, surroundings, threads, output, errors, words);
    };
    let mut host = Host {
        alloc,
        surroundings,
        threads,
        errors,
        detail: Detail::Line,
    };
    run_tool(&mut host, output, tool, words)
}

fn run_asked<S: Surroundings, O: Channel, E: Eprint, T: Threads + Sync>(
    alloc: Global,
    surroundings: &mut S,
    threads: &T,
    output: &mut O,
    errors: &E,
    words: &[&str],
) -> u8
    requires { O.has_failed output.old ≡ false }
{
    let asked = match asked_for(alloc, words) {
        Ok(asked) => asked,
        Err(_) => return fail(errors, Failure::Refused(Fault::no_memory())),
    };
    let mut host = Host {
        alloc,
        surroundings,
        threads,
        errors,
        detail: asked.detail,
    };
    run_command(&mut host, output, asked.words.as_slice())
}

fn run_command<S: Surroundings, O: Channel, E: Eprint, T: Threads + Sync>(
    host: &mut Host<'_, S, E, T>,
    output: &mut O,
    words: &[&str],
) -> u8
    requires { O.has_failed output.old ≡ false }
{
    let errors = host.errors;
    match command(host.alloc, words) {
        Ok(command) => match perform(host, output, command) {
            Ok(()) => DONE,
            Err(failure) => tell_failure(host, failure),
        },
        Err(error) => match error.kind() {
            Mistake::OutOfMemory => fail(errors, Failure::Refused(Fault::no_memory())),
            Mistake::DisplayHelp | Mistake::DisplayVersion => {
                tell(host.alloc, output, errors, &error)
            }
            _ => {
                let _ = errors.eprint(&error);
                COMMAND_LINE
            }
        },
    }
}

/// Prints what the words asked `clap` for.
fn tell<O: Channel, E: Eprint>(alloc: Global, output: &mut O, errors: &E, asked: &clap::Error) -> u8
    requires { O.has_failed output.old ≡ false }
{
    let printed = match format!(in alloc; "{asked}") {
        Ok(text) => print(output, text.as_bytes()),
        Err(_) => Err(Failure::Refused(Fault::no_memory())),
    };
    match printed {
        Ok(()) => DONE,
        Err(failure) => fail(errors, failure),
    }
}
