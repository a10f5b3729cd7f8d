//! What each command does: its files in, one engine's bytes out.
ghost use Rattle.std.specs.Prelude.{◌≡◌, false, OnOk};

use crate::blobs::{Compiling, compiled, dumped, overlaid};
use crate::boots::{drivers_made, replayed, traced};
use crate::checks::checked;
use crate::explaining::explained;
use crate::nodes::{Asked, changed, compared, listed, sameness_of, valued};
use crate::preprocessing::printed;
use crate::questions::{needed, planned, probed, waiting};
use crate::trees::{found, mapped, used};
use dtman_author::{lay_out, serve_editor};
use dtman_engine::Channel;
use dtman_host::{Failure, Host, Surroundings, print, write_at};
use dtman_words::{Command, Formatting};
use std::thread::Threads;

/// What a command leaves once all of it is there.
#[derive(Drop)]
pub enum Answer<'a> {
    /// Text for standard output.
    Text(Vec<u8>),
    /// Text that lists what should not be there, or behind which something was refused: a failure once it is printed, with that status.
    Failing {
        text: Vec<u8>,
        status: u8,
    },
    /// The bytes of a file.
    File {
        path: &'a str,
        bytes: Vec<u8>,
    },
    /// The same, and the rule of make that is written before it, so that no new blob stands beside an old rule.
    Ruled {
        depfile: &'a str,
        rule: Vec<u8>,
        path: &'a str,
        bytes: Vec<u8>,
    },
    /// A source, as it is to be laid out.
    Layout(Formatting<'a>),
    /// An editor's session, with the folders where headers are looked for.
    Session(Vec<&'a str>),
}

/// Does what a command says.
pub fn perform<'a, S: Surroundings, O: Channel, E: Eprint, T: Threads + Sync>(
    host: &mut Host<'_, S, E, T>,
    output: &mut O,
    command: Command<'a>,
) -> Result<(), Failure<'a>>
    requires { O.has_failed output.old ≡ false }
{
    match answer_of(host, command) {
        Ok(answer) => deliver(host, output, answer),
        Err(failure) => Err(failure),
    }
}

// Prints or writes an answer.
fn deliver<'a, S: Surroundings, O: Channel, E: Eprint, T: Threads + Sync>(
    host: &mut Host<'_, S, E, T>,
    output: &mut O,
    answer: Answer<'a>,
) -> Result<(), Failure<'a>>
    requires { O.has_failed output.old ≡ false }
{
    match answer {
        Answer::Text(text) => print(output, text.as_slice()),
        Answer::Failing { text, status } => failing(output, text.as_slice(), status),
        Answer::File { path, bytes } => written(host, output, path, bytes.as_slice()),
        Answer::Ruled {
            depfile,
            rule,
            path,
            bytes,
        } => ruled(host, output, depfile, rule, path, bytes),
        Answer::Layout(asked) => lay_out(host, output, asked),
        Answer::Session(folders) => served(host, output, folders),
    }
}

fn failing<O: Channel>(output: &mut O, text: &[u8], status: u8) -> Result<(), Failure<'static>>
    requires { O.has_failed output.old ≡ false }
{
    print(output, text)?;
    Err(Failure::Ended(status))
}

fn written<'a, S: Surroundings, O: Channel, E: Eprint, T: Threads + Sync>(
    host: &mut Host<'_, S, E, T>,
    output: &mut O,
    path: &'a str,
    bytes: &[u8],
) -> Result<(), Failure<'a>>
    requires { O.has_failed output.old ≡ false }
    ensures { OnOk result (O.has_failed output.new ≡ false) }
{
    write_at(host.alloc, host.surroundings, output, path, bytes)
}

// Writes the rule of make, and then the file.
fn ruled<'a, S: Surroundings, O: Channel, E: Eprint, T: Threads + Sync>(
    host: &mut Host<'_, S, E, T>,
    output: &mut O,
    depfile: &'a str,
    rule: Vec<u8>,
    path: &'a str,
    bytes: Vec<u8>,
) -> Result<(), Failure<'a>>
    requires { O.has_failed output.old ≡ false }
{
    written(host, output, depfile, rule.as_slice())?;
    written(host, output, path, bytes.as_slice())
}

fn served<'a, S: Surroundings, O: Channel, E: Eprint, T: Threads + Sync>(
    host: &mut Host<'_, S, E, T>,
    output: &mut O,
    folders: Vec<&'a str>,
) -> Result<(), Failure<'a>> {
    serve_editor(host, output, folders.as_slice())
}

fn answer_of<'a, S: Surroundings, E: Eprint, T: Threads + Sync>(
    host: &mut Host<'_, S, E, T>,
    command: Command<'a>,
) -> Result<Answer<'a>, Failure<'a>> {
    match command {
        Command::Compile {
            source,
            out,
            symbols,
            language,
            preprocessing,
            depfile,
        } => {
            let asked = Compiling {
                out,
                symbols,
                language,
                preprocessing,
                depfile,
            };
            compiled(host, source, &asked)
        }
        Command::Preprocess {
            source,
            definitions,
        } => printed(host, source, &definitions),
        Command::Overlay { base, overlay, out } => overlaid(host, base, overlay, out),
        Command::Dump { blob, labels } => dumped(host, blob, labels),
        Command::Plan {
            board,
            picture,
            late,
        } => planned(host, board, picture, late),
        Command::Probe {
            board,
            timeout,
            workers,
            without,
        } => probed(host, board, timeout, workers, without),
        Command::Why {
            board,
            timeout,
            path,
            check,
        } => waiting(host, board, timeout, path, check),
        Command::Needs { board, path } => needed(host, board, path),
        Command::Drivers {
            aliases,
            builtin,
            kernel,
        } => drivers_made(host, aliases, builtin, kernel),
        Command::Trace { log, plan } => traced(host, log, plan),
        Command::Replay {
            plan,
            schedule,
            workers,
        } => replayed(host, plan, schedule, workers),
        Command::Find { blob, what } => found(host, blob, what),
        Command::Who { blob, path, number } => used(host, blob, path, number),
        Command::Map { blob } => mapped(host, blob),
        Command::Check { inspection } => checked(host, &inspection),
        Command::Format { formatting } => Ok(Answer::Layout(formatting)),
        Command::Serve { folders } => Ok(Answer::Session(folders)),
        Command::Diff {
            first,
            second,
            order,
        } => compared(host, first, second, sameness_of(order)),
        Command::Get {
            blob,
            path,
            property,
            kind,
        } => valued(host, blob, path, property, kind),
        Command::Listing { blob, path } => listed(host, blob, path),
        Command::Set {
            blob,
            path,
            property,
            values,
            kind,
            out,
        } => {
            let asked = Asked {
                blob,
                path,
                property,
            };
            changed(host, asked, values.as_slice(), kind, out)
        }
        Command::Explain { number } => Ok(Answer::Text(explained(host.alloc, number)?)),
    }
}
