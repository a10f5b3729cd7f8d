//! A run of dtc: one input, one output.
ghost use Rattle.std.specs.Prelude.{◌≡◌, false, IfOk, IsSomeAnd};
ghost use Rattle.dtman_dtc.specs.DtcOutput.{IsConverted};
ghost use Rattle.dtman_words.specs.declared.dtc_options.Format.TheVariants.{Dtb};
ghost use Rattle.dtman_words.specs.declared.dtc_options.Output.TheVariants.{Holds};

use crate::folder_tree::folder_blob;
use crate::forming::judged_output;
use crate::reports::{Failure, fail};
use crate::taking::{Input, take};
use dtman_engine::Channel;
use dtman_host::{
    DONE, DTC_VERSION, Host, Surroundings, dependency_rule, first_read, named, put_at,
    write_in_place,
};
use dtman_words::dtc_options::{
    Asked, Format, Options, Output, format_of, output_named, read_words,
};

/// The exit status of a run that didn't give its output.
pub(crate) const FAILED: u8 = 1;

/// The exit status of one whose source was read and makes no tree.
pub(crate) const WRONG_TREE: u8 = 2;

const HELP: &[u8] = b"Usage: dtc [options] <input file>\n
Options: -[qI:O:o:V:d:R:S:p:a:fb:i:H:sW:E:@hv]
  -q, --quiet                 say less
  -I, --in-format <arg>       dts, dtb or fs (a folder)
  -o, --out <arg>             the output file, - for standard output
  -O, --out-format <arg>      dtb, dts or null (nothing)
  -V, --out-version <arg>     17, the version of each blob
  -d, --out-dependency <arg>  writes the files that were read, for make
  -R, --reserve <number>      empty entries of the memory reservations
  -S, --space <bytes>         the least size of the blob
  -p, --pad <bytes>           bytes behind the blob
  -a, --align <bytes>         what the blob's size is a multiple of
  -b, --boot-cpu <number>     the processor that boots
  -i, --include <folder>      where files are looked for
  -s, --sort                  nodes and properties in order of their names
  -H, --phandle <arg>         epapr: phandles stand in properties phandle
  -f, --force                 writes what an error was found in
  -W, --warning <check>       a check warns; no-<check>, it doesn't
  -E, --error <check>         a check is an error; no-<check>, it is none
  -@, --symbols               adds the paths of all labelled nodes
  -h, --help                  this text
  -v, --version               the version\n";

/// Runs dtc by the words behind its name, and answers the exit status.
pub fn run_dtc<S: Surroundings, O: Channel, E: Eprint, T>(
    host: &mut Host<'_, S, E, T>,
    output: &mut O,
    words: &[&str],
) -> u8
    requires { O.has_failed output.old ≡ false }
{
    let asked = match read_words(host.alloc, words) {
        Ok(asked) => asked,
        Err(word) => return fail(host, &Failure::Word(word)),
    };
    match answered(host, output, &asked) {
        Ok(()) => DONE,
        Err(failure) => fail(host, &failure),
    }
}

fn answered<'a, S: Surroundings, O: Channel, E: Eprint, T>(
    host: &mut Host<'_, S, E, T>,
    output: &mut O,
    asked: &Asked<'a>,
) -> Result<(), Failure<'a>>
    requires { O.has_failed output.old ≡ false }
{
    match asked {
        Asked::Help => put(host, output, "-", HELP),
        Asked::Version => put(host, output, "-", DTC_VERSION),
        Asked::Conversion(options) => match converted(host, options)? {
            Some(bytes) => put(host, output, options.output, bytes.as_slice()),
            None if options.output == "-" => Ok(()),
            // as dtc does, which opens the file before it looks at the format
            None => put(host, output, options.output, b""),
        },
    }
}

/// The bytes of a file, or the failure that names it.
pub(crate) fn read<'a, S: Surroundings, E: Eprint, T>(
    host: &mut Host<'_, S, E, T>,
    path: &'a str,
) -> Result<Vec<u8>, Failure<'a>> {
    match host.blob(path) {
        Ok(bytes) => Ok(bytes),
        Err(_) => Err(Failure::NoInput(path)),
    }
}

/// Writes a file; the failure names it.
pub(crate) fn put<'a, S: Surroundings, O: Channel, E: Eprint, T>(
    host: &mut Host<'_, S, E, T>,
    output: &mut O,
    path: &'a str,
    bytes: &[u8],
) -> Result<(), Failure<'a>>
    requires { O.has_failed output.old ≡ false }
{
    match put_at(host.surroundings, output, path, bytes) {
        Ok(()) => Ok(()),
        Err(_) => Err(Failure::NoOutput(path)),
    }
}

/// The bytes that are asked for, if any are. The files that were read are written on the way.
fn converted<'a, S: Surroundings, E: Eprint, T>(
    host: &mut Host<'_, S, E, T>,
    options: &Options<'a>,
) -> Result<Option<Vec<u8>>, Failure<'a>> {
    let given = input_of(host, options)?;
    let to = match options.to {
        Some(to) => to,
        None => output_named(options.output, given.from).map_err(Failure::Word)?,
    };
    let mut found = first_read(host.alloc, named(options.input))?;
    let bytes = output_of(host, options, given, to, &mut found)?;
    put_found(host, options, found.as_slice())?;
    Ok(bytes)
}

/// What is made of an input. The paths of the files that it takes in are added.
fn output_of<'a, S: Surroundings, E: Eprint, T>(
    host: &mut Host<'_, S, E, T>,
    options: &Options<'a>,
    given: Input,
    to: Output,
    found: &mut Vec<Vec<u8>>,
) -> Result<Option<Vec<u8>>, Failure<'a>>
    // Where that is a blob: of the tree that the input says, in the order and with the room that are asked for.
    ensures { to ≡ Holds Dtb → IfOk result (λ output. IsSomeAnd output
        (λ blob. IsConverted options.now given.from given.bytes.items blob.items)) }
{
    let taken = take(host, options, given, to, found)?;
    judged_output(host, options, &taken, to)
}

/// What the command line names as input.
fn input_of<'a, S: Surroundings, E: Eprint, T>(
    host: &mut Host<'_, S, E, T>,
    options: &Options<'a>,
) -> Result<Input, Failure<'a>> {
    let from = match options.from {
        None if is_folder(host, options.input) => Some(Format::Folder),
        from => from,
    };
    if from == Some(Format::Folder) {
        return Ok(Input {
            from: Format::Folder,
            bytes: folder_blob(host, options.input)?,
        });
    }
    let bytes = read(host, options.input)?;
    Ok(Input {
        from: from.unwrap_or(format_of(options.input, bytes.as_slice())),
        bytes,
    })
}

fn is_folder<S: Surroundings, E: Eprint, T>(host: &mut Host<'_, S, E, T>, path: &str) -> bool {
    host.surroundings.entries(host.alloc, path).is_ok()
}

/// Writes the files that were read, where that is asked for.
fn put_found<'a, S: Surroundings, E: Eprint, T>(
    host: &mut Host<'_, S, E, T>,
    options: &Options<'a>,
    found: &[Vec<u8>],
) -> Result<(), Failure<'a>> {
    match options.dependencies {
        // dtc makes a file of this name
        Some("-") => put_dependencies(host, options, "./-", found),
        Some(path) => put_dependencies(host, options, path, found),
        None => Ok(()),
    }
}

/// Writes `OUT: FILE ..` for make.
fn put_dependencies<'a, S: Surroundings, E: Eprint, T>(
    host: &mut Host<'_, S, E, T>,
    options: &Options<'a>,
    path: &'a str,
    found: &[Vec<u8>],
) -> Result<(), Failure<'a>> {
    let rule = dependency_rule(host.alloc, options.output, found)?;
    match write_in_place(host.surroundings, path, rule.as_slice()) {
        Ok(()) => Ok(()),
        Err(_) => Err(Failure::NoOutput(path)),
    }
}
