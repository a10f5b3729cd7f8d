//! What an input of dtc's holds: a source that is compiled, a blob that is laid out anew, a folder.
ghost use Rattle.std.specs.Prelude.{◌≡◌, IfOk};
ghost use Rattle.dt_tree.specs.TreeData.{TreeData};
ghost use Rattle.dtman_host.specs.Outcome.{IsOutcome};
ghost use Rattle.dtman_host.specs.SourceFiles.{SomeFile, NoFile};
ghost use Rattle.dtman_host.specs.BoardBlob.{board_blob};
ghost use Rattle.dtman_dtc.specs.DtcOutput.{boots, IsBlobFor, IsRead};
ghost use Rattle.dtman_words.specs.declared.dtc_options.Format.TheVariants.{Dts, Dtb};
ghost use Rattle.dtman_words.specs.declared.dtc_options.Output.TheVariants.{Holds};

use crate::blob_refusals::report_blob;
use crate::reports::{Failure, report_shortfall, report_source};
use dt_text::include::plain;
use dt_text::lexeme::Language;
use dtman_blobs::set_boot_cpu;
use dtman_check::named_once;
use dtman_engine::{BlobRole, DtcOptions, Fault, tree_blob, tree_of};
use dtman_host::{Again, Board, Given, Host, Made, Outcome, Surroundings, compile_in, named};
use dtman_words::dtc_options::{Format, Options, Output};
use std::alloc::Global;
use std::hash::RandomState;

/// An input: what it is, and its bytes; those of its blob where it is a folder.
#[derive(Drop)]
pub(crate) struct Input {
    pub(crate) from: Format,
    pub(crate) bytes: Vec<u8>,
}

/// What was given.
#[derive(Drop)]
pub(crate) struct Taken {
    pub(crate) board: Board,
    /// The blob with the paths of all labelled nodes, where these are asked for and can be told.
    pub(crate) labelled: Vec<u8>,
}

/// What was given, as far as it is needed.
pub(crate) fn take<S: Surroundings, E: Eprint, T>(
    host: &mut Host<'_, S, E, T>,
    options: &Options<'_>,
    given: Input,
    to: Output,
    found: &mut Vec<Vec<u8>>,
) -> Result<Taken, Failure<'static>>
    ensures { to ≡ Holds Dtb → IfOk result
        (λ taken. IsRead options.now given.from given.bytes.items (board_blob taken.board)) }
{
    let Input { from, bytes } = given;
    match from {
        Format::Dts => compiled_to(host, options, to, bytes.as_slice(), found),
        Format::Dtb | Format::Folder => {
            Ok(unlabelled(host.alloc, blob_taken(host, options, bytes, to)?))
        }
    }
}

/// A blob, which tells no labels.
fn unlabelled(alloc: Global, blob: Vec<u8>) -> Taken
    ensures { board_blob result.board ≡ blob.items }
{
    Taken {
        board: Board::Blob(blob),
        labelled: Vec::new(alloc),
    }
}

/// A blob laid out anew, but for one that is printed: that is read once.
fn blob_taken<S: Surroundings, E: Eprint, T>(
    host: &mut Host<'_, S, E, T>,
    options: &Options<'_>,
    blob: Vec<u8>,
    to: Output,
) -> Result<Vec<u8>, Failure<'static>>
    ensures { to ≡ Holds Dtb → IfOk result (λ taken. IsRead options.now Dtb blob.items taken.items) }
{
    if to == Output::Holds(Format::Dts) {
        return Ok(blob);
    }
    copied(host, options, blob.as_slice())
}

/// A blob with the processor that was named to boot.
fn booted(blob: Vec<u8>, options: &Options<'_>) -> Vec<u8>
    ensures { (tree : TreeData) → IsBlobFor tree blob.items → IsBlobFor (boots options.now.boot_cpu tree) result.items }
{
    let mut blob = blob;
    if let Some(number) = options.boot_cpu {
        set_boot_cpu(blob.as_mut_slice(), number);
    }
    blob
}

/// The name of the file that is read.
fn name_of_input<'a>(options: &Options<'a>) -> &'a [u8] {
    plain(named(options.input).as_bytes())
}

/// The source that was read, in a file of this name.
fn source_in<'s>(name: &'s [u8], bytes: &'s [u8]) -> Given<'s>
    ensures name { result.name.now ≡ name.now }
    ensures bytes { result.bytes.now ≡ bytes.now }
{
    Given { name, bytes }
}

/// What a source comes to with all that it takes in.
fn compiled<S: Surroundings, E: Eprint, T>(
    host: &mut Host<'_, S, E, T>,
    options: &Options<'_>,
    hasher: RandomState,
    source: Given<'_>,
    found: &mut Vec<Vec<u8>>,
    how: DtcOptions,
) -> Outcome
    ensures { IsOutcome SomeFile NoFile source.entry.name.now source.entry.bytes.now how result }
{
    compile_in(
        host.alloc,
        hasher,
        host.surroundings,
        options.folders.as_slice(),
        found,
        source,
        how,
    )
}

/// A source that was compiled, or what was said of it.
fn made<S: Surroundings, E: Eprint, T>(
    host: &mut Host<'_, S, E, T>,
    options: &Options<'_>,
    source: &[u8],
    found: &mut Vec<Vec<u8>>,
) -> Result<Made, Failure<'static>>
    ensures { IfOk result (λ made. IsRead options.now Dts source.now made.compiled.blob.items) }
{
    let Ok(hasher) = host.seed() else {
        return Err(Failure::NoSeed);
    };
    let how = DtcOptions {
        symbols: options.symbols,
        boot_processor: options.boot_cpu,
    };
    let name = name_of_input(options);
    match compiled(host, options, hasher, source_in(name, source), found, how) {
        Outcome::Answered { text, answer } => match answer {
            Ok(compiled) => Ok(Made { compiled, text }),
            Err(fault) => {
                let again = Again {
                    hasher,
                    language: Language::Dtc,
                    symbols: options.symbols,
                };
                let text = source_in(name, text.as_slice());
                Err(report_source(host, again, text, &fault))
            }
        },
        Outcome::Short(shortfall) => Err(report_shortfall(host, shortfall)),
    }
}

/// The blob of a tree with each node's name told once, with the processor that boots.
fn copied<S: Surroundings, E: Eprint, T>(
    host: &mut Host<'_, S, E, T>,
    options: &Options<'_>,
    blob: &[u8],
) -> Result<Vec<u8>, Failure<'static>>
    ensures { IfOk result (λ copy. IsRead options.now Dtb blob.now copy.items) }
{
    let Ok(hasher) = host.seed() else {
        return Err(Failure::NoSeed);
    };
    let tree = match tree_of(host.alloc, BlobRole::Sole, blob) {
        Ok(tree) => named_once(host.alloc, tree)?,
        Err(fault) => return Err(refused(host, options, blob, &fault)),
    };
    tree.check();
    match tree_blob(host.alloc, hasher, &tree) {
        Ok(copy) => Ok(booted(copy, options)),
        Err(fault) => Err(refused(host, options, blob, &fault)),
    }
}

/// Says a refusal of the input's blob.
pub(crate) fn refused<S: Surroundings, E: Eprint, T>(
    host: &mut Host<'_, S, E, T>,
    options: &Options<'_>,
    bytes: &[u8],
    fault: &Fault,
) -> Failure<'static> {
    let blob = Given {
        name: options.input.as_bytes(),
        bytes,
    };
    report_blob(host, blob, fault)
}

/// What a source was compiled to and, where it is to be printed, its labels.
fn compiled_to<S: Surroundings, E: Eprint, T>(
    host: &mut Host<'_, S, E, T>,
    options: &Options<'_>,
    to: Output,
    source: &[u8],
    found: &mut Vec<Vec<u8>>,
) -> Result<Taken, Failure<'static>>
    ensures { IfOk result (λ taken. IsRead options.now Dts source.now (board_blob taken.board)) }
{
    let board = Board::Source(made(host, options, source, found)?);
    let labelled = if to == Output::Holds(Format::Dts) {
        labelled(host, options, source)?
    } else {
        Vec::new(host.alloc)
    };
    Ok(Taken { board, labelled })
}

/// The blob of a source with the paths of all labelled nodes; none where they can't be told.
fn labelled<S: Surroundings, E: Eprint, T>(
    host: &mut Host<'_, S, E, T>,
    options: &Options<'_>,
    source: &[u8],
) -> Result<Vec<u8>, Failure<'static>> {
    let Ok(hasher) = host.seed() else {
        return Err(Failure::NoSeed);
    };
    let mut found = Vec::new(host.alloc);
    let how = DtcOptions {
        symbols: true,
        boot_processor: None,
    };
    let source = source_in(name_of_input(options), source);
    match compiled(host, options, hasher, source, &mut found, how) {
        Outcome::Answered { answer, .. } => match answer {
            Ok(compiled) => Ok(compiled.blob),
            Err(_) => Ok(Vec::new(host.alloc)),
        },
        Outcome::Short(shortfall) => Err(report_shortfall(host, shortfall)),
    }
}
