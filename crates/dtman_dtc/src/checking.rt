//! The checks of a tree on the way to its blob.

use crate::reports::{Failure, Wrong};
use dt_blob::BlobError;
use dtman_check::table::{Reference, Selection};
use dtman_check::{Answer, Asked, Shape, Source, check_blob, check_tree, least_of};
use dtman_host::{Board, Host, Made, Surroundings, named};
use dtman_words::dtc_options::Options;
use std::alloc::Global;
use std::hash::RandomState;

/// What the checks of a board tell.
pub(crate) fn checked<'a, S: Surroundings, E: Eprint, T>(
    host: &mut Host<'_, S, E, T>,
    options: &Options<'a>,
    board: &Board,
) -> Result<(), Failure<'a>> {
    if options.selection.is_empty(least_of(options.quiet)) {
        return Ok(());
    }
    let reference = Reference::new(host.alloc);
    let Some(answer) = answer_of(host, options, board, &reference)? else {
        return Ok(());
    };
    host.tell(answer.text.as_slice());
    if !answer.failed {
        return Ok(());
    }
    if !options.force {
        return Err(Failure::Said(Wrong::Tree));
    }
    tell_forced(host, options);
    Ok(())
}

/// Says that what an error was found in is written by `-f`.
pub(crate) fn tell_forced<S: Surroundings, E: Eprint, T>(
    host: &mut Host<'_, S, E, T>,
    options: &Options<'_>,
) {
    if options.quiet < 3 {
        host.tell(b"Warning: Input tree has errors, output forced\n");
    }
}

// What the checks tell: nothing of what is no blob, since whoever reads it says so.
fn answer_of<'a, S: Surroundings, E: Eprint, T>(
    host: &mut Host<'_, S, E, T>,
    options: &Options<'a>,
    board: &Board,
    reference: &Reference<'_>,
) -> Result<Option<Answer>, Failure<'a>> {
    let Ok(hasher) = host.seed() else {
        return Err(Failure::NoSeed);
    };
    let asked = Asked::of(named(options.input).as_bytes(), reference).shaped(
        Shape::Plain,
        options.quiet,
    );
    match judged(host.alloc, hasher, board, &options.selection, asked) {
        Ok(answer) => Ok(Some(answer)),
        Err(BlobError::NoMemory) => Err(Failure::NoMemory),
        Err(_) => Ok(None),
    }
}

/// What the checks of a board tell: of a source by its tree and its places, else of a blob.
pub fn judged(
    alloc: Global,
    hasher: RandomState,
    given: &Board,
    selection: &Selection,
    asked: Asked<'_>,
) -> Result<Answer, BlobError> {
    match given {
        Board::Blob(blob) => check_blob(alloc, hasher, blob.as_slice(), selection, asked),
        Board::Source(Made { compiled, text }) => {
            let source = Source {
                text: text.as_slice(),
                places: &compiled.places,
            };
            let asked = asked.in_source(source);
            Ok(check_tree(alloc, hasher, &compiled.tree, selection, asked)?)
        }
    }
}
