//! A board in the form that is asked for: checked, in order, with room or as a source.
ghost use Rattle.std.specs.Prelude.{◌≡◌, IfOk, IsSomeAnd};
ghost use Rattle.dt_tree.specs.TreeData.{TreeData};
ghost use Rattle.dtman_engine.specs.Sort.{IsSortedBlob};
ghost use Rattle.dtman_host.specs.BoardBlob.{board_blob};
ghost use Rattle.dtman_dtc.specs.DtcOutput.{HasRoom, IsBlobFor, IsOutput};
ghost use Rattle.dtman_words.specs.declared.dtc_options.Format.TheVariants.{Dtb};
ghost use Rattle.dtman_words.specs.declared.dtc_options.Output.TheVariants.{Holds};

use crate::checking::{checked, tell_forced};
use crate::reports::Failure;
use crate::taking::{Taken, refused};
use dt_blob::{BlobError, blob_holds};
use dtman_blobs::{RoomError, with_room};
use dtman_engine::{Fault, sort_bytes};
use dtman_host::{Board, Host, Surroundings};
use dtman_layout::{Compiled, Texts, layout_bytes, source_text, untrue_text};
use dtman_words::dtc_options::{Format, Options, Order, Output};

/// What was taken, once it is checked, in the order and the form that are asked for.
pub(crate) fn judged_output<'a, S: Surroundings, E: Eprint, T>(
    host: &mut Host<'_, S, E, T>,
    options: &Options<'a>,
    taken: &Taken,
    to: Output,
) -> Result<Option<Vec<u8>>, Failure<'a>>
    ensures { to ≡ Holds Dtb → (tree : TreeData) → IsBlobFor tree (board_blob taken.now.board)
        → IfOk result (λ output. IsSomeAnd output (λ blob. IsOutput options.now tree blob.items)) }
{
    checked(host, options, &taken.board)?;
    let blob = taken.board.blob();
    match options.order {
        Order::AsRead => formed(host, options, taken, blob.as_slice(), to),
        Order::ByName => {
            let sorted = sorted(host, options, blob.as_slice())?;
            formed(host, options, taken, sorted.as_slice(), to)
        }
    }
}

/// The blob in order of its names.
fn sorted<S: Surroundings, E: Eprint, T>(
    host: &mut Host<'_, S, E, T>,
    options: &Options<'_>,
    blob: &[u8],
) -> Result<Vec<u8>, Failure<'static>>
    ensures { (tree : TreeData) → IsBlobFor tree blob.now → IfOk result (λ sorted. IsSortedBlob tree sorted.items) }
{
    let Ok(hasher) = host.seed() else {
        return Err(Failure::NoSeed);
    };
    blob_holds();
    match sort_bytes(host.alloc, hasher, blob) {
        Ok(sorted) => Ok(sorted),
        Err(fault) => Err(refused(host, options, blob, &fault)),
    }
}

fn formed<S: Surroundings, E: Eprint, T>(
    host: &mut Host<'_, S, E, T>,
    options: &Options<'_>,
    taken: &Taken,
    blob: &[u8],
    to: Output,
) -> Result<Option<Vec<u8>>, Failure<'static>>
    ensures { to ≡ Holds Dtb → IfOk result (λ output. IsSomeAnd output
        (λ wide. HasRoom options.now.room blob.now wide.items)) }
{
    match to {
        Output::Holds(Format::Dts) => Ok(Some(printed(host, options, taken, blob)?)),
        Output::Holds(_) => Ok(Some(widened(host, options, blob)?)),
        Output::Nothing => Ok(None),
    }
}

/// What was given, as a source in dtc's layout.
fn printed<S: Surroundings, E: Eprint, T>(
    host: &mut Host<'_, S, E, T>,
    options: &Options<'_>,
    taken: &Taken,
    blob: &[u8],
) -> Result<Vec<u8>, Failure<'static>> {
    let Board::Source(made) = &taken.board else {
        return dumped(host, options, Texts::Joined, blob);
    };
    let source = Compiled {
        text: made.text.as_slice(),
        tree: &made.compiled.tree,
        places: &made.compiled.places,
    };
    match source_text(host.alloc, blob, source, taken.labelled.as_slice()) {
        Ok(text) => Ok(text),
        Err(BlobError::NoMemory) => Err(Failure::NoMemory),
        Err(_) => dumped(host, options, Texts::Apart, blob),
    }
}

/// The source of a blob in dtc's layout, by `-f` also where its nodes make no tree.
fn dumped<S: Surroundings, E: Eprint, T>(
    host: &mut Host<'_, S, E, T>,
    options: &Options<'_>,
    texts: Texts,
    blob: &[u8],
) -> Result<Vec<u8>, Failure<'static>> {
    let error = match layout_bytes(host.alloc, blob, texts) {
        Ok(text) => return Ok(text),
        Err(error) => error,
    };
    let failure = refused(host, options, blob, &Fault::from(error));
    if !options.force || !matches!(error, BlobError::BadTree | BlobError::PropertyAfterNode) {
        return Err(failure);
    }
    match untrue_text(host.alloc, blob, texts)? {
        Some(text) => {
            tell_forced(host, options);
            Ok(text)
        }
        None => Err(failure),
    }
}

/// The blob with the room that is asked for. A least size that it has already is told.
fn widened<S: Surroundings, E: Eprint, T>(
    host: &mut Host<'_, S, E, T>,
    options: &Options<'_>,
    blob: &[u8],
) -> Result<Vec<u8>, Failure<'static>>
    ensures { IfOk result (λ wide. HasRoom options.now.room blob.now wide.items) }
{
    let wide = match with_room(host.alloc, blob, &options.room) {
        Ok(wide) => wide,
        Err(RoomError::NoMemory) => return Err(Failure::NoMemory),
        Err(RoomError::TooLong) => return Err(Failure::TooLong),
        Err(RoomError::NoBlob) => return Err(Failure::NoBlob),
    };
    let (space, size) = (options.room.space, wide.len());
    if 0 < space && (space as usize) < size && options.quiet == 0 {
        let warning = format!(in host.alloc;
            "Warning: blob size {size} >= minimum size {space}\n"
        )?;
        host.tell(warning.as_bytes());
    }
    Ok(wide)
}
