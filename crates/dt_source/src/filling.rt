//! Parts of files, filled in.
ghost use Rattle.std.specs.Prelude.{◌≡◌, map, IfOk};
ghost use Rattle.dt_source.specs.Filled.{part_of, file_at, is_stored, holds_file, filled_value};
ghost use Rattle.dt_source.specs.Filled.{filled_each, filled_entry, filled_body, filled_edit};
ghost use Rattle.dt_source.specs.Reading.Answers.{Fills, TakesFile, body_in, edits_in, entries_in, filled_behind, pieces_in};
ghost use Rattle.dt_source.specs.Reading.Values.{built};
ghost use Rattle.dt_source.specs.Tree.{part_view, view, item_view};

use crate::parts::Parts;
use crate::tree::{FilePart, Item, Part, Statement};
use dt_text::lexeme::{Binary, ReadError, Refusal, RefusalKind};
use std::alloc::{AllocError, Global};
use std::mem;
use std::vec::IntoIter;

// The next file, where it is that of the `/incbin/` at this place.
fn file_at(binaries: &mut IntoIter<Binary>, at: u32) -> Result<Vec<u8>, Refusal>
    ensures { TakesFile at binaries.old binaries.new result }
{
    let none = Refusal {
        kind: RefusalKind::Syntax,
        place: at,
    };
    match binaries.next() {
        None => Err(none),
        Some(Binary { at: place, bytes }) => { if place == at { Ok(bytes) } else { Err(none) } }
    }
}

// The part of a file. Of a whole file nothing is copied.
fn part_of(alloc: Global, mut bytes: Vec<u8>, file: FilePart) -> Result<Vec<u8>, AllocError>
    ensures { IfOk result (λ v. v.items ≡ part_of file.offset file.length bytes.items) }
{
    let start = (file.offset as usize).min(bytes.len());
    let end = match file.length {
        None => bytes.len(),
        Some(length) => start.saturating_add(length as usize).min(bytes.len()),
    };
    if start == 0 {
        bytes.truncate(end);
        return Ok(bytes);
    }
    Vec::from_slice(alloc, &bytes[start..end])
}

// Puts a part behind the others, of a file its bytes.
fn fill_part<'a>(
    alloc: Global,
    binaries: &mut IntoIter<Binary>,
    parts: &mut Parts<'a>,
    part: Part<'a>,
) -> Result<(), ReadError>
    ensures { Fills built (filled_behind (part_view part.entry)) parts.old parts.new binaries.old binaries.new result }
{
    match part {
        Part::Bytes(bytes) => parts.push_whole(bytes)?,
        Part::Phandle(target) => parts.push_part(alloc, Part::Phandle(target))?,
        Part::Path(target) => parts.push_part(alloc, Part::Path(target))?,
        Part::File(file) => {
            let bytes = file_at(binaries, file.at)?;
            parts.push_whole(part_of(alloc, bytes, file)?)?
        }
    }
    Ok(())
}

fn is_stored(part: &Part<'_>) -> bool
    ensures { result ≡ is_stored (part_view part.now) }
{
    match part {
        Part::File(_) => true,
        _ => false,
    }
}

fn holds_file(value: &[Part<'_>]) -> bool
    ensures { result ≡ holds_file (map part_view value.now) }
{
    for part in value {
        if is_stored(part) {
            return true;
        }
    }
    false
}

fn fill_value(
    alloc: Global,
    binaries: &mut IntoIter<Binary>,
    value: &mut Vec<Part<'_>>,
) -> Result<(), ReadError>
    ensures { Fills pieces_in filled_value value.old value.new binaries.old binaries.new result }
{
    if !holds_file(value.as_slice()) {
        return Ok(());
    }
    let mut left = mem::replace(value, Vec::new(alloc)).into_iter();
    let mut parts = Parts::new(alloc);
    while let Some(part) = left.next() {
        fill_part(alloc, binaries, &mut parts, part)?;
    }
    *value = parts.finish(alloc)?;
    Ok(())
}

#[cycle(filling)]
fn fill_statement(
    alloc: Global,
    binaries: &mut IntoIter<Binary>,
    statement: &mut Statement<'_>,
) -> Result<(), ReadError>
    ensures { Fills view filled_entry statement.old statement.new binaries.old binaries.new result }
{
    match statement {
        Statement::Property { name: _, value } => fill_value(alloc, binaries, &mut value.parts),
        Statement::Node {
            at: _,
            omit_if_no_ref: _,
            labels: _,
            name: _,
            body,
        } => fill_body(alloc, binaries, body),
        Statement::DeleteProperty { at: _, name: _ } => Ok(()),
        Statement::DeleteNode { at: _, name: _ } => Ok(()),
    }
}

#[cycle(filling)]
fn fill_statements(
    alloc: Global,
    binaries: &mut IntoIter<Binary>,
    body: &mut Vec<Statement<'_>>,
) -> Result<(), ReadError>
    ensures { Fills entries_in (filled_each filled_entry) body.old body.new binaries.old binaries.new result }
{
    for i in 0..body.len() {
        fill_statement(alloc, binaries, &mut body[i])?;
    }
    Ok(())
}

// A body is the list of its statements.
#[cycle(filling)]
fn fill_body(
    alloc: Global,
    binaries: &mut IntoIter<Binary>,
    body: &mut Vec<Statement<'_>>,
) -> Result<(), ReadError>
    ensures { Fills body_in filled_body body.old body.new binaries.old binaries.new result }
{
    fill_statements(alloc, binaries, body)
}

fn fill_item(
    alloc: Global,
    binaries: &mut IntoIter<Binary>,
    item: &mut Item<'_>,
) -> Result<(), ReadError>
    ensures { Fills item_view filled_edit item.old item.new binaries.old binaries.new result }
{
    match item {
        Item::Root { at: _, body } => fill_body(alloc, binaries, body),
        Item::Extend {
            labels: _,
            target: _,
            body,
        } => fill_body(alloc, binaries, body),
        Item::Delete(_) => Ok(()),
        Item::Omit(_) => Ok(()),
    }
}

/// Fills in the files of all items.
pub(crate) fn fill_items(
    alloc: Global,
    binaries: &mut IntoIter<Binary>,
    items: &mut Vec<Item<'_>>,
) -> Result<(), ReadError>
    ensures { Fills edits_in (filled_each filled_edit) items.old items.new binaries.old binaries.new result }
{
    for i in 0..items.len() {
        fill_item(alloc, binaries, &mut items[i])?;
    }
    Ok(())
}
