//! Cells and byte strings.
ghost use Rattle.std.specs.Prelude.{◌≡◌, ◌<◌, ◌++◌, length, None, IfOk, OnOk, option_map};
ghost use Rattle.dt_text.specs.Expression.Reading.{Gives};
ghost use Rattle.dt_source.specs.Reading.Several.{Reads};
ghost use Rattle.dt_source.specs.Reading.Returned.{Pushes};
ghost use Rattle.dt_source.specs.Pieces.{fault_in, cell_fault, cell_pieces, element_pieces};
ghost use Rattle.dt_source.specs.Reading.Values.{built, put_all};
ghost use Rattle.dt_source.specs.Reading.Bodies.{element_at, cell_at, cells_at, pair_at, pairs_at};
ghost use Rattle.dt_source.specs.Reading.Loops.{byte_list};

use crate::cell::Cell;
use crate::parts::Parts;
use crate::reading::Pushed;
use crate::references::{reference_fault, target};
use crate::string::{earlier, pair};
use crate::tree::Part;
use dt_text::expression::{Width, element as within, primary, push_low_bytes, syntax_at};
use dt_text::lexeme::{Fault, Kind, Lexeme, ReadError, Refusal};
use std::alloc::{AllocError, Global};

fn element<'a>(
    place: u32,
    text: &[u8],
    ts: &'a [Lexeme],
) -> Result<(Option<Cell>, &'a [Lexeme]), Refusal>
    ensures gives { Gives (λ x. (x.0, x.1.now)) result (element_at place text.now ts.now) }
    ensures shorter { IfOk result (λ x. length x.1.now < length ts.now) }
{
    let (value, rest) = primary(text, ts)?;
    Ok((Some(Cell::Element { place, value }), rest))
}

// An element, a reference, a label, or the end of the cells.
#[tactic(auto, unfolding(crate::specs::Reading::Bodies::cell_at))]
fn cell<'a>(text: &[u8], ts: &'a [Lexeme]) -> Result<(Option<Cell>, &'a [Lexeme]), Refusal>
    ensures gives { Gives (λ x. (x.0, x.1.now)) result (cell_at text.now ts.now) }
    ensures shorter { IfOk result (λ x. length x.1.now < length ts.now) }
{
    match ts {
        [] => Err(syntax_at(ts)),
        [t, rest @ ..] => match t.kind {
            Kind::Greater => Ok((None, rest)),
            Kind::Literal | Kind::Character | Kind::Paren => element(t.start, text, ts),
            Kind::Reference | Kind::PathReference => Ok((Some(Cell::Reference(*t)), rest)),
            Kind::Label => Ok((Some(Cell::Label), rest)),
            _ => Err(syntax_at(ts)),
        },
    }
}

/// The fault of a value, where it has one.
pub(crate) fn fault_in(value: Result<u64, Fault>) -> Option<Fault>
    ensures { result ≡ fault_in value }
{
    match value {
        Ok(_) => None,
        Err(fault) => Some(fault),
    }
}

fn cell_fault(width: Option<Width>, cell: Cell) -> Option<Fault>
    ensures { result ≡ cell_fault width cell }
{
    match cell {
        Cell::Label => None,
        Cell::Element { place, value } => match width {
            Some(width) => fault_in(within(width, place, value)),
            None => fault_in(value),
        },
        Cell::Reference(l) => match width {
            Some(width) => reference_fault(width, l),
            None => None,
        },
    }
}

fn push_number(
    parts: &mut Parts<'_>,
    width: Width,
    value: Result<u64, Fault>,
) -> Result<(), AllocError>
    ensures { OnOk result (built parts.new ≡ put_all (built parts.old) (element_pieces width value)) }
{
    match value {
        Err(_) => Ok(()),
        Ok(number) => parts.push_number(width, number),
    }
}

// Puts what a cell says behind the parts.
fn push_cell<'text>(
    alloc: Global,
    parts: &mut Parts<'text>,
    text: &'text [u8],
    width: Option<Width>,
    cell: Cell,
) -> Result<(), AllocError>
    ensures { OnOk result (built parts.new ≡ put_all (built parts.old) (cell_pieces text.now width cell)) }
{
    match width {
        None => Ok(()),
        Some(width) => match cell {
            Cell::Label => Ok(()),
            Cell::Element { place, value } => push_number(
                parts,
                width,
                within(width, place, value),
            ),
            Cell::Reference(l) => parts.push_part(alloc, Part::Phandle(target(text, l))),
        },
    }
}

/// Reads cells of this width up to their end, behind their `<`.
pub(crate) fn cells<'a, 'text>(
    alloc: Global,
    parts: &mut Parts<'text>,
    text: &'text [u8],
    width: Option<Width>,
    ts: &'a [Lexeme],
) -> Pushed<'a>
    ensures gives { Pushes parts.old parts.new result (cells_at text.now width ts.now) }
    ensures shorter { IfOk result (λ x. length x.1.now < length ts.now) }
{
    let mut first = None;
    let mut left = ts;
    'cells: loop {
        let (found, rest) = cell(text, left)?;
        left = rest;
        match found {
            None => return Ok((first, left)),
            Some(found) => {
                first = earlier(first, cell_fault(width, found));
                push_cell(alloc, parts, text, width, found)?;
            }
        }
    }
}

// A byte, a label, or the end of the byte string: whether it goes on, and the byte.
#[tactic(auto, unfolding(crate::specs::Reading::Bodies::pair_at))]
fn pair_in<'a>(text: &[u8], ts: &'a [Lexeme]) -> Result<(Option<Option<u8>>, &'a [Lexeme]), Refusal>
    ensures gives { Gives (λ x. (option_map byte_list x.0, None, x.1.now)) result (pair_at text.now ts.now) }
    ensures shorter { IfOk result (λ x. length x.1.now < length ts.now) }
{
    match ts {
        [] => Err(syntax_at(ts)),
        [t, rest @ ..] => match t.kind {
            Kind::EndSquare => Ok((None, rest)),
            Kind::Pair => Ok((Some(Some(pair(text, *t))), rest)),
            Kind::Label => Ok((Some(None), rest)),
            _ => Err(syntax_at(ts)),
        },
    }
}

fn push_byte(bytes: &mut Vec<u8>, byte: Option<u8>) -> Result<(), AllocError>
    ensures { OnOk result (bytes.new.items ≡ bytes.old.items ++ byte_list byte) }
{
    match byte {
        None => Ok(()),
        Some(byte) => {
            bytes.push(byte)?;
            Ok(())
        }
    }
}

/// Reads a byte string up to its end, behind its `[`.
pub(crate) fn pairs<'a>(
    alloc: Global,
    text: &[u8],
    ts: &'a [Lexeme],
) -> Result<(Vec<u8>, &'a [Lexeme]), ReadError>
    ensures gives { Reads (λ x. (x.0.items, None, x.1.now)) result (pairs_at text.now ts.now) }
    ensures shorter { IfOk result (λ x. length x.1.now < length ts.now) }
{
    let mut bytes = Vec::new(alloc);
    let mut left = ts;
    'pairs: loop {
        let (found, rest) = pair_in(text, left)?;
        left = rest;
        match found {
            None => return Ok((bytes, left)),
            Some(byte) => push_byte(&mut bytes, byte)?,
        }
    }
}
