//! Values of properties.
ghost use Rattle.std.specs.Prelude.{◌≡◌, ◌≤◌, ◌<◌, length, IfOk, IfSome, option_map};
ghost use Rattle.dt_source.specs.Reading.Several.{Reads};
ghost use Rattle.dt_source.specs.Reading.Answers.{ReadsValue};
ghost use Rattle.dt_source.specs.Reading.Returned.{Pushes};
ghost use Rattle.dt_source.specs.Pieces.{width_at};
ghost use Rattle.dt_source.specs.Reading.Bodies.{labels_at, less_at, bits_at};
ghost use Rattle.dt_source.specs.Marks.{is_label};
ghost use Rattle.dt_source.specs.Reading.Bodies.{piece_at, placed_at, pieces_at, value_at};
ghost use Rattle.dt_source.specs.Reading.Loops.{comma_rest};

use crate::cells::{cells, pairs};
use crate::file_parts::included;
use crate::parts::Parts;
use crate::reading::{Pushed, Read};
use crate::references::target;
use crate::string::{earlier, string_of};
use crate::tree::Part;
use dt_text::expression::{Width, literal, syntax_at, width_of};
use dt_text::lexeme::{Fault, FaultKind, Kind, Language, Lexeme, ReadError};
use std::alloc::Global;

/// Whether it is a label.
pub(crate) fn is_label(kind: Kind) -> bool
    ensures { result ≡ is_label kind }
{
    match kind {
        Kind::Label => true,
        _ => false,
    }
}

/// The labels at the front, and what follows them.
pub(crate) fn labels(ts: &[Lexeme]) -> (&[Lexeme], &[Lexeme])
    ensures gives { (result.0.now, result.1.now) ≡ labels_at ts.now }
    ensures shorter { length result.1.now ≤ length ts.now }
{
    for (i, t) in ts.iter().enumerate() {
        if !is_label(t.kind) {
            return ts.split_at(i);
        }
    }
    ts.split_at(ts.len())
}

// The width that a literal behind /bits/ names, or its fault.
fn width_at(l: Lexeme, value: Result<u64, Fault>) -> Result<Width, Fault>
    ensures { result ≡ width_at l value }
{
    match value {
        Err(fault) => Err(fault),
        Ok(bits) => match width_of(bits) {
            Some(width) => Ok(width),
            None => Err(Fault {
                kind: FaultKind::BadBits,
                place: l.start,
            }),
        },
    }
}

// Cells of a width whose fault is this.
fn less<'a, 'text>(
    alloc: Global,
    parts: &mut Parts<'text>,
    text: &'text [u8],
    width: Option<Width>,
    fault: Option<Fault>,
    ts: &'a [Lexeme],
) -> Pushed<'a>
    ensures gives { Pushes parts.old parts.new result (less_at text.now width fault ts.now) }
    ensures shorter { IfOk result (λ x. length x.1.now < length ts.now) }
{
    match ts {
        [] => Err(ReadError::Refused(syntax_at(ts))),
        [t, rest @ ..] => match t.kind {
            Kind::Less => {
                let (first, rest) = cells(alloc, parts, text, width, rest)?;
                Ok((earlier(fault, first), rest))
            }
            _ => Err(ReadError::Refused(syntax_at(ts))),
        },
    }
}

// The width behind /bits/, and the cells.
fn bits<'a, 'text>(
    alloc: Global,
    parts: &mut Parts<'text>,
    text: &'text [u8],
    ts: &'a [Lexeme],
) -> Pushed<'a>
    ensures gives { Pushes parts.old parts.new result (bits_at text.now ts.now) }
    ensures shorter { IfOk result (λ x. length x.1.now < length ts.now) }
{
    match ts {
        [] => Err(ReadError::Refused(syntax_at(ts))),
        [t, rest @ ..] => match t.kind {
            Kind::Literal => match width_at(*t, literal(text, *t)) {
                Ok(width) => less(alloc, parts, text, Some(width), None, rest),
                Err(fault) => less(alloc, parts, text, None, Some(fault), rest),
            },
            _ => Err(ReadError::Refused(syntax_at(ts))),
        },
    }
}

#[tactic(auto, unfolding(crate::specs::Reading::Bodies::piece_at))]
fn piece<'a, 'text>(
    alloc: Global,
    parts: &mut Parts<'text>,
    language: Language,
    text: &'text [u8],
    ts: &'a [Lexeme],
) -> Pushed<'a>
    ensures gives { Pushes parts.old parts.new result (piece_at language text.now ts.now) }
    ensures shorter { IfOk result (λ x. length x.1.now < length ts.now) }
{
    match ts {
        [] => Err(ReadError::Refused(syntax_at(ts))),
        [t, rest @ ..] => match t.kind {
            Kind::Text => {
                let (bytes, fault) = string_of(alloc, language, text, *t)?;
                parts.push_bytes(bytes.as_slice())?;
                Ok((fault, rest))
            }
            Kind::Reference | Kind::PathReference => {
                parts.push_part(alloc, Part::Path(target(text, *t)))?;
                Ok((None, rest))
            }
            Kind::Square => {
                let (bytes, rest) = pairs(alloc, text, rest)?;
                parts.push_bytes(bytes.as_slice())?;
                Ok((None, rest))
            }
            Kind::Less => cells(alloc, parts, text, Some(Width::ThirtyTwo), rest),
            Kind::Bits => bits(alloc, parts, text, rest),
            Kind::IncludeBinary => included(alloc, parts, language, text, t.start, rest),
            _ => Err(ReadError::Refused(syntax_at(ts))),
        },
    }
}

// A piece, with labels before and after it, which are dropped.
#[tactic(auto, using(crate::proofs::PieceLoops::placed_is), unfolding(crate::specs::Reading::Bodies::placed_at))]
fn placed<'a, 'text>(
    alloc: Global,
    parts: &mut Parts<'text>,
    language: Language,
    text: &'text [u8],
    ts: &'a [Lexeme],
) -> Pushed<'a>
    ensures gives { Pushes parts.old parts.new result (placed_at language text.now ts.now) }
    ensures shorter { IfOk result (λ x. length x.1.now < length ts.now) }
{
    let (_, bare) = labels(ts);
    let (fault, behind) = piece(alloc, parts, language, text, bare)?;
    let (_, rest) = labels(behind);
    Ok((fault, rest))
}

// What follows a comma.
fn comma<'a>(ts: &'a [Lexeme]) -> Option<&'a [Lexeme]>
    ensures gives { option_map (λ x. x.now) result ≡ comma_rest ts.now }
    ensures shorter { IfSome result (λ x. length x.now < length ts.now) }
{
    match ts {
        [t, rest @ ..] => match t.kind {
            Kind::Comma => Some(rest),
            _ => None,
        },
        [] => None,
    }
}

fn pieces<'a, 'text>(
    alloc: Global,
    parts: &mut Parts<'text>,
    language: Language,
    text: &'text [u8],
    ts: &'a [Lexeme],
) -> Pushed<'a>
    ensures gives { Pushes parts.old parts.new result (pieces_at language text.now ts.now) }
    ensures shorter { IfOk result (λ x. length x.1.now < length ts.now) }
{
    let (mut first, mut left) = placed(alloc, parts, language, text, ts)?;
    while let Some(rest) = comma(left) {
        let (fault, after) = placed(alloc, parts, language, text, rest)?;
        first = earlier(first, fault);
        left = after;
    }
    Ok((first, left))
}

/// Reads a value behind its `=`: its parts, its first fault, and the lexemes behind it.
pub(crate) fn value<'a, 'text>(
    alloc: Global,
    language: Language,
    text: &'text [u8],
    ts: &'a [Lexeme],
) -> Result<Read<'a, Vec<Part<'text>>>, ReadError>
    ensures gives { ReadsValue result (value_at language text.now ts.now) }
    ensures shorter { IfOk result (λ x. length x.rest.now < length ts.now) }
{
    let mut parts = Parts::new(alloc);
    let (fault, rest) = pieces(alloc, &mut parts, language, text, ts)?;
    let found = parts.finish(alloc)?;
    Ok(Read { found, fault, rest })
}
