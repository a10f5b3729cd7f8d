//! Parts of files in values: `/incbin/("NAME")` and `/incbin/("NAME", OFFSET, LENGTH)`.
ghost use Rattle.std.specs.Prelude.{◌≡◌, ◌<◌, length, IfOk, OnOk};
ghost use Rattle.dt_text.specs.Expression.Reading.{Gives};
ghost use Rattle.dt_source.specs.Pieces.{portion_pieces};
ghost use Rattle.dt_source.specs.Reading.Several.{Reads};
ghost use Rattle.dt_source.specs.Reading.Files.{paren_at, end_paren_at, separator_at, file_name_at};
ghost use Rattle.dt_source.specs.Reading.Files.{both_at, portion_at, portion_fault, included_at};
ghost use Rattle.dt_source.specs.Reading.Returned.{Pushes};
ghost use Rattle.dt_source.specs.Reading.Values.{built, put_all};

use crate::cells::fault_in;
use crate::parts::Parts;
use crate::reading::Pushed;
use crate::string::{earlier, string_of};
use crate::tree::{FilePart, Part};
use dt_text::expression::{primary, syntax_at};
use dt_text::lexeme::{Fault, Kind, Language, Lexeme, ReadError, Refusal};
use std::alloc::{AllocError, Global};

/// An offset and a length, where they are given.
type Portion = Option<(Result<u64, Fault>, Result<u64, Fault>)>;

// What follows an opening parenthesis.
fn paren(ts: &[Lexeme]) -> Result<&[Lexeme], Refusal>
    ensures gives { Gives (λ x. x.now) result (paren_at ts.now) }
    ensures shorter { IfOk result (λ x. length x.now < length ts.now) }
{
    match ts {
        [] => Err(syntax_at(ts)),
        [t, rest @ ..] => match t.kind {
            Kind::Paren => Ok(rest),
            _ => Err(syntax_at(ts)),
        },
    }
}

// What follows a closing parenthesis.
fn end_paren(ts: &[Lexeme]) -> Result<&[Lexeme], Refusal>
    ensures gives { Gives (λ x. x.now) result (end_paren_at ts.now) }
    ensures shorter { IfOk result (λ x. length x.now < length ts.now) }
{
    match ts {
        [] => Err(syntax_at(ts)),
        [t, rest @ ..] => match t.kind {
            Kind::EndParen => Ok(rest),
            _ => Err(syntax_at(ts)),
        },
    }
}

// What follows the comma between offset and length.
fn separator(ts: &[Lexeme]) -> Result<&[Lexeme], Refusal>
    ensures gives { Gives (λ x. x.now) result (separator_at ts.now) }
    ensures shorter { IfOk result (λ x. length x.now < length ts.now) }
{
    match ts {
        [] => Err(syntax_at(ts)),
        [t, rest @ ..] => match t.kind {
            Kind::Comma => Ok(rest),
            _ => Err(syntax_at(ts)),
        },
    }
}

// The fault of a file's name, and what follows it. Who finds the file reads the name.
fn file_name<'a>(
    alloc: Global,
    language: Language,
    text: &[u8],
    ts: &'a [Lexeme],
) -> Result<(Option<Fault>, &'a [Lexeme]), ReadError>
    ensures gives { Reads (λ x. (x.0, x.1.now)) result (file_name_at language text.now ts.now) }
    ensures shorter { IfOk result (λ x. length x.1.now < length ts.now) }
{
    match ts {
        [] => Err(ReadError::Refused(syntax_at(ts))),
        [t, rest @ ..] => match t.kind {
            Kind::Text => {
                let (_, fault) = string_of(alloc, language, text, *t)?;
                Ok((fault, rest))
            }
            _ => Err(ReadError::Refused(syntax_at(ts))),
        },
    }
}

// Offset and length behind a comma.
#[tactic(auto, unfolding(crate::specs::Reading::Files::both_at))]
fn both<'a>(text: &[u8], ts: &'a [Lexeme]) -> Result<(Portion, &'a [Lexeme]), Refusal>
    ensures gives { Gives (λ x. (x.0, x.1.now)) result (both_at text.now ts.now) }
    ensures shorter { IfOk result (λ x. length x.1.now < length ts.now) }
{
    let (offset, rest) = primary(text, ts)?;
    let rest = separator(rest)?;
    let (size, rest) = primary(text, rest)?;
    let rest = end_paren(rest)?;
    Ok((Some((offset, size)), rest))
}

// What stands behind a file's name.
fn portion<'a>(text: &[u8], ts: &'a [Lexeme]) -> Result<(Portion, &'a [Lexeme]), Refusal>
    ensures gives { Gives (λ x. (x.0, x.1.now)) result (portion_at text.now ts.now) }
    ensures shorter { IfOk result (λ x. length x.1.now < length ts.now) }
{
    match ts {
        [] => Err(syntax_at(ts)),
        [t, rest @ ..] => match t.kind {
            Kind::EndParen => Ok((None, rest)),
            Kind::Comma => both(text, rest),
            _ => Err(syntax_at(ts)),
        },
    }
}

fn portion_fault(portion: Portion) -> Option<Fault>
    ensures { result ≡ portion_fault portion }
{
    match portion {
        None => None,
        Some((offset, size)) => earlier(fault_in(offset), fault_in(size)),
    }
}

// Puts the part of the file behind the others, where offset and length are numbers.
fn push_portion(
    alloc: Global,
    parts: &mut Parts<'_>,
    at: u32,
    portion: Portion,
) -> Result<(), AllocError>
    ensures { OnOk result (built parts.new ≡ put_all (built parts.old) (portion_pieces at portion)) }
{
    match portion {
        None => parts.push_part(
            alloc,
            Part::File(FilePart {
                at,
                offset: 0,
                length: None,
            }),
        ),
        Some((Ok(offset), Ok(size))) => parts.push_part(
            alloc,
            Part::File(FilePart {
                at,
                offset,
                length: Some(size),
            }),
        ),
        Some(_) => Ok(()),
    }
}

/// Reads what stands behind an `/incbin/` at this place of the text.
#[tactic(auto, unfolding(crate::specs::Reading::Files::included_at))]
pub(crate) fn included<'a, 'text>(
    alloc: Global,
    parts: &mut Parts<'text>,
    language: Language,
    text: &'text [u8],
    at: u32,
    ts: &'a [Lexeme],
) -> Pushed<'a>
    ensures gives { Pushes parts.old parts.new result (included_at language text.now at ts.now) }
    ensures shorter { IfOk result (λ x. length x.1.now < length ts.now) }
{
    let rest = paren(ts)?;
    let (fault, rest) = file_name(alloc, language, text, rest)?;
    let (portion, rest) = portion(text, rest)?;
    push_portion(alloc, parts, at, portion)?;
    Ok((earlier(fault, portion_fault(portion)), rest))
}
