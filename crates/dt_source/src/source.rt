//! Sources as they are read: headers, reservations and items.
ghost use Rattle.std.specs.Prelude.{◌≡◌, ◌≤◌, ◌<◌, ◌++◌, ◌∷◌, None, Some, map, length};
ghost use Rattle.std.specs.Prelude.{IfOk, OnOk, IfSome};
ghost use Rattle.dt_text.specs.Expression.Reading.{Gives};
ghost use Rattle.dt_source.specs.Reading.Several.{Reads};
ghost use Rattle.dt_source.specs.Reading.Answers.{ReadsItems};
ghost use Rattle.dt_source.specs.Reading.Returned.{ReadsItem, ReadsItemBody, ReadsTarget};
ghost use Rattle.dt_source.specs.Tree.{views, item_view};
ghost use Rattle.dt_source.specs.Meaning.{outlined};
ghost use Rattle.dt_source.specs.Pieces.{target_of};
ghost use Rattle.dt_source.specs.Reading.Bodies.{ended_by};
ghost use Rattle.dt_source.specs.Source.{both_numbers};
ghost use Rattle.dt_source.specs.Reading.Whole.{plugin_at, header_at, more_headers, headers_at, some_header};
ghost use Rattle.dt_source.specs.Reading.Whole.{reserve_with, reserve_at, reserves_at, brace_at, extend_at};
ghost use Rattle.dt_source.specs.Reading.Whole.{first_label_at, labels_before};
ghost use Rattle.dt_source.specs.Reading.Whole.{referred_at, bare_item, unlabelled_item, item_with, item_at};
ghost use Rattle.dt_source.specs.Reading.Whole.{all_items_at, items_at, source_at};

use crate::body::{MAX_BODY_DEPTH, body};
use crate::cells::fault_in;
use crate::labels::labels_of;
use crate::pieces::{is_label, labels};
use crate::reading::{Read, ReadBody, ReadItem, ReadReserve, ReadTarget, semicolon};
use crate::references::target;
use crate::string::earlier;
use crate::tree::{Item, Outline, Statement};
use dt_text::expression::{primary, syntax_at};
use dt_text::lexeme::{Fault, Kind, Language, Lexeme, ReadError, Refusal};
use std::alloc::{AllocError, Global};

fn plugin(ts: &[Lexeme]) -> Result<(bool, &[Lexeme]), Refusal>
    ensures gives { Gives (λ x. (x.0, x.1.now)) result (plugin_at ts.now) }
    ensures shorter { IfOk result (λ x. length x.1.now ≤ length ts.now) }
{
    match ts {
        [] => Ok((false, ts)),
        [t, rest @ ..] => match t.kind {
            Kind::Plugin => {
                let rest = semicolon(rest)?;
                Ok((true, rest))
            }
            _ => Ok((false, ts)),
        },
    }
}

// A header, where one begins: whether it says that the source is a plugin.
#[tactic(auto, unfolding(crate::specs::Reading::Whole::header_at))]
fn header(ts: &[Lexeme]) -> Result<(Option<bool>, &[Lexeme]), Refusal>
    ensures gives { Gives (λ x. (x.0, None, x.1.now)) result (header_at ts.now) }
    ensures shorter { IfOk result (λ x. IfSome x.0 (λ _. length x.1.now < length ts.now)) }
{
    match ts {
        [] => Ok((None, ts)),
        [t, rest @ ..] => match t.kind {
            Kind::Version => {
                let rest = semicolon(rest)?;
                let (said, rest) = plugin(rest)?;
                Ok((Some(said), rest))
            }
            _ => Ok((None, ts)),
        },
    }
}

fn more_headers(plugin: Option<bool>, said: bool) -> Option<bool>
    ensures { result ≡ more_headers plugin said }
{
    match plugin {
        None => Some(said),
        Some(before) => Some(before || said),
    }
}

fn headers(ts: &[Lexeme]) -> Result<(Option<bool>, &[Lexeme]), Refusal>
    ensures gives { Gives (λ x. (x.0, None, x.1.now)) result (headers_at ts.now) }
{
    let mut plugin = None;
    let mut left = ts;
    'headers: loop {
        let (found, rest) = header(left)?;
        match found {
            None => return Ok((plugin, rest)),
            Some(said) => plugin = more_headers(plugin, said),
        }
        left = rest;
    }
}

fn some_header(plugin: Option<bool>, ts: &[Lexeme]) -> Result<bool, Refusal>
    ensures { Gives (λ x. x) result (some_header ts.now plugin) }
{
    match plugin {
        None => Err(syntax_at(ts)),
        Some(plugin) => Ok(plugin),
    }
}

fn reserve_with<'a>(text: &[u8], whole: &'a [Lexeme], ts: &'a [Lexeme]) -> ReadReserve<'a>
    ensures gives { Gives (λ x. (x.found, x.fault, x.rest.now)) result (reserve_with text.now whole.now ts.now) }
    ensures shorter { IfOk result (λ x. IfSome x.found (λ _. length x.rest.now < length ts.now)) }
{
    let none = Read {
        found: None,
        fault: None,
        rest: whole,
    };
    match ts {
        [] => Ok(none),
        [t, rest @ ..] => match t.kind {
            Kind::MemReserve => {
                let (address, rest) = primary(text, rest)?;
                let (size, rest) = primary(text, rest)?;
                let rest = semicolon(rest)?;
                let found = Some((address, size));
                let fault = earlier(fault_in(address), fault_in(size));
                Ok(Read { found, fault, rest })
            }
            _ => Ok(none),
        },
    }
}

// A reservation, where one begins.
#[tactic(auto, unfolding(crate::specs::Reading::Whole::reserve_at))]
fn reserve<'a>(text: &[u8], ts: &'a [Lexeme]) -> ReadReserve<'a>
    ensures gives { Gives (λ x. (x.found, x.fault, x.rest.now)) result (reserve_at text.now ts.now) }
    ensures shorter { IfOk result (λ x. IfSome x.found (λ _. length x.rest.now < length ts.now)) }
{
    let (_, rest) = labels(ts);
    reserve_with(text, ts, rest)
}

fn push_reserve(
    list: &mut Vec<(u64, u64)>,
    values: (Result<u64, Fault>, Result<u64, Fault>),
) -> Result<(), AllocError>
    ensures { OnOk result (list.new.items ≡ list.old.items ++ both_numbers values) }
{
    match values {
        (Ok(address), Ok(size)) => {
            list.push((address, size))?;
            Ok(())
        }
        _ => Ok(()),
    }
}

fn reserves<'a>(
    alloc: Global,
    text: &[u8],
    ts: &'a [Lexeme],
) -> Result<Read<'a, Vec<(u64, u64)>>, ReadError>
    ensures gives { Reads (λ x. (x.found.items, x.fault, x.rest.now)) result (reserves_at text.now ts.now) }
{
    let mut list = Vec::new(alloc);
    let mut first = None;
    let mut left = ts;
    'reserves: loop {
        let Read { found, fault, rest } = reserve(text, left)?;
        first = earlier(first, fault);
        left = rest;
        match found {
            None => return Ok(Read {
                found: list,
                fault: first,
                rest: left,
            }),
            Some(values) => push_reserve(&mut list, values)?,
        }
    }
}

fn end_body<'a, 'text>(
    found: Vec<Statement<'text>>,
    fault: Option<Fault>,
    ts: &'a [Lexeme],
) -> ReadBody<'a, 'text>
    ensures gives { ReadsItemBody result (ended_by (views found.entry.items) fault ts.now) }
    ensures shorter { IfOk result (λ x. length x.rest.now < length ts.now) }
{
    let rest = semicolon(ts)?;
    Ok(Read { found, fault, rest })
}

// The body of an item, and a semicolon.
#[tactic(auto, unfolding(crate::specs::Reading::Whole::brace_at))]
fn brace<'a, 'text>(
    alloc: Global,
    language: Language,
    text: &'text [u8],
    ts: &'a [Lexeme],
) -> ReadBody<'a, 'text>
    ensures gives { ReadsItemBody result (brace_at language text.now ts.now) }
    ensures shorter { IfOk result (λ x. length x.rest.now < length ts.now) }
{
    match ts {
        [] => Err(ReadError::Refused(syntax_at(ts))),
        [t, rest @ ..] => match t.kind {
            Kind::Brace => {
                let Read { found, fault, rest } = body(
                    alloc,
                    language,
                    text,
                    MAX_BODY_DEPTH,
                    rest,
                )?;
                end_body(found, fault, rest)
            }
            _ => Err(ReadError::Refused(syntax_at(ts))),
        },
    }
}

fn extend<'a, 'text>(
    alloc: Global,
    language: Language,
    text: &'text [u8],
    labels: &[Lexeme],
    t: Lexeme,
    ts: &'a [Lexeme],
) -> ReadItem<'a, 'text>
    ensures gives { ReadsItem result (extend_at language text.now labels.now t ts.now) }
    ensures shorter { IfOk result (λ x. length x.rest.now < length ts.now) }
{
    let Read { found, fault, rest } = brace(alloc, language, text, ts)?;
    let labels = labels_of(alloc, text, labels)?;
    let found = Some(Item::Extend {
        labels,
        target: target(text, t),
        body: found,
    });
    Ok(Read { found, fault, rest })
}

fn end_reference<'a, 'text>(text: &'text [u8], t: Lexeme, ts: &'a [Lexeme]) -> ReadTarget<'a, 'text>
    ensures gives { ReadsTarget result (ended_by (target_of text.now t) None ts.now) }
    ensures shorter { IfOk result (λ x. length x.rest.now < length ts.now) }
{
    let rest = semicolon(ts)?;
    let (found, fault) = (target(text, t), None);
    Ok(Read { found, fault, rest })
}

// What a reference names, and a semicolon.
fn referred<'a, 'text>(text: &'text [u8], ts: &'a [Lexeme]) -> ReadTarget<'a, 'text>
    ensures gives { ReadsTarget result (referred_at text.now ts.now) }
    ensures shorter { IfOk result (λ x. length x.rest.now < length ts.now) }
{
    match ts {
        [] => Err(ReadError::Refused(syntax_at(ts))),
        [t, rest @ ..] => match t.kind {
            Kind::Reference | Kind::PathReference => end_reference(text, *t, rest),
            _ => Err(ReadError::Refused(syntax_at(ts))),
        },
    }
}

// The root again, or the deletion or mark of a node. The lexemes with this one are for the refusal.
fn bare<'a, 'text>(
    alloc: Global,
    language: Language,
    text: &'text [u8],
    t: Lexeme,
    rest: &'a [Lexeme],
    ts: &'a [Lexeme],
) -> ReadItem<'a, 'text>
    requires { ts.now ≡ t ∷ rest.now }
    ensures gives { ReadsItem result (bare_item language text.now t.kind t rest.now) }
    ensures shorter { IfOk result (λ x. length x.rest.now < length ts.now) }
{
    match t.kind {
        Kind::Slash => {
            let Read { found, fault, rest } = brace(alloc, language, text, rest)?;
            let found = Some(Item::Root {
                at: t.start,
                body: found,
            });
            Ok(Read { found, fault, rest })
        }
        Kind::DeleteNode => {
            let Read { found, fault, rest } = referred(text, rest)?;
            let found = Some(Item::Delete(found));
            Ok(Read { found, fault, rest })
        }
        Kind::OmitIfNoRef => {
            let Read { found, fault, rest } = referred(text, rest)?;
            let found = Some(Item::Omit(found));
            Ok(Read { found, fault, rest })
        }
        _ => Err(ReadError::Refused(syntax_at(ts))),
    }
}

// Nothing but a reference follows labels.
fn unlabelled<'a, 'text>(
    alloc: Global,
    language: Language,
    text: &'text [u8],
    labels: &[Lexeme],
    t: Lexeme,
    rest: &'a [Lexeme],
    ts: &'a [Lexeme],
) -> ReadItem<'a, 'text>
    requires { ts.now ≡ t ∷ rest.now }
    ensures gives { ReadsItem result (unlabelled_item language text.now labels.now t.kind t rest.now) }
    ensures shorter { IfOk result (λ x. length x.rest.now < length ts.now) }
{
    match labels {
        [] => bare(alloc, language, text, t, rest, ts),
        [_, ..] => Err(ReadError::Refused(syntax_at(ts))),
    }
}

fn item_with<'a, 'text>(
    alloc: Global,
    language: Language,
    text: &'text [u8],
    labels: &[Lexeme],
    ts: &'a [Lexeme],
) -> ReadItem<'a, 'text>
    ensures gives { ReadsItem result (item_with language text.now labels.now ts.now) }
    ensures shorter { IfOk result (λ x. length x.rest.now < length ts.now) }
{
    match ts {
        [] => Err(ReadError::Refused(syntax_at(ts))),
        [t, rest @ ..] => match t.kind {
            Kind::Reference | Kind::PathReference => extend(
                alloc, language, text, labels, *t, rest,
            ),
            _ => unlabelled(alloc, language, text, labels, *t, rest, ts),
        },
    }
}

// A label at the front, and what follows it.
fn first_label(ts: &[Lexeme]) -> (&[Lexeme], &[Lexeme])
    ensures gives { (result.0.now, result.1.now) ≡ first_label_at ts.now }
    ensures shorter { length result.1.now ≤ length ts.now }
{
    match ts {
        [t, ..] => ts.split_at(if is_label(t.kind) { 1 } else { 0 }),
        [] => (ts, ts),
    }
}

// The labels at the front that may stand before a reference, and what follows them: one at most in dtc's language.
fn labels_before(language: Language, ts: &[Lexeme]) -> (&[Lexeme], &[Lexeme])
    ensures gives { (result.0.now, result.1.now) ≡ labels_before language ts.now }
    ensures shorter { length result.1.now ≤ length ts.now }
{
    match language {
        Language::Profile => labels(ts),
        Language::Dtc => first_label(ts),
    }
}

// An item, or the end.
#[tactic(auto, unfolding(crate::specs::Reading::Whole::item_at))]
fn item<'a, 'text>(
    alloc: Global,
    language: Language,
    text: &'text [u8],
    ts: &'a [Lexeme],
) -> ReadItem<'a, 'text>
    ensures gives { ReadsItem result (item_at language text.now ts.now) }
    ensures shorter { IfOk result (λ x. IfSome x.found (λ _. length x.rest.now < length ts.now)) }
{
    if ts.is_empty() {
        return Ok(Read {
            found: None,
            fault: None,
            rest: ts,
        });
    }
    let (labels, rest) = labels_before(language, ts);
    item_with(alloc, language, text, labels, rest)
}

fn all_items<'a, 'text>(
    alloc: Global,
    language: Language,
    text: &'text [u8],
    ts: &'a [Lexeme],
) -> Result<Read<'a, Vec<Item<'text>>>, ReadError>
    ensures { ReadsItems result (all_items_at language text.now ts.now) }
{
    let mut items = Vec::new(alloc);
    let mut first = None;
    let mut left = ts;
    'items: loop {
        let Read { found, fault, rest } = item(alloc, language, text, left)?;
        first = earlier(first, fault);
        match found {
            None => return Ok(Read {
                found: items,
                fault: first,
                rest,
            }),
            Some(found) => items.push(found)?,
        }
        left = rest;
    }
}

#[tactic(auto, unfolding(crate::specs::Reading::Whole::items_at))]
fn items<'text>(
    alloc: Global,
    language: Language,
    text: &'text [u8],
    ts: &[Lexeme],
) -> Result<(Vec<Item<'text>>, Option<Fault>), ReadError>
    ensures { Reads (λ x. (map item_view x.0.items, x.1)) result (items_at language text.now ts.now) }
{
    let Read { found, fault, .. } = all_items(alloc, language, text, ts)?;
    let mut items = found;
    if items.is_empty() {
        return Err(ReadError::Refused(syntax_at(ts)));
    }
    items.shrink_to_fit();
    Ok((items, fault))
}

/// Reads the source that all the lexemes spell in this language, and its first fault.
#[tactic(auto, unfolding(crate::specs::Reading::Whole::source_at))]
pub(crate) fn source<'text>(
    alloc: Global,
    language: Language,
    text: &'text [u8],
    ts: &[Lexeme],
) -> Result<(Outline<'text>, Option<Fault>), ReadError>
    ensures { Reads (λ x. (outlined x.0, x.1)) result (source_at language text.now ts.now) }
{
    let (plugin, rest) = headers(ts)?;
    let plugin = some_header(plugin, ts)?;
    let Read { found, fault, rest } = reserves(alloc, text, rest)?;
    let mut reserves = found;
    reserves.shrink_to_fit();
    let (items, later) = items(alloc, language, text, rest)?;
    Ok((
        Outline {
            plugin,
            reserves,
            items,
        },
        earlier(fault, later),
    ))
}
