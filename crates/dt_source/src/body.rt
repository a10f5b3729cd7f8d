//! Bodies.
ghost use Rattle.std.specs.Prelude.{◌≡◌, ◌<◌, ◌||◌, ◌∷◌, Some, length, IfOk};
ghost use Rattle.dt_text.specs.Expression.Reading.{Gives};
ghost use Rattle.dt_source.specs.Reading.Answers.{begun_below, statement_below};
ghost use Rattle.dt_source.specs.Reading.Returned.{ReadsStatement, ReadsBody};
ghost use Rattle.dt_source.specs.Tree.{view};
ghost use Rattle.dt_source.specs.Marks.{omits};
ghost use Rattle.dt_source.specs.Words.{name_bytes};
ghost use Rattle.dt_source.specs.Reading.Bodies.{name_at, ended_by, bare_by, marked_by, nameless};
ghost use Rattle.dt_source.specs.Reading.Bodies.{statement_at, named_below, after, body_below, body_at};

use crate::marks::{labels_among, marks, omits};
use crate::pieces::value;
use crate::reading::{Read, ReadBody, ReadStatement, semicolon};
use crate::room::push_sparingly;
use crate::string::earlier;
use crate::tree::{PlacedName, Statement, delete_node, delete_property, node, property};
use dt_text::expression::{bytes_of, syntax_at, too_deep};
use dt_text::lexeme::{Fault, Kind, Language, Lexeme, ReadError, Refusal};
use std::alloc::{AllocError, Global};

/// How many levels of bodies may stand in an item's body: as deep as nodes of a tree.
pub const MAX_BODY_DEPTH: u8 = 64;

// A statement, where a semicolon follows it.
fn end<'a, 'text>(
    s: Statement<'text>,
    fault: Option<Fault>,
    ts: &'a [Lexeme],
) -> ReadStatement<'a, 'text>
    ensures gives { ReadsStatement result (ended_by (Some (view s.entry)) fault ts.now) }
    ensures shorter { IfOk result (λ x. length x.rest.now < length ts.now) }
{
    let rest = semicolon(ts)?;
    let found = Some(s);
    Ok(Read { found, fault, rest })
}

// The name that a lexeme is.
fn name_of(text: &[u8], l: Lexeme) -> PlacedName<'_>
    ensures { result.bytes.now ≡ name_bytes text.now l }
{
    PlacedName {
        at: l.start,
        bytes: bytes_of(text, l),
    }
}

// A name, and what follows it.
fn name<'a, 'text>(
    text: &'text [u8],
    ts: &'a [Lexeme],
) -> Result<(PlacedName<'text>, &'a [Lexeme]), Refusal>
    ensures gives { Gives (λ x. (x.0.bytes.now, x.1.now)) result (name_at text.now ts.now) }
    ensures shorter { IfOk result (λ x. length x.1.now < length ts.now) }
{
    match ts {
        [] => Err(syntax_at(ts)),
        [t, rest @ ..] => match t.kind {
            Kind::Name => Ok((name_of(text, *t), rest)),
            _ => Err(syntax_at(ts)),
        },
    }
}

// The end of a body, or a deletion. The lexemes with this one are for the refusal.
fn bare<'a, 'text>(
    text: &'text [u8],
    nodes: bool,
    t: Lexeme,
    rest: &'a [Lexeme],
    ts: &'a [Lexeme],
) -> ReadStatement<'a, 'text>
    requires { ts.now ≡ t ∷ rest.now }
    ensures gives { ReadsStatement result (bare_by text.now nodes t.kind t rest.now) }
    ensures shorter { IfOk result (λ x. length x.rest.now < length ts.now) }
{
    match t.kind {
        Kind::EndBrace => Ok(Read {
            found: None,
            fault: None,
            rest,
        }),
        Kind::DeleteProperty if !nodes => {
            let (name, rest) = name(text, rest)?;
            end(delete_property(name), None, rest)
        }
        Kind::DeleteNode => {
            let (name, rest) = name(text, rest)?;
            end(delete_node(name), None, rest)
        }
        _ => Err(ReadError::Refused(syntax_at(ts))),
    }
}

// Whether no property may stand behind these marks, where a node stood before or not.
fn closed(nodes: bool, marks: &[Lexeme]) -> bool
    ensures { result ≡ (nodes || omits marks.now) }
{
    nodes || omits(marks)
}

#[cycle(body)]
fn begun<'a, 'text>(
    alloc: Global,
    language: Language,
    text: &'text [u8],
    depth: u8,
    nodes: bool,
    marks: &[Lexeme],
    ts: &'a [Lexeme],
) -> ReadStatement<'a, 'text>
    ensures gives { ReadsStatement result (begun_below language text.now depth nodes marks.now ts.now) }
    ensures shorter { IfOk result (λ x. length x.rest.now < length ts.now) }
{
    match ts {
        [] => Err(ReadError::Refused(syntax_at(ts))),
        [t, rest @ ..] => match t.kind {
            Kind::Name => {
                named(
                    alloc,
                    language,
                    text,
                    depth,
                    closed(nodes, marks),
                    marks,
                    name_of(text, *t),
                    rest,
                )
            }
            _ => nameless(language, text, nodes, marks, *t, rest, ts),
        },
    }
}

// A deletion behind marks.
fn marked<'a, 'text>(
    text: &'text [u8],
    closed: bool,
    t: Lexeme,
    rest: &'a [Lexeme],
    ts: &'a [Lexeme],
) -> ReadStatement<'a, 'text>
    requires { ts.now ≡ t ∷ rest.now }
    ensures gives { ReadsStatement result (marked_by text.now closed t.kind t rest.now) }
    ensures shorter { IfOk result (λ x. length x.rest.now < length ts.now) }
{
    match t.kind {
        Kind::EndBrace => Err(ReadError::Refused(syntax_at(ts))),
        _ => bare(text, closed, t, rest, ts),
    }
}

// What has no name: nothing of it follows marks in the profile, and a deletion alone in dtc's language.
fn nameless<'a, 'text>(
    language: Language,
    text: &'text [u8],
    nodes: bool,
    marks: &[Lexeme],
    t: Lexeme,
    rest: &'a [Lexeme],
    ts: &'a [Lexeme],
) -> ReadStatement<'a, 'text>
    requires { ts.now ≡ t ∷ rest.now }
    ensures gives { ReadsStatement result (nameless language text.now nodes marks.now t.kind t rest.now) }
    ensures shorter { IfOk result (λ x. length x.rest.now < length ts.now) }
{
    match marks {
        [] => bare(text, nodes, t, rest, ts),
        [_, ..] => match language {
            Language::Profile => Err(ReadError::Refused(syntax_at(ts))),
            Language::Dtc => marked(text, closed(nodes, marks), t, rest, ts),
        },
    }
}

#[cycle(body)]
#[tactic(auto, unfolding(crate::specs::Reading::Bodies::statement_at))]
fn statement<'a, 'text>(
    alloc: Global,
    language: Language,
    text: &'text [u8],
    depth: u8,
    nodes: bool,
    ts: &'a [Lexeme],
) -> ReadStatement<'a, 'text>
    ensures gives { ReadsStatement result (statement_below language text.now depth nodes ts.now) }
    ensures shorter { IfOk result (λ x. length x.rest.now < length ts.now) }
{
    let (marks, rest) = marks(ts);
    begun(alloc, language, text, depth, nodes, marks, rest)
}

// What follows a name: the end of a property without value, a value, or a body. Where `nodes` is true no property may stand.
#[cycle(body)]
fn named<'a, 'text>(
    alloc: Global,
    language: Language,
    text: &'text [u8],
    depth: u8,
    nodes: bool,
    marks: &[Lexeme],
    name: PlacedName<'text>,
    ts: &'a [Lexeme],
) -> ReadStatement<'a, 'text>
    ensures gives { ReadsStatement result
        (named_below language text.now depth nodes marks.now name.entry.bytes.now ts.now) }
    ensures shorter { IfOk result (λ x. length x.rest.now < length ts.now) }
{
    match ts {
        [] => Err(ReadError::Refused(syntax_at(ts))),
        [t, rest @ ..] => match t.kind {
            Kind::Semicolon if !nodes => {
                let (found, fault) = (Some(property(name, Vec::new(alloc))), None);
                Ok(Read { found, fault, rest })
            }
            Kind::Equals if !nodes => {
                let Read { found, fault, rest } = value(alloc, language, text, rest)?;
                end(property(name, found), fault, rest)
            }
            Kind::Brace => {
                let Read { found, fault, rest } = body_deeper(
                    alloc, language, text, depth, *t, rest,
                )?;
                let labels = labels_among(alloc, text, marks)?;
                end(node(omits(marks), labels, name, found), fault, rest)
            }
            _ => Err(ReadError::Refused(syntax_at(ts))),
        },
    }
}

#[cycle(body)]
fn body_deeper<'a, 'text>(
    alloc: Global,
    language: Language,
    text: &'text [u8],
    depth: u8,
    brace: Lexeme,
    ts: &'a [Lexeme],
) -> ReadBody<'a, 'text>
    ensures gives { ReadsBody result (body_below language text.now depth brace ts.now) }
    ensures shorter { IfOk result (λ x. length x.rest.now < length ts.now) }
{
    if depth == 0 {
        return Err(ReadError::Refused(too_deep(brace)));
    }
    body(alloc, language, text, depth - 1, ts)
}

/// Reads a body behind its brace: its statements, its first fault, and the lexemes behind it. Bodies in it may be
/// nested so deep.
#[cycle(body)]
pub(crate) fn body<'a, 'text>(
    alloc: Global,
    language: Language,
    text: &'text [u8],
    depth: u8,
    ts: &'a [Lexeme],
) -> ReadBody<'a, 'text>
    ensures gives { ReadsBody result (body_at language text.now depth ts.now) }
    ensures shorter { IfOk result (λ x. length x.rest.now < length ts.now) }
{
    let mut statements = Vec::new(alloc);
    let mut first = None;
    let mut nodes = false;
    let mut left = ts;
    'statements: loop {
        let Read { found, fault, rest } = statement(alloc, language, text, depth, nodes, left)?;
        first = earlier(first, fault);
        left = rest;
        match found {
            None => {
                statements.shrink_to_fit();
                return Ok(Read {
                    found: statements,
                    fault: first,
                    rest: left,
                });
            }
            Some(s) => {
                nodes = nodes_after(nodes, &s);
                push_sparingly(&mut statements, s)?;
            }
        }
    }
}

// No property follows a node or the deletion of one.
fn nodes_after(nodes: bool, s: &Statement) -> bool
    ensures { result ≡ after nodes (view s.now) }
{
    match s {
        Statement::Property { .. } => nodes,
        Statement::DeleteProperty { .. } => nodes,
        Statement::Node { .. } => true,
        Statement::DeleteNode { .. } => true,
    }
}
