//! The nodes that tokens make.
ghost use Rattle.std.specs.Prelude.{◌≡◌, ◌<◌, length, List, [], ◌∷◌, IfOk, Some, None, if◌then◌else◌};
ghost use Rattle.dt_tree.specs.NodeView.{name_bytes};
ghost use Rattle.dt_tree.specs.Name.{is_name};
ghost use Rattle.dt_blob.specs.Steps.Answered.{in_node};
ghost use Rattle.dt_blob.specs.Steps.NodeBuilders.{NodeSoFar, inside, node_so_far, so_far_of, state_of, begin_in, property_in, node_of, end_in, is_end, advance, begun, root_from};
ghost use Rattle.dt_blob.specs.Steps.Reading.{Gives, token_at, token_of, tokens_at, left};
ghost use Rattle.dt_blob.specs.Steps.TreeFault.{fault_of_tree};
ghost use Rattle.dt_blob.specs.Token.{end};

use crate::error::BlobError;
use crate::read_error::{ReadError, Wanted, refused};
use crate::read_token::{BlobToken, token};
use crate::repeated_name::repeated_name;
use dt_tree::{Bytes, MAX_DEPTH, Name, Node, Property, TreeError};
use std::alloc::{AllocError, Global};
use std::mem;

// Where the name of a BEGIN_NODE stands, and the place of a PROP's: how many bytes behind the token's first.
const NODE_NAME: usize = 4;

const PROPERTY_NAME: usize = 8;

const END_SIZE: usize = 4;

/// A node whose end hasn't come, and where in the structure block it begins.
#[derive(Drop)]
pub(crate) struct NodeBuilder {
    at: usize,
    name: Option<Name>,
    properties: Vec<Property>,
    children: Vec<Node>,
}

/// How far the tokens so far have come: in a node with those round it, the outermost first, or behind the root.
#[derive(Drop)]
pub(crate) enum Progress {
    Nothing,
    Inside(NodeBuilder, Vec<NodeBuilder>),
    Behind(Node),
}

fn open(alloc: Global, at: usize, name: Option<Name>) -> NodeBuilder
    ensures { so_far_of result ≡ node_so_far (name_bytes name) [] [] }
{
    NodeBuilder {
        at,
        name,
        properties: Vec::new(alloc),
        children: Vec::new(alloc),
    }
}

// A tree's refusal, of a word of the structure block.
fn refused_by(error: TreeError, at: usize, wanted: Wanted) -> ReadError
    ensures { result.kind ≡ fault_of_tree error }
{
    refused(BlobError::from(error), at, wanted)
}

// A name, which the word behind so many bytes begins or leads to.
fn lawful(alloc: Global, at: usize, wanted: Wanted, name: &[u8]) -> Result<Name, ReadError>
    ensures { Gives (λ n. n) result (if is_name name.now then Some name.now else None) }
{
    match Name::new(alloc, name) {
        Ok(name) => Ok(name),
        Err(error) => Err(refused_by(error, at, wanted)),
    }
}

// A child's beginning, in the node at hand and those round it.
fn begin_child(
    alloc: Global,
    top: &mut NodeBuilder,
    outer: &mut Vec<NodeBuilder>,
    at: usize,
    name: &[u8],
) -> Result<(), ReadError>
    ensures { Gives (λ _. in_node top.new outer.new.items) result (begin_in (in_node top.old outer.old.items) name.now) }
{
    if outer.len() >= MAX_DEPTH {
        return Err(refused(BlobError::BadTree, at, Wanted::Depth));
    }
    let name = lawful(alloc, at.saturating_add(NODE_NAME), Wanted::NodeName, name)?;
    outer.reserve(1)?;
    outer.push_reserved(mem::replace(top, open(alloc, at, Some(name))));
    Ok(())
}

fn begin(alloc: Global, progress: Progress, at: usize, name: &[u8]) -> Result<Progress, ReadError>
    ensures { Gives state_of result (begin_in (state_of progress) name.now) }
{
    match progress {
        Progress::Nothing => {
            if !name.is_empty() {
                let name_at = at.saturating_add(NODE_NAME);
                return Err(refused(BlobError::BadTree, name_at, Wanted::UnnamedRoot));
            }
            Ok(Progress::Inside(open(alloc, at, None), Vec::new(alloc)))
        }
        Progress::Inside(mut top, mut outer) => {
            begin_child(alloc, &mut top, &mut outer, at, name)?;
            Ok(Progress::Inside(top, outer))
        }
        Progress::Behind(_) => Err(refused(BlobError::BadToken, at, Wanted::EndBehindRoot)),
    }
}

fn property(alloc: Global, at: usize, name: &[u8], value: &[u8]) -> Result<Property, ReadError>
    ensures { Gives (λ p. p) result
        (if is_name name.now then Some (record { name = name.now; value = value.now }) else None) }
{
    let name_at = at.saturating_add(PROPERTY_NAME);
    let name = lawful(alloc, name_at, Wanted::PropertyName, name)?;
    let value = Bytes::from_vec(Vec::from_slice(alloc, value)?);
    Ok(Property { name, value })
}

fn add(
    alloc: Global,
    top: &mut NodeBuilder,
    at: usize,
    name: &[u8],
    value: &[u8],
) -> Result<(), ReadError>
    ensures { (outer : List NodeSoFar) → Gives (λ _. inside (so_far_of top.new) outer) result
        (property_in (inside (so_far_of top.old) outer) name.now value.now) }
{
    let children = top.children.len();
    if children > 0 {
        return Err(refused(BlobError::PropertyAfterNode, at, Wanted::NodeBehindChild));
    }
    let property = property(alloc, at, name, value)?;
    top.properties.push(property)?;
    Ok(())
}

fn add_property(
    alloc: Global,
    progress: Progress,
    at: usize,
    name: &[u8],
    value: &[u8],
) -> Result<Progress, ReadError>
    ensures { Gives state_of result (property_in (state_of progress) name.now value.now) }
{
    match progress {
        Progress::Inside(mut top, outer) => {
            add(alloc, &mut top, at, name, value)?;
            Ok(Progress::Inside(top, outer))
        }
        Progress::Nothing => Err(refused(BlobError::BadToken, at, Wanted::RootBegin)),
        Progress::Behind(_) => Err(refused(BlobError::BadToken, at, Wanted::EndBehindRoot)),
    }
}

fn end(alloc: Global, progress: Progress, at: usize) -> Result<Progress, ReadError>
    ensures { Gives state_of result (end_in (state_of progress)) }
{
    match progress {
        Progress::Inside(top, mut outer) => {
            let node = closed(alloc, top)?;
            match outer.pop() {
                None => Ok(Progress::Behind(node)),
                Some(mut parent) => {
                    parent.children.push(node)?;
                    Ok(Progress::Inside(parent, outer))
                }
            }
        }
        Progress::Nothing => Err(refused(BlobError::BadToken, at, Wanted::RootBegin)),
        Progress::Behind(_) => Err(refused(BlobError::BadToken, at, Wanted::EndBehindRoot)),
    }
}

// The node without the spare room that its lists grew by. Where a name stands twice in it, its own place is told.
fn closed(alloc: Global, top: NodeBuilder) -> Result<Node, ReadError>
    ensures { Gives (λ n. n) result (node_of (so_far_of top)) }
{
    let NodeBuilder {
        at,
        name,
        mut properties,
        mut children,
    } = top;
    properties.shrink_to_fit();
    children.shrink_to_fit();
    match Node::new(alloc, name, properties, children) {
        Ok(node) => Ok(node),
        Err(error) => Err(refused_by(error, at, Wanted::OtherName)),
    }
}

// Goes on by the token behind so many bytes of the block.
fn advance(
    alloc: Global,
    progress: Progress,
    at: usize,
    token: BlobToken<'_>,
) -> Result<Progress, ReadError>
    ensures { Gives state_of result (advance (state_of progress) (token_of token.entry)) }
{
    match token {
        BlobToken::BeginNode(name) => begin(alloc, progress, at, name),
        BlobToken::Property(name, value) => add_property(alloc, progress, at, name, value),
        BlobToken::EndNode => end(alloc, progress, at),
        BlobToken::Nop => Ok(progress),
        BlobToken::End => Err(refused(BlobError::BadToken, at, Wanted::NodesEnded)),
    }
}

fn is_end(token: BlobToken<'_>) -> bool
    ensures { result ≡ is_end (token_of token.entry) }
{
    matches!(token, BlobToken::End)
}

// The root, where it is whole and nothing follows the END of a block whose size is told.
fn finish(progress: Progress, at: usize, rest: &[u8], is_sized: bool) -> Result<Node, ReadError>
    ensures { Gives (λ n. n) result (root_from (state_of progress) (end ∷ left is_sized rest.now)) }
{
    if is_sized && !rest.is_empty() {
        let behind = at.saturating_add(END_SIZE);
        return Err(refused(BlobError::BadToken, behind, Wanted::BlockEnd));
    }
    match progress {
        Progress::Nothing => Err(refused(BlobError::BadToken, at, Wanted::RootBegin)),
        Progress::Inside(_, _) => Err(refused(BlobError::BadToken, at, Wanted::NodesEnded)),
        Progress::Behind(root) => Ok(root),
    }
}

// The token at the front of what stands behind so many bytes of the block.
fn token_after<'a>(
    at: usize,
    strings: &'a [u8],
    rest: &'a [u8],
) -> Result<(BlobToken<'a>, &'a [u8]), ReadError>
    ensures gives { Gives (λ x. (token_of x.0, x.1.now)) result (token_at strings.now rest.now) }
    ensures shorter { IfOk result (λ x. length x.1.now < length rest.now) }
{
    match token(strings, rest) {
        Ok(read) => Ok(read),
        Err(error) => Err(error.behind(at)),
    }
}

fn root_in(
    alloc: Global,
    strings: &[u8],
    structure: &[u8],
    is_sized: bool,
) -> Result<Node, ReadError>
    ensures { Gives (λ n. n) result (root_from begun (tokens_at is_sized strings.now structure.now)) }
{
    let mut progress = Progress::Nothing;
    let mut rest = structure;
    'tokens: loop {
        let at = structure.len().saturating_sub(rest.len());
        let (next, behind) = token_after(at, strings, rest)?;
        rest = behind;
        if is_end(next) {
            return finish(progress, at, rest, is_sized);
        }
        progress = advance(alloc, progress, at, next)?;
    }
}

// The refusal of the name that stands a second time in a node, in place of that of the node.
fn at_name(
    alloc: Global,
    strings: &[u8],
    structure: &[u8],
    error: ReadError,
) -> Result<ReadError, AllocError>
    ensures { IfOk result (λ e. e.kind ≡ error.kind) }
{
    match error.wanted {
        Wanted::OtherName => {
            let node = structure.get(error.at..).unwrap_or(&[]);
            let name_at = error
                .at
                .saturating_add(repeated_name(alloc, strings, node)?);
            Ok(refused(error.kind, name_at, Wanted::OtherName))
        }
        _ => Ok(error),
    }
}

/// The root that the structure block spells: all the bytes where its size is told, else those up to the END.
///
/// Faults come in the order of the block, each at its word in the block; equal siblings are found at the end of their node.
pub(crate) fn read_root(
    alloc: Global,
    strings: &[u8],
    structure: &[u8],
    is_sized: bool,
) -> Result<Node, ReadError>
    ensures { Gives (λ n. n) result (root_from begun (tokens_at is_sized strings.now structure.now)) }
{
    match root_in(alloc, strings, structure, is_sized) {
        Ok(root) => Ok(root),
        Err(error) => Err(at_name(alloc, strings, structure, error)?),
    }
}
