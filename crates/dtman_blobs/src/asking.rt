//! Nodes and values of a blob, asked for and set by the words of a command line.

ghost use Rattle.std.specs.Prelude.{◌≡◌, IfOk, IfErr, MatchResult};
ghost use Rattle.dtman_blobs.specs.Asking.{IsChangeRefusal, IsNoPath, IsSaidIn, UnnamedBy};
ghost use Rattle.dtman_blobs.specs.Saying.{kind_of, words_in};

use crate::difference::Naming;
use crate::saying::{SayError, are_numbers, said};
use crate::showing::{ShowError, shown};
use crate::source_lines::add_plain_property;
use crate::value_type::{Notation, ValueType};
use dt_blob::query::{QueryError, get, set};
use dt_blob::{BlobError, ReadError, read};
use dt_tree::{Bytes, Name, Node, Path, TreeError};
use std::alloc::{AllocError, Global};
use std::hash::RandomState;

/// Why there is no answer.
#[derive(Clone, Copy, Debug, PartialEq, Eq)]
pub enum AskError<'a> {
    /// The blob has none.
    Query(QueryError),
    /// The value isn't such a text, or no whole numbers of the width.
    Show(ShowError),
    /// The word is no such number.
    NoNumber(&'a str),
    /// No property can have this name.
    NoName,
}

impl From<AllocError> for AskError<'_> {
    ghost use Rattle.std.specs.Prelude.{◌≡◌};
    ghost use Rattle.dt_blob.specs.declared.error.BlobError.TheVariants.{NoMemory};
    ghost use Rattle.dt_blob.specs.declared.query.error.QueryError.TheVariants.{Blob};
    ghost use Rattle.dtman_blobs.specs.declared.asking.AskError.TheVariants.{Query};

    ghost from_gives = { λ _ e. e ≡ Query (Blob NoMemory) };

    fn from(_error: AllocError) -> Self {
        AskError::Query(QueryError::Blob(BlobError::NoMemory))
    }
}

impl From<QueryError> for AskError<'_> {
    ghost use Rattle.std.specs.Prelude.{◌≡◌};
    ghost use Rattle.dtman_blobs.specs.declared.asking.AskError.TheVariants.{Query};

    ghost from_gives = { λ error e. e ≡ Query error };

    fn from(error: QueryError) -> Self {
        AskError::Query(error)
    }
}

impl From<BlobError> for AskError<'_> {
    fn from(error: BlobError) -> Self {
        AskError::Query(QueryError::Blob(error))
    }
}

impl From<ReadError> for AskError<'_> {
    fn from(error: ReadError) -> Self {
        AskError::Query(QueryError::from(error))
    }
}

impl From<ShowError> for AskError<'_> {
    ghost use Rattle.dtman_blobs.specs.Asking.{FromShow};

    ghost from_gives = { FromShow };

    fn from(error: ShowError) -> Self {
        match error {
            ShowError::NoMemory => AskError::Query(QueryError::Blob(BlobError::NoMemory)),
            error => AskError::Show(error),
        }
    }
}

impl<'a> From<SayError<'a>> for AskError<'a> {
    ghost use Rattle.dtman_blobs.specs.Asking.{FromSay};

    ghost from_gives = { FromSay };

    fn from(error: SayError<'a>) -> Self {
        match error {
            SayError::NoMemory => AskError::Query(QueryError::Blob(BlobError::NoMemory)),
            SayError::NoNumber(word) => AskError::NoNumber(word),
        }
    }
}

// What is no path no node has.
fn path_of(alloc: Global, path: &str) -> Result<Path, QueryError>
    ensures { MatchResult result (λ it. it ≡ path.now) (IsNoPath path.now) }
{
    match Path::parse(alloc, path.as_bytes()) {
        Ok(path) => Ok(path),
        Err(TreeError::NoMemory) => Err(QueryError::Blob(BlobError::NoMemory)),
        Err(_) => Err(QueryError::NoNode),
    }
}

/// The value of a property as it is asked for, in a line.
pub fn value_line(
    alloc: Global,
    blob: &[u8],
    path: &str,
    name: &str,
    kind: ValueType,
) -> Result<Vec<u8>, AskError<'static>> {
    let path = path_of(alloc, path)?;
    let value = get(alloc, blob, &path, name.as_bytes())?;
    let mut line = shown(alloc, kind, value.as_slice())?;
    line.push(b'\n').map_err(AllocError::from)?;
    Ok(line)
}

fn properties_text(
    alloc: Global,
    naming: &Naming<'_>,
    node: &Node,
) -> Result<Vec<u8>, AskError<'static>> {
    let mut text = Vec::new(alloc);
    for property in node.properties() {
        add_plain_property(alloc, &mut text, naming, property)?;
    }
    Ok(text)
}

/// The properties of a node as lines of a source; a phandle is shown as the path of the node that it names.
pub fn node_text(
    alloc: Global,
    hasher: RandomState,
    blob: &[u8],
    path: &str,
) -> Result<Vec<u8>, AskError<'static>> {
    let tree = read(alloc, blob)?;
    let path = path_of(alloc, path)?;
    let naming = Naming::of(alloc, hasher, &tree)?;
    match tree.find(&path) {
        None => Err(AskError::Query(QueryError::NoNode)),
        Some(node) => properties_text(alloc, &naming, node),
    }
}

fn add_line(text: &mut Vec<u8>, name: &[u8], end: &[u8]) -> Result<(), AllocError> {
    text.extend_from_slice(name)?;
    text.extend_from_slice(end)
}

fn names_text(alloc: Global, node: &Node) -> Result<Vec<u8>, AllocError> {
    let mut text = Vec::new(alloc);
    for property in node.properties() {
        add_line(&mut text, property.name.as_bytes(), b"\n")?;
    }
    for child in node.children() {
        add_line(&mut text, child.name_bytes(), b"/\n")?;
    }
    Ok(text)
}

/// The names of what a node has: its properties, and its children each with a slash behind it.
pub fn list_text(alloc: Global, blob: &[u8], path: &str) -> Result<Vec<u8>, AskError<'static>> {
    let tree = read(alloc, blob)?;
    let path = path_of(alloc, path)?;
    match tree.find(&path) {
        None => Err(AskError::Query(QueryError::NoNode)),
        Some(node) => Ok(names_text(alloc, node)?),
    }
}

// Where nothing is said of them, words that are all numbers make cells, and others texts.
fn kind_of(kind: ValueType, words: &[&str]) -> ValueType
    ensures { result ≡ kind_of kind (words_in words.now) }
{
    let notation = match kind.notation {
        Some(notation) => notation,
        None if are_numbers(words) => Notation::Signed,
        None => Notation::Text,
    };
    ValueType {
        width: kind.width,
        notation: Some(notation),
    }
}

fn name_of(alloc: Global, name: &str) -> Result<Name, AskError<'static>>
    ensures { MatchResult result (λ it. it ≡ name.now) (UnnamedBy name.now) }
{
    match Name::new(alloc, name.as_bytes()) {
        Ok(name) => Ok(name),
        Err(TreeError::NoMemory) => Err(AskError::Query(QueryError::Blob(BlobError::NoMemory))),
        Err(_) => Err(AskError::NoName),
    }
}

/// The blob with a property of the value that words say.
pub fn set_bytes<'a>(
    alloc: Global,
    hasher: RandomState,
    blob: &[u8],
    path: &str,
    name: &str,
    kind: ValueType,
    words: &[&'a str],
) -> Result<Vec<u8>, AskError<'a>>
    // The blob of a tree that the bytes hold, with the value that the words say; all else is as it was.
    ensures answer { IfOk result (λ changed.
        IsSaidIn blob.now path.now name.now kind (words_in words.now) changed.items) }
    // Each refusal has its reason in the words, the name, the path or the bytes.
    ensures refused { IfErr result (IsChangeRefusal blob.now path.now name.now kind (words_in words.now)) }
{
    let value = said(alloc, kind_of(kind, words), words)?;
    let name = name_of(alloc, name)?;
    let path = path_of(alloc, path)?;
    Ok(set(alloc, hasher, blob, &path, name, Bytes::from_vec(value))?)
}
