//! Two blobs compared.
ghost use Rattle.std.specs.Prelude.{◌≡◌, ◌↔◌, length, IfOk, IfErr, IsTrue};
ghost use Rattle.dt_tree.specs.TreeData.{TreeData};
ghost use Rattle.dt_blob.specs.Holds.{Holds};
ghost use Rattle.dtman_blobs.specs.Diff.{IsDiffRefusal, IsOfText, IsSame, TellsMoved, TellsSame, are_same};

use crate::diff_text::difference_text;
use crate::difference::{Comparison, Reordered, compare, compare_order};
use dt_blob::{BlobError, read};
use dt_tree::Tree;
use std::alloc::{AllocError, Global};
use std::hash::RandomState;

/// Why two blobs aren't compared.
#[derive(Clone, Copy, Debug, PartialEq, Eq)]
pub enum DiffError {
    /// The first holds no tree.
    First(BlobError),
    /// The second holds no tree.
    Second(BlobError),
    /// Memory is wanted for the text, or a line of it is too long.
    Text(BlobError),
}

/// What the two are called.
#[derive(Clone, Copy, Debug)]
pub struct Titles<'a> {
    pub first: &'a str,
    pub second: &'a str,
}

/// What two blobs have to have in common to be the same.
#[derive(Clone, Copy, Debug, PartialEq, Eq)]
pub enum Sameness {
    /// One board, in whatever order its nodes and properties stand.
    Board,
    /// And these in one order.
    InOrder,
}

/// What differs between the boards that two blobs hold, as a patch of their sources: below the path of each node, lines with `-` for what
/// the first has alone and with `+` for what the second has. Nothing where they are the same.
pub fn diff_bytes(
    alloc: Global,
    hasher: RandomState,
    titles: Titles<'_>,
    sameness: Sameness,
    first: &[u8],
    second: &[u8],
) -> Result<Vec<u8>, DiffError>
    // Nothing is printed exactly where the trees that the bytes hold are the same board, in one order where that is asked for.
    ensures same { (s t : TreeData) → Holds first.now s → Holds second.now t
        → IfOk result (λ text. TellsSame sameness s t text.items) }
    // A refusal of a blob has its reason in the bytes.
    ensures refused { IfErr result (IsDiffRefusal first.now second.now) }
{
    let first = match read(alloc, first) {
        Ok(tree) => tree,
        Err(error) => return Err(DiffError::First(error.kind)),
    };
    let second = match read(alloc, second) {
        Ok(tree) => tree,
        Err(error) => return Err(DiffError::Second(error.kind)),
    };
    trees_diff(alloc, hasher, titles, sameness, &first, &second)
}

/// Two trees compared.
#[derive(Drop)]
pub(crate) struct Outcome<'t> {
    /// What one of them has alone.
    pub(crate) comparison: Comparison<'t>,
    /// What both have, in another order, where that counts.
    pub(crate) moved: Vec<Reordered<'t>>,
}

impl Outcome<'_> {
    fn are_same(&self) -> bool
        ensures { result ≡ are_same self.now }
    {
        self.comparison.is_same() && self.moved.is_empty()
    }
}

fn moved_names<'t>(
    alloc: Global,
    sameness: Sameness,
    first: &'t Tree,
    second: &'t Tree,
) -> Result<Vec<Reordered<'t>>, AllocError>
    ensures { IfOk result (λ moved. TellsMoved sameness first.now second.now (length moved.items)) }
{
    match sameness {
        Sameness::Board => Ok(Vec::new(alloc)),
        Sameness::InOrder => compare_order(alloc, first, second),
    }
}

fn compared<'t>(
    alloc: Global,
    hasher: RandomState,
    sameness: Sameness,
    first: &'t Tree,
    second: &'t Tree,
) -> Result<Outcome<'t>, AllocError>
    ensures { IfOk result (λ outcome. IsTrue (are_same outcome) ↔ IsSame sameness first.now second.now) }
{
    let comparison = compare(alloc, hasher, first, second)?;
    let moved = moved_names(alloc, sameness, first, second)?;
    Ok(Outcome { comparison, moved })
}

fn trees_diff(
    alloc: Global,
    hasher: RandomState,
    titles: Titles<'_>,
    sameness: Sameness,
    first: &Tree,
    second: &Tree,
) -> Result<Vec<u8>, DiffError>
    ensures same { IfOk result (λ text. TellsSame sameness first.now second.now text.items) }
    ensures refused { IfErr result IsOfText }
{
    match compared(alloc, hasher, sameness, first, second) {
        Err(_) => Err(DiffError::Text(BlobError::NoMemory)),
        Ok(outcome) if outcome.are_same() => Ok(Vec::new(alloc)),
        Ok(outcome) => match difference_text(alloc, hasher, titles, first, second, &outcome) {
            Ok(text) => Ok(text),
            Err(error) => Err(DiffError::Text(error)),
        },
    }
}
