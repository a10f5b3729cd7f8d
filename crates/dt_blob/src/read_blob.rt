//! Reading a blob.
ghost use Rattle.std.specs.Prelude.{◌≡◌, ◌≤◌, IfErr, IfOk, IsErrOf, MatchResult, Some};
ghost use Rattle.dt_tree.specs.TreeData.{TreeData};
ghost use Rattle.dt_blob.specs.Steps.Answered.{ReadsReserves};
ghost use Rattle.dt_blob.specs.Answers.{IsMislaid, IsOfHeader, Reads};
ghost use Rattle.dt_blob.specs.HeaderWords.{IsRefusedAt, header_fault, kinds};
ghost use Rattle.dt_blob.specs.Holds.{Holds};
ghost use Rattle.dt_blob.specs.Steps.NodeBuilders.{begun, root_from};
ghost use Rattle.dt_blob.specs.Steps.Reading.{Gives, RefusesAll, reserves_at, tokens_at, tree_in};

use crate::error::BlobError;
use crate::read_blocks::{BlobBlocks, blocks_in};
use crate::read_error::{ReadError, Wanted, refused};
use crate::read_header::RESERVES_AT;
use crate::read_nodes::read_root;
use crate::read_reserves::read_reserves;
use dt_tree::{Node, Tree};
use std::alloc::Global;

// The refusal of the reserved memory; where nothing of it lies in the blob, of the word that tells its place.
fn reserves_refused(blocks: BlobBlocks<'_>, error: ReadError) -> ReadError
    ensures { result.kind ≡ error.kind }
{
    if blocks.reserves.is_empty() {
        return refused(error.kind, RESERVES_AT, Wanted::ReservesInBlob);
    }
    error.behind(blocks.reserves_at)
}

// The reserved memory of a blob, whose refusal is of one of so many bytes.
fn reserved(alloc: Global, blocks: BlobBlocks<'_>, len: usize) -> Result<Vec<(u64, u64)>, ReadError>
    ensures read { ReadsReserves (λ v. v.items) blocks.entry.reserves.now result }
    ensures at { IfErr result (λ e. e.at ≤ len) }
{
    match read_reserves(alloc, blocks.reserves) {
        Ok(reserves) => Ok(reserves),
        Err(error) => Err(reserves_refused(blocks, error).within(len)),
    }
}

// The root of a blob, whose refusal is of one of so many bytes.
fn root_of(alloc: Global, blocks: BlobBlocks<'_>, len: usize) -> Result<Node, ReadError>
    ensures read { Gives (λ n. n) result
        (root_from begun (tokens_at blocks.entry.is_sized blocks.entry.strings.now blocks.entry.structure.now)) }
    ensures at { IfErr result (λ e. e.at ≤ len) }
{
    match read_root(alloc, blocks.strings, blocks.structure, blocks.is_sized) {
        Ok(root) => Ok(root),
        Err(error) => Err(error.behind(blocks.structure_at).within(len)),
    }
}

fn whole(alloc: Global, bytes: &[u8]) -> Result<Tree, ReadError>
    ensures { MatchResult result (λ t. tree_in bytes.now ≡ Some t)
        (λ e. RefusesAll e.kind bytes.now × IsRefusedAt bytes.now e) }
{
    let blocks = blocks_in(bytes)?;
    let reserves = reserved(alloc, blocks, bytes.len())?;
    let root = root_of(alloc, blocks, bytes.len())?;
    match Tree::new(reserves, blocks.boot_cpu, root) {
        Ok(tree) => Ok(tree),
        Err(error) => Err(refused(BlobError::from(error), 0, Wanted::UnnamedRoot)),
    }
}

/// The tree that the bytes hold; what stands behind the size that the header gives isn't looked at.
///
/// The header's tests come first, in their order; then the reservations, whose end may be missing (`BadLayout`);
/// then the structure block from its beginning, where a value past the block comes before the name of its property,
/// a bad token before its misplacement, and equal siblings at the end of their node. In version 16, whose header has no
/// size of the block, it ends with its END, inside the blob. A refusal tells the word that the test looks at; of equal siblings
/// that is where the second's name stands, or the place of it. Takes memory for the tree alone.
pub fn read(alloc: Global, bytes: &[u8]) -> Result<Tree, ReadError>
    // What is read is held.
    ensures found { IfOk result (λ tree. Holds bytes.now tree) }
    // What is held is read, unless memory runs out.
    ensures only { (tree : TreeData) → Holds bytes.now tree → Reads tree result }
    // These refusals come exactly where the header has that fault first.
    ensures too_large { IsOfHeader BlobError.TooLarge bytes.now result }
    ensures truncated { IsOfHeader BlobError.Truncated bytes.now result }
    ensures bad_magic { IsOfHeader BlobError.BadMagic bytes.now result }
    ensures bad_version { IsOfHeader BlobError.BadVersion bytes.now result }
    // This one too, and else the reserved memory has no end.
    ensures bad_layout { header_fault bytes.now ≡ Some BlobError.BadLayout → IsErrOf (kinds result) BlobError.BadLayout }
    ensures no_end { IsErrOf (kinds result) BlobError.BadLayout → IsMislaid bytes.now }
    // The word lies in the bytes; of a fault of the header it is the word that shows it.
    ensures at { IfErr result (IsRefusedAt bytes.now) }
{
    let tree = whole(alloc, bytes)?;
    tree.check();
    Ok(tree)
}
