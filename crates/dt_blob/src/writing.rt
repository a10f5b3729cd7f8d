ghost use Rattle.std.specs.Prelude.{◌≡◌, ◌+◌, ◌≤◌, ◌++◌, [], length, IfOk, OnOk, MatchResult};
ghost use Rattle.dt_blob.specs.Steps.Answered.{AreBlockPlaces, names_of, reserves_size};
ghost use Rattle.dt_blob.specs.Answers.{Makes};
ghost use Rattle.dt_blob.specs.Blob.{Refuses, limit, header, reservations, blob_of};
ghost use Rattle.dt_blob.specs.Format.{header_size};
ghost use Rattle.dt_blob.specs.Holds.{Holds};
ghost use Rattle.dt_blob.specs.Steps.Table.{placed};
ghost use Rattle.dt_blob.specs.Steps.Written.{all_bytes, tokens_size};
ghost use Rattle.dt_blob.specs.Strings.{with_names};
ghost use Rattle.dt_blob.specs.Token.{tree_tokens};

use crate::error::BlobError;
use crate::header::{HEADER_SIZE, Sizes, put_header, put_reservations};
use crate::room::add_size;
use crate::sizing::{add_reservations, add_structure};
use crate::strings::Strings;
use crate::writer::put_structure;
use dt_tree::Tree;
use std::alloc::{AllocError, Global};
use std::hash::RandomState;

/// Writes the blocks, one behind the other.
fn put_blocks(
    out: &mut Vec<u8>,
    tree: &Tree,
    strings: &Strings,
    sizes: Sizes,
) -> Result<(), AllocError>
    requires sizes { header_size + sizes.reserved + sizes.structure + sizes.strings ≤ limit }
    requires structure { tokens_size (tree_tokens tree.now.root) ≤ limit }
    ensures { OnOk result (out.new.items
        ≡ (((out.old.items ++ header tree.now.boot_cpu sizes.reserved sizes.structure sizes.strings)
        ++ reservations tree.now.reserves) ++ all_bytes (placed strings.now) (tree_tokens tree.now.root))
        ++ with_names [] strings.now) }
{
    put_header(out, tree.boot_cpu(), sizes)?;
    put_reservations(out, tree.reserves())?;
    put_structure(out, strings, tree.root())?;
    strings.put(out)
}

/// The blob whose structure block and strings stand at these places. It borrows the strings, so that no way out drops them.
fn blob_at(
    alloc: Global,
    tree: &Tree,
    strings: &Strings,
    structure_at: usize,
    strings_at: usize,
) -> Result<Vec<u8>, BlobError>
    requires structure { structure_at ≡ header_size + reserves_size tree.now.reserves }
    requires strings { strings_at ≡ structure_at + tokens_size (tree_tokens tree.now.root) }
    requires fits { strings_at ≤ limit }
    requires names { strings.now ≡ names_of tree.now.root }
    ensures { Makes (λ blob. blob.items) (blob_of tree.now) result }
{
    tree.check();
    let size = add_size(strings_at, 0, strings.size())?;
    let sizes = Sizes {
        reserved: (structure_at - HEADER_SIZE) as u32,
        structure: (strings_at - structure_at) as u32,
        strings: strings.size() as u32,
    };
    let mut bytes = Vec::with_capacity(alloc, size)?;
    put_blocks(&mut bytes, tree, strings, sizes)?;
    Ok(bytes)
}

/// Where the structure block and the strings block begin.
fn block_places(tree: &Tree) -> Result<(usize, usize), BlobError>
    ensures { MatchResult result (AreBlockPlaces tree.now) (Refuses (length (blob_of tree.now))) }
{
    tree.check();
    let structure_at = add_reservations(HEADER_SIZE, tree.reserves())?;
    let strings_at = add_structure(structure_at, tree.root())?;
    Ok((structure_at, strings_at))
}

/// Makes the blob of a tree, in version 17. Fails with `TooLarge` where it has over `MAX_SIZE`
/// bytes, and with `NoMemory`. The hasher is for the tree's names; no answer depends on it.
pub fn write(alloc: Global, hasher: RandomState, tree: &Tree) -> Result<Vec<u8>, BlobError>
    ensures blob { Makes (λ blob. blob.items) (blob_of tree.now) result }
    ensures held { IfOk result (λ blob. Holds blob.items tree.now) }
{
    tree.check();
    let (structure_at, strings_at) = block_places(tree)?;
    let strings = Strings::new(alloc, hasher, tree.root())?;
    blob_at(alloc, tree, &strings, structure_at, strings_at)
}
