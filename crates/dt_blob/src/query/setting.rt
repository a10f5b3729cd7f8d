//! A property set in a blob.
ghost use Rattle.std.specs.Prelude.{IfOk, IfErr};
ghost use Rattle.dt_tree.specs.Path.{path_names};
ghost use Rattle.dt_tree.specs.TreeData.{TreeData};
ghost use Rattle.dt_blob.specs.Holds.{Holds};
ghost use Rattle.dt_blob.specs.Query.Set.{AnswersSet, IsSetIn, IsSetRefusal};
ghost use Rattle.dt_blob.specs.Query.Private.Writing.{Writes};

use crate::query::error::QueryError;
use crate::{BlobError, read, write};
use dt_tree::{Bytes, Name, Path, Tree, TreeError};
use std::alloc::Global;
use std::hash::RandomState;

/// The blob of the tree that a blob holds, with a property of the node at a path: in the place of the one of this name, or last. All else
/// is as it was.
pub fn set(
    alloc: Global,
    hasher: RandomState,
    blob: &[u8],
    path: &Path,
    name: Name,
    value: Bytes,
) -> Result<Vec<u8>, QueryError>
    // What is answered is the blob of a tree that the bytes hold, with the property.
    ensures answer { IfOk result (λ changed. IsSetIn blob.now (path_names path.now) name value changed.items) }
    // A tree that the bytes hold is answered for, or why it has no answer.
    ensures held { (tree : TreeData) → Holds blob.now tree → AnswersSet tree (path_names path.now) name value result }
    // Each refusal has its reason in the bytes.
    ensures refused { IfErr result (IsSetRefusal blob.now (path_names path.now) name value) }
{
    let tree = read(alloc, blob)?;
    blob_with(alloc, hasher, tree, path, name, value)
}

fn blob_with(
    alloc: Global,
    hasher: RandomState,
    mut tree: Tree,
    path: &Path,
    name: Name,
    value: Bytes,
) -> Result<Vec<u8>, QueryError>
    ensures { AnswersSet tree (path_names path.now) name value result }
{
    match tree.set_property(path, name, value) {
        Err(TreeError::NoSuchPath) => Err(QueryError::NoNode),
        Err(_) => Err(QueryError::Blob(BlobError::NoMemory)),
        Ok(()) => written(alloc, hasher, &tree),
    }
}

fn written(alloc: Global, hasher: RandomState, tree: &Tree) -> Result<Vec<u8>, QueryError>
    ensures { Writes tree.now result }
{
    tree.check();
    match write(alloc, hasher, tree) {
        Ok(blob) => Ok(blob),
        Err(error) => Err(QueryError::Blob(error)),
    }
}
