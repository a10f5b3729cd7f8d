//! The value at a path.
ghost use Rattle.std.specs.Prelude.{IfOk, IfErr};
ghost use Rattle.dt_tree.specs.Path.{path_names};
ghost use Rattle.dt_tree.specs.TreeData.{TreeData};
ghost use Rattle.dt_blob.specs.Holds.{Holds};
ghost use Rattle.dt_blob.specs.Query.Get.{AnswersGet, IsGetRefusal, IsValueIn};

use crate::query::error::QueryError;
use crate::read;
use dt_tree::{Path, Tree};
use std::alloc::Global;

/// The value of a property of the node at a path, in the tree that a blob holds.
pub fn get(alloc: Global, blob: &[u8], path: &Path, name: &[u8]) -> Result<Vec<u8>, QueryError>
    // What is answered stands in a tree that the bytes hold.
    ensures answer { IfOk result (λ value. IsValueIn blob.now (path_names path.now) name.now value.items) }
    // A tree that the bytes hold is answered for, or why it has no answer.
    ensures held { (tree : TreeData) → Holds blob.now tree → AnswersGet tree (path_names path.now) name.now result }
    // Each refusal has its reason in the bytes.
    ensures refused { IfErr result (IsGetRefusal blob.now (path_names path.now) name.now) }
{
    let tree = read(alloc, blob)?;
    value_at(alloc, &tree, path, name)
}

fn value_at(alloc: Global, tree: &Tree, path: &Path, name: &[u8]) -> Result<Vec<u8>, QueryError>
    ensures { AnswersGet tree.now (path_names path.now) name.now result }
{
    let Some(node) = tree.find(path) else {
        return Err(QueryError::NoNode);
    };
    let Some(value) = node.value(name) else {
        return Err(QueryError::NoProperty);
    };
    Ok(value.copy(alloc)?.into_vec())
}
