//! The order of a live tree's tree.
ghost use Rattle.std.specs.Prelude.{All, IfOk};
ghost use Rattle.dt_live.specs.Rows.{IsLiveTree, IsNode};
ghost use Rattle.dt_live.specs.Preorder.{AreInOrder, AreInPreorder, Stands};

mod children;
mod lists;
mod properties;
mod run;
mod walk;

use crate::live_tree::LiveTree;
pub use crate::preorder::properties::NodeProperty;
use crate::preorder::properties::properties_in_preorder;
use crate::preorder::walk::walk_tree;
use std::alloc::{AllocError, Global};

/// A tree's nodes in preorder, and its properties in the order of the walk.
#[derive(Drop)]
pub struct Preorder<'d, V> {
    pub nodes: Vec<usize>,
    pub properties: Vec<NodeProperty<'d, V>>,
}

/// The order of the tree that a live tree shows.
pub fn preorder_of<'d, V: Copy>(
    alloc: Global,
    live: &LiveTree<'d, V>,
) -> Result<Preorder<'d, V>, AllocError>
    requires { IsLiveTree live.now }
    ensures nodes { IfOk result (λ in_preorder. AreInPreorder live.now in_preorder.nodes.items) }
    ensures known { IfOk result (λ in_preorder. All (λ n. IsNode live.now n) in_preorder.nodes.items) }
    ensures there { IfOk result (λ in_preorder. All (Stands live.now) in_preorder.nodes.items) }
    ensures owners { IfOk result (λ in_preorder. All (λ x. IsNode live.now x.node) in_preorder.properties.items) }
    ensures stand { IfOk result (λ in_preorder. All (λ x. Stands live.now x.node) in_preorder.properties.items) }
    ensures properties { IfOk result (λ in_preorder. AreInOrder live.now in_preorder.properties.items) }
{
    let nodes = walk_tree(alloc, live.nodes())?;
    let count = live.nodes().len() + 1;
    let properties = properties_in_preorder(alloc, count, live.properties(), nodes.as_slice())?;
    Ok(Preorder { nodes, properties })
}
