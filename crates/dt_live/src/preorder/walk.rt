//! The walk over a tree.
ghost use Rattle.std.specs.Prelude.{◌≡◌, ◌<◌, ◌++◌, ℕ, All, IfOk, OnOk, length};
ghost use Rattle.dt_tree.specs.declared.limits.TheConstants.{MAX_DEPTH};
ghost use Rattle.dt_live.specs.Rows.{IsGrown};
ghost use Rattle.dt_live.specs.Private.Lists.{list_count, list_of};
ghost use Rattle.dt_live.specs.Private.Walks.{children_to, rows_walk};

use crate::live_tree::NodeRow;
use crate::preorder::children::children;
use crate::preorder::lists::Lists;
use dt_tree::MAX_DEPTH;
use std::alloc::{AllocError, Global};

// Puts a node and all below it, down to so many levels, behind the others: each before what is below it.
fn walk(
    order: &mut Vec<usize>,
    children: &Lists,
    node: usize,
    levels: usize,
) -> Result<(), AllocError>
    requires known { node < list_count children.now }
    requires below { (n : ℕ) → All (λ m. m < list_count children.now) (list_of children.now n) }
    ensures { OnOk result (order.new.items ≡ order.old.items ++ rows_walk levels (list_of children.now) node) }
{
    order.push(node)?;
    if levels == 0 {
        return Ok(());
    }
    for child in children.of(node) {
        walk(order, children, *child, levels - 1)?;
    }
    Ok(())
}

/// A tree's nodes in preorder.
pub(crate) fn walk_tree(alloc: Global, nodes: &[NodeRow<'_>]) -> Result<Vec<usize>, AllocError>
    requires { IsGrown nodes.now }
    ensures { IfOk result (λ order. order.items ≡ rows_walk MAX_DEPTH (children_to nodes.now (length nodes.now)) 0) }
{
    let below = children(alloc, nodes)?;
    let mut order = Vec::with_capacity(alloc, nodes.len())?;
    walk(&mut order, &below, 0, MAX_DEPTH)?;
    Ok(order)
}
