//! The children of each node.
ghost use Rattle.std.specs.Prelude.{◌≡◌, ◌+◌, IfOk, length};
ghost use Rattle.dt_live.specs.Rows.{IsGrown};
ghost use Rattle.dt_live.specs.Private.Lists.{list_count};
ghost use Rattle.dt_live.specs.Private.Walks.{AreChildren};

use crate::live_tree::NodeRow;
use crate::preorder::lists::Lists;
use std::alloc::{AllocError, Global};

/// The nodes right below each node, without those that were removed.
pub fn children(alloc: Global, nodes: &[NodeRow<'_>]) -> Result<Lists, AllocError>
    requires { IsGrown nodes.now }
    ensures count { IfOk result (λ lists. list_count lists ≡ length nodes.now + 1) }
    ensures lists { IfOk result (λ lists. AreChildren nodes.now lists) }
{
    let mut lists = Lists::new(alloc, nodes.len() + 1)?;
    for (place, row) in nodes.iter().enumerate() {
        if !row.removed {
            lists.push(row.parent, place + 1)?;
        }
    }
    Ok(lists)
}
