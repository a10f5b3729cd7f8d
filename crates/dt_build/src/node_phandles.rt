//! The phandle of each node.
ghost use Rattle.std.specs.Prelude.{◌≡◌, ◌<◌, All, length, IfOk};
ghost use Rattle.dt_build.specs.Private.FirstPhandle.{PutsPhandles};
ghost use Rattle.dt_build.specs.Private.NodePhandles.{AreNodePhandles};
ghost use Rattle.dt_build.specs.Private.Ready.{IsReady};

use crate::draft::Draft;
use crate::resolve::{NodePhandle, nodes_with_phandles};
use std::alloc::{AllocError, Global};

/// The phandle of each node, the number that is no phandle where it has none; and whether it gets a property.
#[derive(Drop)]
pub(crate) struct NodePhandles {
    pub(crate) phandles: Vec<u32>,
    pub(crate) added: Vec<bool>,
}

// Writes the phandles from last to first, so that a node keeps its first one.
fn put_phandles(phandles: &mut Vec<u32>, list: &[NodePhandle])
    requires { All (λ x. x.node < length phandles.old.items) list.now }
    ensures count { length phandles.new.items ≡ length phandles.old.items }
    ensures list { PutsPhandles list.now phandles.old.items phandles.new.items }
{
    let mut left = list.len();
    'back: while left > 0 {
        left -= 1;
        let one = list[left];
        phandles[one.node] = one.phandle;
    }
}

/// The phandles of all nodes.
pub(crate) fn number(alloc: Global, draft: &Draft<'_, '_>) -> Result<NodePhandles, AllocError>
    requires { IsReady draft.now }
    ensures { IfOk result (λ node_phandles. AreNodePhandles draft.now node_phandles) }
{
    let count = draft.live.nodes().len() + 1;
    let given = draft.given.as_slice();
    let new = draft.new.as_slice();
    let with_property = draft.added.as_slice();
    let added = nodes_with_phandles(alloc, count, with_property)?;
    let mut phandles = vec![in alloc; u32::MAX; count]?;
    put_phandles(&mut phandles, new);
    put_phandles(&mut phandles, given);
    Ok(NodePhandles { phandles, added })
}
