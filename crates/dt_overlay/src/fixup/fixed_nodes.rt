//! The nodes that local fixups are of.
ghost use Rattle.std.specs.Prelude.{◌≡◌, ◌+◌, ◌∷◌, ◌++◌, [], length, IfOk};
ghost use Rattle.dt_live.specs.Flattened.{IsWhole};
ghost use Rattle.dt_live.specs.Rows.{IsNode, node_path};
ghost use Rattle.dt_overlay.specs.Fixup.Private.FixedNodes.{AreFixedNodes, IsFixedNode, IsFixedNodeOf};

use dt_live::LiveTree;
use std::alloc::{AllocError, Global};

/// What the local fixups of a node are of: of nothing where it isn't below `/__local_fixups__`, else of the node at the path
/// behind that name, which may be missing.
#[derive(Clone, Copy)]
pub(crate) enum FixedNode {
    NotLocal,
    Missing,
    Node(usize),
}

/// What the local fixups of a child are of.
fn fixed_node_below<'t>(
    live: &LiveTree<'t, &'t [u8]>,
    parent: usize,
    above_it: FixedNode,
    name: &'t [u8],
) -> FixedNode
    requires whole { IsWhole live.now }
    requires known { IsNode live.now parent }
    requires fixed_node { IsFixedNodeOf live.now parent above_it }
    ensures { IsFixedNode live.now.nodes.items (node_path live.now parent ++ name.now ∷ []) result }
{
    match above_it {
        FixedNode::Missing => FixedNode::Missing,
        FixedNode::Node(node) => match live.child(node, name) {
            Some(child) => FixedNode::Node(child),
            None => FixedNode::Missing,
        },
        FixedNode::NotLocal => {
            if parent != 0 {
                return FixedNode::NotLocal;
            }
            if name == b"__local_fixups__".as_slice() {
                return FixedNode::Node(0);
            }
            FixedNode::NotLocal
        }
    }
}

/// What the local fixups of each node are of.
pub(crate) fn all_fixed_nodes<'t>(
    alloc: Global,
    live: &LiveTree<'t, &'t [u8]>,
) -> Result<Vec<FixedNode>, AllocError>
    requires whole { IsWhole live.now }
    ensures count { IfOk result (λ fixed_nodes. length fixed_nodes.items ≡ length live.now.nodes.items + 1) }
    ensures fixed_nodes { IfOk result (λ fixed_nodes. AreFixedNodes live.now fixed_nodes.items) }
{
    let mut fixed_nodes = Vec::with_capacity(alloc, live.nodes().len() + 1)?;
    fixed_nodes.push(FixedNode::NotLocal)?;
    for row in live.nodes() {
        let fixed_node = fixed_node_below(live, row.parent, fixed_nodes[row.parent], row.name);
        fixed_nodes.push(fixed_node)?;
    }
    Ok(fixed_nodes)
}
