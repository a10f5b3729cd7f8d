//! One walk over a tree, from the root down.
ghost use Rattle.std.specs.Prelude.{◌≡◌, IfOk, OnOk};
ghost use Rattle.dt_check.specs.Nodes.{with_tree, tree_nodes};

use crate::placed::Placed;
use dt_tree::Node;
use std::alloc::{AllocError, Global};

// Puts a node and all below it last.
fn visit<'t>(
    nodes: &mut Vec<Placed<'t>>,
    node: &'t Node,
    above: Option<usize>,
) -> Result<(), AllocError>
    ensures { OnOk result (nodes.new.items ≡ with_tree above nodes.old.items node.now) }
{
    let place = nodes.len();
    nodes.push(Placed::new(node, above))?;
    for child in node.children() {
        visit(nodes, child, Some(place))?;
    }
    Ok(())
}

// How many nodes a tree has: room is taken once for all of them.
fn count_in(node: &Node) -> usize {
    let mut count: usize = 1;
    for child in node.children() {
        count = count.saturating_add(count_in(child));
    }
    count
}

/// The nodes of the tree of this root, each before those below it.
pub fn nodes_of(alloc: Global, root: &Node) -> Result<Vec<Placed<'_>>, AllocError>
    ensures { IfOk result (λ nodes. nodes.items ≡ tree_nodes root.now) }
{
    let mut nodes = Vec::with_capacity(alloc, count_in(root))?;
    visit(&mut nodes, root, None)?;
    Ok(nodes)
}
