//! The nodes that are kept for other uses.
ghost use Rattle.std.specs.Prelude.{◌≡◌, ◌≤◌, length};
ghost use Rattle.dt_tree.specs.Phandle as phandles;
ghost use Rattle.dt_live.specs.Rows.{IsGrown, path_of};

use crate::live_tree::NodeRow;
use dt_tree::is_reserved_name;

/// Whether a node is reserved: the root's child `__symbols__`, `__fixups__` or `__local_fixups__`, or below one of them.
pub fn is_reserved(nodes: &[NodeRow<'_>], node: usize) -> bool
    requires grown { IsGrown nodes.now }
    requires known { node ≤ length nodes.now }
    ensures { result ≡ phandles.is_reserved (path_of nodes.now node) }
{
    let mut at = node;
    'up: while at != 0 {
        let row = nodes[at - 1];
        if row.parent == 0 {
            return is_reserved_name(row.name);
        }
        at = row.parent;
    }
    false
}
