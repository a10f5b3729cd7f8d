//! The names that are kept for what is added.
ghost use Rattle.std.specs.Prelude.{◌≡◌, is_some};
ghost use Rattle.dt_source.specs.TreeMeaning.Resolved.{has_child, names_taken};
ghost use Rattle.dt_live.specs.Rows.{IsLiveTree};
ghost use Rattle.dt_build.specs.Edit.Said.{tree_of};

use dt_live::{LiveTree, NodeRow};
use dt_source::Value;

// Where the definition stands that made a node.
fn definition_at(nodes: &[NodeRow<'_>], node: usize) -> u32 {
    match nodes.get(node.saturating_sub(1)) {
        Some(row) => row.at,
        None => 0,
    }
}

// Where the root's child of this name is defined, if it has one.
fn child_at<'d, 't>(live: &LiveTree<'d, &'d Value<'t>>, name: &'d [u8]) -> Option<u32>
    requires { IsLiveTree live.now }
    ensures { is_some result ≡ has_child (tree_of live.now) name.now }
{
    match live.child(0, name) {
        Some(node) => Some(definition_at(live.nodes(), node)),
        None => None,
    }
}

/// Where the root's child is defined whose name is kept for what is added: symbols, and a plugin's fixups. None where it has none.
pub(crate) fn name_taken<'d, 't>(
    live: &LiveTree<'d, &'d Value<'t>>,
    symbols: bool,
    plugin: bool,
) -> Option<u32>
    requires { IsLiveTree live.now }
    ensures { is_some result ≡ names_taken symbols plugin (tree_of live.now) }
{
    if symbols {
        let taken = child_at(&*live, b"__symbols__".as_slice());
        if taken.is_some() {
            return taken;
        }
    }
    if !plugin {
        return None;
    }
    let taken = child_at(live, b"__fixups__".as_slice());
    if taken.is_some() {
        return taken;
    }
    child_at(live, b"__local_fixups__".as_slice())
}
