//! The fragments of an overlay.
ghost use Rattle.std.specs.Prelude.{◌≡◌, ◌+◌, ◌<◌, length};
ghost use Rattle.dt_live.specs.Rows.{node_path};
ghost use Rattle.dt_live.specs.Flattened.{IsOrdered, IsWhole, lists};
ghost use Rattle.dt_source.specs.OverlayMeaning.Shifted.{fragment_at, fragments};
ghost use Rattle.dt_overlay.specs.Fixup.Private.Fragments.{are_some};

use dt_live::LiveTree;

// Whether the node of a row is a child of the root and has a child `__overlay__`.
fn is_fragment<'t>(live: &LiveTree<'t, &'t [u8]>, row: usize) -> bool
    requires whole { IsWhole live.now }
    requires known { row < length live.now.nodes.items }
    ensures { result ≡ are_some (fragment_at (node_path live.now (row + 1)) (lists live.now).nodes) }
{
    if live.nodes()[row].parent != 0 {
        return false;
    }
    live.child(row + 1, b"__overlay__".as_slice()).is_some()
}

/// Whether a tree has a fragment.
pub(crate) fn has_fragment<'t>(live: &LiveTree<'t, &'t [u8]>) -> bool
    requires whole { IsWhole live.now }
    requires ordered { IsOrdered live.now }
    ensures { result ≡ are_some (fragments (lists live.now)) }
{
    for row in 0..live.nodes().len() {
        if is_fragment(live, row) {
            return true;
        }
    }
    false
}
