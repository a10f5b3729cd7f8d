//! The tree of a live tree.
ghost use Rattle.std.specs.Prelude.{◌≡◌, ◌-◌, ◌^◌, [], IfOk, length, map, min};
ghost use Rattle.dt_tree.specs.PathMap.{path_map};
ghost use Rattle.dt_source.specs.TreeMeaning.MapOf.{map_of};
ghost use Rattle.dt_live.specs.Builder.Standing.{AreNodes};
ghost use Rattle.dt_live.specs.Builder.Sizes.{size_in};
ghost use Rattle.dt_live.specs.ByRow.{lent};
ghost use Rattle.dt_live.specs.Flattened.{IsWhole, lists};
ghost use Rattle.dt_overlay.specs.Private.Making.{copied};

use dt_live::making::{Values, make_nodes};
use dt_live::{LiveTree, PropertyRow, preorder_of};
use dt_tree::{Bytes, Node};
use std::alloc::{AllocError, Global};

// ---- sizes
fn row_size(row: &PropertyRow<'_, &[u8]>) -> usize
    ensures { result ≡ length (lent row.now.value) }
{
    match row.value {
        None => 0,
        Some(value) => value.len(),
    }
}

/// How many bytes the values of a live tree have together, or the greatest number where there are more. Takes no memory.
pub(crate) fn total_size(live: &LiveTree<'_, &[u8]>) -> usize
    requires { IsWhole live.now }
    ensures { result ≡ min (size_in (lists live.now).properties) (2 ^ 64 - 1) }
{
    let mut size: usize = 0;
    for row in live.properties() {
        size = size.saturating_add(row_size(row));
    }
    size
}

// ---- nodes
// Values of a live tree that are copied.
#[derive(Drop)]
struct Copies<'l, 'd> {
    live: &'l LiveTree<'d, &'d [u8]>,
}

impl<'l, 'd> Values<&'d [u8]> for Copies<'l, 'd> {
    ghost made = { λ s. copied s.live.now };

    ghost is_ready = { λ _. Unit {0} };

    ghost bytes_of = { λ _ vs. map (λ v. v.now) vs };

    fn next(&mut self, alloc: Global, value: &'d [u8]) -> Result<Bytes, AllocError> {
        Ok(Bytes::from_vec(Vec::from_slice(alloc, value)?))
    }

    fn new_phandle(&self, _node: usize) -> Option<u32> {
        None
    }
}

/// The root of the tree that a live tree shows, each node made once.
pub(crate) fn make<'d>(alloc: Global, live: &LiveTree<'d, &'d [u8]>) -> Result<Node, AllocError>
    requires whole { IsWhole live.now }
    requires nodes { AreNodes (lists live.now).nodes }
    ensures name { IfOk result (λ root. root.name ≡ []) }
    ensures map { IfOk result (λ root. path_map root ≡ map_of (lists live.now)) }
{
    let in_preorder = preorder_of(alloc, live)?;
    let mut values = Copies { live };
    make_nodes(alloc, live, &in_preorder, &mut values)?.finish()
}
