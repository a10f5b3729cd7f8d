//! The phandles of a tree's rows.
ghost use Rattle.std.specs.Prelude.{◌≡◌, ◌<◌, length};
ghost use Rattle.dt_source.specs.OverlayMeaning.Shifted.{greatest, phandle_of, phandles};
ghost use Rattle.dt_live.specs.ByRow.{row_property};
ghost use Rattle.dt_live.specs.Flattened.{IsWhole, lists};

use dt_live::{LiveTree, is_reserved};
use dt_tree::phandle_in;

/// The phandle that a property gives: one called `phandle`, outside the reserved nodes.
pub fn row_phandle<'t>(live: &LiveTree<'t, &'t [u8]>, property: usize) -> Option<u32>
    requires whole { IsWhole live.now }
    requires known { property < length live.now.properties.items }
    ensures { result ≡ phandle_of (row_property live.now property) }
{
    let row = live.properties()[property];
    if row.name != b"phandle".as_slice() {
        return None;
    }
    if is_reserved(live.nodes(), row.node) {
        return None;
    }
    match row.value {
        Some(value) => phandle_in(value),
        None => None,
    }
}

/// The greatest phandle, 0 where there is none.
pub(crate) fn greatest_phandle<'t>(live: &LiveTree<'t, &'t [u8]>) -> u32
    requires { IsWhole live.now }
    ensures { result ≡ greatest (phandles (lists live.now).properties) }
{
    let mut greatest = 0;
    for property in 0..live.properties().len() {
        let number = row_phandle(live, property).unwrap_or(0);
        if greatest < number {
            greatest = number;
        }
    }
    greatest
}
