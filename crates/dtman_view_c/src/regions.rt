//! Addresses and sizes in `reg`.
ghost use Rattle.std.specs.Prelude.{◌≡◌};
ghost use Rattle.dt_tree.specs.NodeData.{NodeData};
ghost use Rattle.dt_patch.specs.View.Regions.{reg_cells, region_of};
ghost use Rattle.dt_patch.specs.View.Standing.{HasNoNode, StandsAt};
ghost use Rattle.dtman_view_c.specs.Parts.{IsGiven};
ghost use Rattle.dtman_view_c.specs.Told.{bad_offset, done};

use crate::told::{ViewTold, done, failed, nothing};
use dt_patch::view::{NodeOffset, RegCells, Region, View};

/// How many cells the `reg` of a node's children has for an address and for a size.
#[unsafe(no_mangle)]
pub extern "C" fn dtman_view_reg_cells(
    view: &View<'_>,
    parent: usize,
    into: &mut RegCells,
) -> ViewTold
    ensures stands { (d : NodeData) → StandsAt view.now parent d → IsGiven (reg_cells d.properties) into.new result }
    ensures refused { HasNoNode view.now parent → result ≡ bad_offset }
{
    match view.reg_cells(NodeOffset { at: parent }) {
        Ok(Some(cells)) => {
            *into = cells;
            done(0)
        }
        Ok(None) => nothing(),
        Err(error) => failed(error),
    }
}

/// The entry at a place of a node's `reg`, by the cells that its parent tells.
#[unsafe(no_mangle)]
pub extern "C" fn dtman_view_region(
    view: &View<'_>,
    parent: usize,
    node: usize,
    index: usize,
    into: &mut Region,
) -> ViewTold
    ensures stands { (p d : NodeData) → StandsAt view.now parent p → StandsAt view.now node d
        → IsGiven (region_of p.properties d.properties index) into.new result }
    ensures no_parent { HasNoNode view.now parent → result ≡ bad_offset }
{
    match view.region(NodeOffset { at: parent }, NodeOffset { at: node }, index) {
        Ok(Some(region)) => {
            *into = region;
            done(0)
        }
        Ok(None) => nothing(),
        Err(error) => failed(error),
    }
}
