//! Addresses and sizes in `reg`.
ghost use Rattle.std.specs.Prelude.{◌≡◌, IsOkAnd, codes, Ok};
ghost use Rattle.dt_tree.specs.NodeData.{NodeData};
ghost use Rattle.dt_tree.specs.PathMap.{value_of};
ghost use Rattle.dt_patch.specs.View.Regions.{cell_or, reg_cells, region_in, region_of, size_in, wide_number_in};
ghost use Rattle.dt_patch.specs.View.Standing.{HasNoNode, StandsAt};

use crate::view::cells::{cell, double_cell};
use crate::view::error::ViewError;
use crate::view::nodes::NodeOffset;
use crate::view::view::View;
use dt_tree::cell_in;

/// How many cells of 32 bits an address and a size have in the `reg` of a node's children.
#[repr(C)]
#[derive(Clone, Copy, Debug, Drop, PartialEq, Eq)]
pub struct RegCells {
    pub address: u32,
    pub size: u32,
}

/// An entry of `reg`.
#[repr(C)]
#[derive(Clone, Copy, Debug, Drop, PartialEq, Eq)]
pub struct Region {
    pub address: u64,
    pub size: u64,
}

fn wide_number(cells: u32, value: &[u8], place: usize) -> Option<u64>
    ensures { result ≡ wide_number_in cells value.now place }
{
    match cells {
        1 => match cell(value, place) {
            Some(number) => Some(u64::from(number)),
            None => None,
        },
        2 => double_cell(value, place),
        _ => None,
    }
}

fn size_at(cells: u32, value: &[u8], place: usize) -> Option<u64>
    ensures { result ≡ size_in cells value.now place }
{
    if cells == 0 {
        return Some(0);
    }
    wide_number(cells, value, place)
}

/// The entry at a place of `reg`, counted from 0, of addresses of one or two cells and sizes of at most two. None where it isn't there
/// whole, or where a number has another count of cells.
pub fn region_at(cells: RegCells, value: &[u8], index: usize) -> Option<Region>
    ensures { result ≡ region_in cells value.now index }
{
    if cells.address > 2 || cells.size > 2 || index >= value.len() / 4 {
        return None;
    }
    let start = index * (cells.address as usize + cells.size as usize);
    let address = wide_number(cells.address, value, start)?;
    let size = size_at(cells.size, value, start + cells.address as usize)?;
    Some(Region { address, size })
}

impl<'a> View<'a> {
    fn cell_or(&self, node: NodeOffset, name: &[u8], default: u32) -> Result<Option<u32>, ViewError>
        ensures stands { (d : NodeData) → StandsAt self.now node.at d
            → IsOkAnd result (λ cell. cell ≡ cell_or default name.now d.properties) }
        ensures refused { HasNoNode self.now node.at → result ≡ Err ViewError.BadOffset }
    {
        match self.value(node, name)? {
            None => Ok(Some(default)),
            Some(value) => Ok(cell_in(value)),
        }
    }

    /// How many cells the `reg` of a node's children has for an address and for a size: `#address-cells` and `#size-cells` of the
    /// node, 2 and 1 where it hasn't them. None where one of the two isn't a cell.
    pub fn reg_cells(&self, parent: NodeOffset) -> Result<Option<RegCells>, ViewError>
        ensures stands { (d : NodeData) → StandsAt self.now parent.at d
            → IsOkAnd result (λ cells. cells ≡ reg_cells d.properties) }
        ensures refused { HasNoNode self.now parent.at → result ≡ Err ViewError.BadOffset }
    {
        let address = self.cell_or(parent, b"#address-cells", 2)?;
        let size = self.cell_or(parent, b"#size-cells", 1)?;
        match (address, size) {
            (Some(address), Some(size)) => Ok(Some(RegCells { address, size })),
            (Some(_), None) => Ok(None),
            (None, _) => Ok(None),
        }
    }

    /// The entry at a place of a node's `reg`, by the cells that its parent tells: none where it isn't there whole, where a cell count
    /// is no cell, and where a number would have more than 64 bits or an address none.
    pub fn region(
        &self,
        parent: NodeOffset,
        node: NodeOffset,
        index: usize,
    ) -> Result<Option<Region>, ViewError>
        ensures stands { (p d : NodeData) → StandsAt self.now parent.at p → StandsAt self.now node.at d
            → IsOkAnd result (λ region. region ≡ region_of p.properties d.properties index) }
        ensures no_parent { HasNoNode self.now parent.at → result ≡ Err ViewError.BadOffset }
        ensures no_node { (p : NodeData) → StandsAt self.now parent.at p → HasNoNode self.now node.at
            → result ≡ Err ViewError.BadOffset }
    {
        let cells = self.reg_cells(parent)?;
        let value = self.value(node, b"reg")?;
        match (cells, value) {
            (Some(cells), Some(value)) => Ok(region_at(cells, value, index)),
            (Some(_), None) => Ok(None),
            (None, _) => Ok(None),
        }
    }
}
