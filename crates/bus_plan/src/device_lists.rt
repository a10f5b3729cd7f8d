ghost use Rattle.std.specs.Prelude.{◌≡◌, ◌<◌, [], IfOk, length, map};
ghost use Rattle.std.specs.List.{slice_index_or};

use crate::device::Device;
use std::alloc::{AllocError, Global};
use std::marker::Model;

/// Lists of devices, one behind the other in one block that has no spare room.
#[derive(Drop)]
pub struct DeviceLists {
    starts: Vec<usize>,
    block: Vec<Device>,
}

impl Model for DeviceLists {
    ghost use Rattle.std.specs.Prelude.{List, ℕ};
    ghost use Rattle.bus_plan.specs.Private.DeviceLists.{lists_in, IsCut};

    ghost Value = { List (List ℕ) };

    ghost view = { λ lists. lists_in lists.starts.items lists.block.items };

    ghost invariant = { λ lists. IsCut lists.starts.items lists.block.items };
}

impl DeviceLists {
    /// These lists.
    pub fn of(alloc: Global, lists: &[Vec<Device>]) -> Result<Self, AllocError>
        ensures { IfOk result (λ kept. kept ≡ map (λ list. list.items) lists.now) }
    {
        let mut starts = Vec::with_capacity(alloc, lists.len() + 1)?;
        starts.push(0)?;
        let mut block = Vec::new(alloc);
        for list in lists {
            block.extend_from_slice(list.as_slice())?;
            starts.push(block.len())?;
        }
        block.shrink_to_fit();
        Ok(Self { starts, block })
    }

    /// The list at a place.
    pub fn at(&self, place: usize) -> &[Device]
        requires { place < length self.now }
        ensures { result.now ≡ slice_index_or self.now place [] }
    {
        &self.block[self.starts[place]..self.starts[place + 1]]
    }
}
