ghost use Rattle.std.specs.Prelude.{◌≡◌, ◌≢◌, ℕ, ◌<◌, [], All, AllPairs, IfOk, OnOk, length, map, replicate};
ghost use Rattle.bus_plan.specs.Plan.{suppliers_of};
ghost use Rattle.bus_plan.specs.Consumers.{consumers_of, devices};
ghost use Rattle.bus_plan.specs.Private.DeviceLists.{IsAdded};

use crate::device::Device;
use crate::device_lists::DeviceLists;
use crate::planned::Planned;
use std::alloc::{AllocError, Global};

fn empty_lists(alloc: Global, count: usize) -> Result<Vec<Vec<Device>>, AllocError>
    ensures { IfOk result (λ lists. map (λ list. list.items) lists.items ≡ replicate count []) }
{
    let mut lists = Vec::with_capacity(alloc, count)?;
    for _ in 0..count {
        lists.push(Vec::new(alloc))?;
    }
    Ok(lists)
}

fn add_consumer(
    lists: &mut Vec<Vec<Device>>,
    consumer: Device,
    suppliers: &[Device],
) -> Result<(), AllocError>
    requires within { All (λ s. s < length lists.old.items) suppliers.now }
    requires apart { AllPairs (λ a b. a ≢ b) suppliers.now }
    ensures { OnOk result (IsAdded (map (λ list. list.items) lists.old.items)
        (map (λ list. list.items) lists.new.items) consumer suppliers.now) }
{
    for supplier in suppliers {
        lists[supplier.index()].push(consumer)?;
    }
    Ok(())
}

/// The consumers of each device, by one pass over the suppliers of each.
pub fn consumer_lists(alloc: Global, plan: &[Planned]) -> Result<DeviceLists, AllocError>
    requires within { (d : ℕ) → All (λ s. s < length plan.now) (suppliers_of plan.now d) }
    requires apart { (d : ℕ) → AllPairs (λ a b. a ≢ b) (suppliers_of plan.now d) }
    ensures { IfOk result (λ lists. lists ≡ map (consumers_of plan.now) (devices plan.now)) }
{
    let mut lists = empty_lists(alloc, plan.len())?;
    for (place, device) in plan.iter().enumerate() {
        add_consumer(&mut lists, Device::new(place), device.suppliers())?;
    }
    DeviceLists::of(alloc, lists.as_slice())
}
