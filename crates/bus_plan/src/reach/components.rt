//! The components of a plan.
ghost use Rattle.std.specs.Prelude.{◌≡◌, ℕ, ◌<◌, IfOk, length, slice_index};
ghost use Rattle.bus_plan.specs.Reach.Components.{AreComponents};

use crate::Plan;
use crate::reach::classes::classes_of;
use crate::reach::giving::give_all;
use std::alloc::{AllocError, Global};

// Each place by itself.
fn places(alloc: Global, count: usize) -> Result<Vec<usize>, AllocError>
    ensures long { IfOk result (λ places. length places.items ≡ count) }
    ensures same { IfOk result (λ places. (d : ℕ) → d < count → slice_index places.items d ≡ d) }
{
    let mut places = Vec::with_capacity(alloc, count)?;
    for place in 0..count {
        places.push(place)?;
    }
    Ok(places)
}

/// The component of each device, by its first device: two devices have one component where each takes the other, by its suppliers,
/// theirs and so on. The time is that of the devices and their suppliers.
pub fn components_of(alloc: Global, plan: &Plan) -> Result<Vec<usize>, AllocError>
    ensures { IfOk result (λ components. AreComponents plan.now components.items) }
{
    let classes = classes_of(alloc, plan)?;
    let mut components = places(alloc, plan.len())?;
    give_all(alloc, plan, classes.as_slice(), &mut components)?;
    Ok(components)
}
