ghost use Rattle.std.specs.Prelude.{◌≡◌, ◌<◌, length};
ghost use Rattle.bus_plan.specs.Reach.Reached.{next};

use crate::{Device, Plan};

/// Which way a walk goes from a device.
#[derive(Clone, Copy, Debug, PartialEq, Eq)]
pub enum Direction {
    /// To its suppliers.
    Suppliers,
    /// To its consumers.
    Consumers,
}

/// The devices next to one.
pub fn next_to<'p>(plan: &'p Plan, direction: Direction, device: Device) -> &'p [Device]
    requires { device < length plan.now }
    ensures { result.now ≡ next direction plan.now device }
{
    match direction {
        Direction::Suppliers => plan.suppliers(device),
        Direction::Consumers => plan.consumers(device),
    }
}
