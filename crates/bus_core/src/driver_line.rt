//! The line of a schedule by which a driver comes late.

ghost use Rattle.std.specs.Prelude.{◌≡◌, List, IfOk};
ghost use Rattle.bus_plan.specs.Plan.{PlannedDevice};
ghost use Rattle.bus_plan.specs.PlanFile.{Answers};
ghost use Rattle.bus_core.specs.Replay.{IsEventOf};
ghost use Rattle.bus_core.specs.Schedule.{driver_event};

use crate::compatibles::Compatibles;
use crate::event::Event;
use bus_plan::{Fields, PlanError, copy_fields, is_driver_name};
use dt_tree::Name;
use std::alloc::Global;

/// The event of a line `driver NAME COMPATIBLE..`, by what stands behind its first word.
pub fn driver_event(
    alloc: Global,
    number: usize,
    mut fields: Fields<'_>,
) -> Result<Event, PlanError>
    ensures event { Answers (driver_event number fields.entry) result }
    ensures within { IfOk result (λ event. (plan : List PlannedDevice) → IsEventOf plan event) }
{
    let Some(name) = fields.next() else {
        return Err(PlanError::BadLine(number));
    };
    if !is_driver_name(name) {
        return Err(PlanError::BadLine(number));
    }
    let strings = copy_fields(alloc, fields)?;
    if strings.is_empty() {
        return Err(PlanError::BadLine(number));
    }
    let Ok(name) = Name::new(alloc, name) else {
        return Err(PlanError::NoMemory);
    };
    Ok(Event::Register(name, Compatibles::new(strings)))
}
