ghost use Rattle.bus_plan.specs.PlanFile.{reading, Answers};

use crate::error::PlanError;
use crate::plan::Plan;
use crate::plan_file::PlanFile;
use std::alloc::Global;
use std::hash::RandomState;

/// Reads a plan file. The first fault in line order is answered; unknown suppliers come after all other faults.
pub fn read_plan(alloc: Global, hasher: RandomState, text: &[u8]) -> Result<Plan, PlanError>
    ensures { Answers (reading text.now) result }
{
    let file = PlanFile::read(alloc, hasher, text)?;
    file.plan(alloc)
}
