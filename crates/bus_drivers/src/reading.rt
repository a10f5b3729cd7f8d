ghost use Rattle.std.specs.Prelude.{◌≡◌, ◌⊎◌, Ok, Err, MatchResult};
ghost use Rattle.bus_plan.specs.declared.error.PlanError.TheVariants.{NoMemory};
ghost use Rattle.bus_plan.specs.Lines.{lines};
ghost use Rattle.bus_plan.specs.PlanFile.{Answers};
ghost use Rattle.bus_drivers.specs.DriverFile.{meaning, reading, with_line, with_lines};

use crate::driver_set::DriverSet;
use crate::driver_set_builder::DriverSetBuilder;
use crate::statement::Statement;
use bus_plan::{PlanError, lines_of};
use std::alloc::Global;
use std::hash::RandomState;

// Adds what a line says.
fn read_line(
    alloc: Global,
    builder: &mut DriverSetBuilder,
    number: usize,
    line: &[u8],
) -> Result<(), PlanError>
    ensures { let read = with_line number builder.old (meaning number line.now) in
        MatchResult result (λ _. read ≡ Ok builder.new) (λ e. (e ≡ NoMemory) ⊎ (read ≡ Err e)) }
{
    match Statement::read(alloc, number, line)? {
        None => Ok(()),
        Some(statement) => builder.add(alloc, number, statement),
    }
}

// Adds what the lines say.
fn read_lines(alloc: Global, builder: &mut DriverSetBuilder, text: &[u8]) -> Result<(), PlanError>
    ensures { let read = with_lines 1 (Ok builder.old) (lines text.now) in
        MatchResult result (λ _. read ≡ Ok builder.new) (λ e. (e ≡ NoMemory) ⊎ (read ≡ Err e)) }
{
    let mut number = 0;
    for line in lines_of(text) {
        number += 1;
        read_line(alloc, builder, number, line)?;
    }
    Ok(())
}

/// Reads a driver file. The first fault in line order is answered.
pub fn read_drivers(alloc: Global, hasher: RandomState, text: &[u8]) -> Result<DriverSet, PlanError>
    ensures { Answers (reading text.now) result }
{
    let mut builder = DriverSetBuilder::new(alloc, hasher);
    read_lines(alloc, &mut builder, text)?;
    Ok(builder.finish())
}
