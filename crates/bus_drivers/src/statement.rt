ghost use Rattle.std.specs.Prelude.{◌≡◌, ◌⊎◌, ◌++◌, IfOk, IfErr, OnOk, MatchResult, Some, None};
ghost use Rattle.bus_plan.specs.declared.error.PlanError.TheVariants.{NoMemory, BadLine};
ghost use Rattle.bus_plan.specs.Plan.{is_driver_name};
ghost use Rattle.bus_plan.specs.PlanFile.{Answers};
ghost use Rattle.bus_drivers.specs.DriverFile.{driver_of, fail_of, statement_of, meaning};

use crate::driver::Driver;
use crate::fail_line::FailLine;
use bus_plan::{Fields, PlanError, copy_fields, is_driver_name};
use dt_tree::{Bytes, Name, Path, is_name, is_path};
use std::alloc::{AllocError, Global};

/// What a line of a driver file says.
#[derive(Debug, Drop)]
pub enum Statement {
    /// `driver NAME COMPATIBLE..`
    Matches(Driver),
    /// `fail PATH`
    Fails(FailLine),
}

fn driver_of(
    alloc: Global,
    name: &[u8],
    compatibles: Fields<'_>,
) -> Result<Option<Statement>, PlanError>
    ensures { MatchResult result
        (λ s. s ≡ driver_of name.now compatibles.entry) (λ e. e ≡ NoMemory) }
{
    if !is_driver_name(name) {
        return Ok(None);
    }
    let compatibles = copy_fields(alloc, compatibles)?;
    if compatibles.is_empty() {
        return Ok(None);
    }
    let Ok(name) = Name::new(alloc, name) else {
        return Err(PlanError::NoMemory);
    };
    Ok(Some(Statement::Matches(Driver::new(name, compatibles))))
}

fn fail_of(
    alloc: Global,
    number: usize,
    path: &[u8],
    mut more: Fields<'_>,
) -> Result<Option<Statement>, PlanError>
    ensures { MatchResult result
        (λ s. s ≡ fail_of number path.now more.entry) (λ e. e ≡ NoMemory) }
{
    if more.next().is_some() {
        return Ok(None);
    }
    if !is_path(path) {
        return Ok(None);
    }
    let Ok(path) = Path::parse(alloc, path) else {
        return Err(PlanError::NoMemory);
    };
    Ok(Some(Statement::Fails(FailLine::new(path, number))))
}

fn statement_of(
    alloc: Global,
    number: usize,
    mut fields: Fields<'_>,
) -> Result<Option<Statement>, PlanError>
    ensures { MatchResult result
        (λ s. s ≡ statement_of number fields.entry) (λ e. e ≡ NoMemory) }
{
    let Some(word) = fields.next() else {
        return Ok(None);
    };
    let Some(first) = fields.next() else {
        return Ok(None);
    };
    if word == b"driver".as_slice() {
        return driver_of(alloc, first, fields);
    }
    if word == b"fail".as_slice() {
        return fail_of(alloc, number, first, fields);
    }
    Ok(None)
}

impl Statement {
    /// What a line says: a statement, or nothing where it is skipped.
    pub fn read(alloc: Global, number: usize, line: &[u8]) -> Result<Option<Self>, PlanError>
        ensures { Answers (meaning number line.now) result }
    {
        let Some(fields) = Fields::read(number, line)? else {
            return Ok(None);
        };
        match statement_of(alloc, number, fields)? {
            None => Err(PlanError::BadLine(number)),
            Some(statement) => Ok(Some(statement)),
        }
    }
}
