ghost use Rattle.std.specs.Prelude.{◌≡◌, ◌⊎◌, IfOk, IfErr, None, Some};

use crate::device_line::DeviceLine;
use crate::error::PlanError;
use crate::fields::Fields;
use crate::strings_line::StringsLine;
use std::alloc::Global;

/// What a line of a plan file says.
#[derive(Drop)]
pub enum PlanLine<'a> {
    /// `PATH DRIVER ok SUPPLIER..` and its like
    Device(DeviceLine<'a>),
    /// `compatible PATH STRING..`
    Strings(StringsLine<'a>),
}

impl<'a> PlanLine<'a> {
    ghost use Rattle.bus_plan.specs.PlanFile.{said_by, meaning, Answers};

    // What a line with these fields says.
    fn of(alloc: Global, number: usize, mut fields: Fields<'a>) -> Result<Self, PlanError>
        ensures ok { IfOk result (λ said. said_by number fields.entry ≡ Some said) }
        ensures err { IfErr result (λ e. (e ≡ PlanError.NoMemory)
            ⊎ ((e ≡ PlanError.BadLine number) × (said_by number fields.entry ≡ None))) }
    {
        let word = fields.next().ok_or(PlanError::BadLine(number))?;
        if word == b"compatible".as_slice() {
            return Ok(PlanLine::Strings(StringsLine::of(alloc, number, fields)?));
        }
        Ok(PlanLine::Device(DeviceLine::of(alloc, number, word, fields)?))
    }

    /// What a line says, or nothing where it is skipped.
    pub fn read(alloc: Global, number: usize, line: &'a [u8]) -> Result<Option<Self>, PlanError>
        ensures { Answers (meaning number line.now) result }
    {
        match Fields::read(number, line)? {
            Some(fields) => Ok(Some(Self::of(alloc, number, fields)?)),
            None => Ok(None),
        }
    }
}
