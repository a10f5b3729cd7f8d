ghost use Rattle.std.specs.Prelude.{◌≡◌, ◌⊎◌, IfOk, IfErr, None, Some};

use crate::device_line::is_device_path;
use crate::error::PlanError;
use crate::fields::Fields;
use crate::strings::copy_fields;
use dt_tree::Bytes;
use std::alloc::Global;
use std::marker::Model;

/// The strings that a line of a plan file lists for the device at a path.
#[derive(Drop)]
pub struct StringsLine<'a> {
    number: usize,
    path: &'a [u8],
    strings: Vec<Bytes>,
}

impl<'a> Model for StringsLine<'a> {
    ghost use Rattle.bus_plan.specs.PlanLines.{StringsLine as Line};

    ghost Value = { Line };

    ghost view = { λ s. record { number = s.number; path = s.path.now; strings = s.strings.items } };
}

impl<'a> StringsLine<'a> {
    ghost use Rattle.bus_plan.specs.PlanFile.{strings_of};

    /// Those of a line with these fields behind its first word.
    pub fn of(alloc: Global, number: usize, mut fields: Fields<'a>) -> Result<Self, PlanError>
        ensures ok { IfOk result (λ s. strings_of number fields.entry ≡ Some s) }
        ensures err { IfErr result (λ e. (e ≡ PlanError.NoMemory)
            ⊎ ((e ≡ PlanError.BadLine number) × (strings_of number fields.entry ≡ None))) }
    {
        let path = fields.next().ok_or(PlanError::BadLine(number))?;
        let strings = copy_fields(alloc, fields)?;
        if strings.is_empty() || !is_device_path(path) {
            return Err(PlanError::BadLine(number));
        }
        Ok(Self {
            number,
            path,
            strings,
        })
    }

    /// The line's number, from 1.
    pub fn number(&self) -> usize
        ensures { result ≡ self.now.number }
    {
        self.number
    }

    /// The device's path.
    pub fn path(&self) -> &'a [u8]
        ensures { result.now ≡ self.now.path }
    {
        self.path
    }

    /// The strings, one at least.
    pub fn strings(&self) -> &[Bytes]
        ensures { result.now ≡ self.now.strings }
    {
        self.strings.as_slice()
    }
}
