ghost use Rattle.std.specs.Prelude.{◌≡◌};
ghost use Rattle.bus_plan.specs.PlanError.{number_of, name_of, line_of};
ghost use Rattle.bus_plan.specs.declared.error.PlanError.TheVariants.{NoMemory};

use std::alloc::{AllocError, AllocFailed};
use std::error::Error;
use std::fmt;
use std::fmt::{Display, Formatter, Write};

/// Why a text of the bus or a plan is refused. A line counts all lines of the text, from 1.
#[derive(Clone, Copy, Debug, PartialEq, Eq)]
pub enum PlanError {
    NoMemory,
    BadLine(usize),
    DuplicateDriver(usize),
    DuplicateDevice(usize),
    UnknownPath(usize),
    DanglingPhandle,
    BadSpecifier,
    TooManyDevices,
}

impl PlanError {
    /// The number that the program prints.
    pub fn number(&self) -> u8
        ensures { result ≡ number_of self.now }
    {
        match self {
            PlanError::NoMemory => 0,
            PlanError::BadLine(_) => 50,
            PlanError::DuplicateDriver(_) => 51,
            PlanError::DuplicateDevice(_) => 52,
            PlanError::UnknownPath(_) => 53,
            PlanError::DanglingPhandle => 54,
            PlanError::BadSpecifier => 55,
            PlanError::TooManyDevices => 56,
        }
    }

    /// The name that the program prints.
    pub fn name(&self) -> &'static str
        ensures { result.now ≡ name_of self.now }
    {
        match self {
            PlanError::NoMemory => "NoMemory",
            PlanError::BadLine(_) => "BadLine",
            PlanError::DuplicateDriver(_) => "DuplicateDriver",
            PlanError::DuplicateDevice(_) => "DuplicateDevice",
            PlanError::UnknownPath(_) => "UnknownPath",
            PlanError::DanglingPhandle => "DanglingPhandle",
            PlanError::BadSpecifier => "BadSpecifier",
            PlanError::TooManyDevices => "TooManyDevices",
        }
    }

    /// The line at fault, where the fault is in one line.
    pub fn line(&self) -> Option<usize>
        ensures { result ≡ line_of self.now }
    {
        match self {
            PlanError::NoMemory => None,
            PlanError::BadLine(line) => Some(*line),
            PlanError::DuplicateDriver(line) => Some(*line),
            PlanError::DuplicateDevice(line) => Some(*line),
            PlanError::UnknownPath(line) => Some(*line),
            PlanError::DanglingPhandle => None,
            PlanError::BadSpecifier => None,
            PlanError::TooManyDevices => None,
        }
    }
}

impl PlanError {
    // What is wrong, or what the line at fault does.
    fn text(&self) -> &'static str {
        match self {
            PlanError::NoMemory => "out of memory",
            PlanError::BadLine(_) => "has no lawful form",
            PlanError::DuplicateDriver(_) => "repeats a driver's name",
            PlanError::DuplicateDevice(_) => "repeats a device's path",
            PlanError::UnknownPath(_) => "names a path that is no device's",
            PlanError::DanglingPhandle => "a phandle leads to no node",
            PlanError::BadSpecifier => "a specifier has no lawful form",
            PlanError::TooManyDevices => "more devices than a plan may have",
        }
    }
}

impl Display for PlanError {
    fn fmt<W: Write>(&self, f: &mut Formatter<W>) -> fmt::Result {
        match self.line() {
            Some(line) => write!(f, "line {line} {}", self.text()),
            None => f.write_str(self.text()),
        }
    }
}

impl Error for PlanError {}

impl From<AllocError> for PlanError {
    ghost from_gives = { λ _ error. error ≡ NoMemory };

    fn from(_error: AllocError) -> PlanError {
        PlanError::NoMemory
    }
}

impl<T: Drop> From<AllocFailed<T>> for PlanError {
    ghost from_gives = { λ _ error. error ≡ NoMemory };

    fn from(_error: AllocFailed<T>) -> PlanError {
        PlanError::NoMemory
    }
}
