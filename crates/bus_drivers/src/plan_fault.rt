//! Why a tree has no plan, and which of its properties can't be read.
ghost use Rattle.std.specs.Prelude.{◌≡◌};
ghost use Rattle.bus_plan.specs.declared.error.PlanError.TheVariants.{NoMemory};

use bus_plan::PlanError;
use std::alloc::{AllocError, AllocFailed};
use std::marker::Model;

/// An entry of a property that lists suppliers: its place among the entries, from 1, and the offset of its phandle in the value, in
/// bytes.
#[derive(Clone, Copy, Debug, PartialEq, Eq)]
pub struct Entry {
    pub number: usize,
    pub offset: usize,
}

/// What stands before the first entry.
pub(crate) const NO_ENTRY: Entry = Entry {
    number: 0,
    offset: 0,
};

impl Entry {
    /// The next entry, of a value of so many bytes: so many stand behind its phandle.
    pub(crate) fn next(self, length: usize, behind: usize) -> Entry {
        Entry {
            number: self.number.saturating_add(1),
            offset: length.saturating_sub(behind).saturating_sub(4),
        }
    }
}

/// A property that can't be read: its device and its place among that one's properties, both from 0, and the entry at fault; none where
/// it is the length of the value.
#[derive(Clone, Copy, Debug, PartialEq, Eq)]
pub struct Culprit {
    pub device: usize,
    pub property: usize,
    pub entry: Option<Entry>,
}

/// The refusal of a plan, with the property that it is of where it is of one (54 and 55). Contracts see the error.
#[derive(Debug, Drop)]
pub struct PlanFault {
    error: PlanError,
    culprit: Option<Culprit>,
}

impl Model for PlanFault {
    ghost use Rattle.bus_plan.specs.declared.error.PlanError.{PlanError as Data};

    ghost Value = { Data };

    ghost view = { λ f. f.error };
}

impl PlanFault {
    pub(crate) fn of(error: PlanError, culprit: Culprit) -> Self
        ensures { result ≡ error }
    {
        Self {
            error,
            culprit: Some(culprit),
        }
    }

    /// The error.
    pub fn error(&self) -> PlanError
        ensures { result ≡ self.now }
    {
        self.error
    }

    /// The property that can't be read.
    pub fn culprit(&self) -> Option<Culprit> {
        self.culprit
    }
}

impl From<PlanError> for PlanFault {
    ghost from_gives = { λ error fault. fault ≡ error };

    fn from(error: PlanError) -> Self {
        Self {
            error,
            culprit: None,
        }
    }
}

impl From<AllocError> for PlanFault {
    ghost from_gives = { λ _ fault. fault ≡ NoMemory };

    fn from(_error: AllocError) -> Self {
        Self::from(PlanError::NoMemory)
    }
}

impl<T: Drop> From<AllocFailed<T>> for PlanFault {
    ghost from_gives = { λ _ fault. fault ≡ NoMemory };

    fn from(_error: AllocFailed<T>) -> Self {
        Self::from(PlanError::NoMemory)
    }
}
