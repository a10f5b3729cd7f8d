//! Why the edits of a source stop.
ghost use Rattle.std.specs.Prelude.{◌≡◌};
ghost use Rattle.dt_build.specs.Edit.Private.LabelFault.{edit_error};
ghost use Rattle.dt_build.specs.Edit.Private.PlaceFault.{place_error};
ghost use Rattle.dt_build.specs.Edit.Private.StandFault.{stand_error};

use dt_live::LabelError;
use dt_live::placed::{PlaceError, StandError};
use std::alloc::AllocError;

/// What stops the edits of a source.
#[derive(Debug, Clone, Copy, PartialEq, Eq, Drop)]
pub enum EditErrorKind {
    NoMemory,
    UnknownLabel,
    DuplicateLabel,
    UnknownPath,
    DuplicateInBody,
    ReservedName,
    TooDeep,
}

/// Why the edits of a source stop, and where in its text.
#[derive(Debug, Clone, Copy, PartialEq, Eq, Drop)]
pub struct EditError {
    pub kind: EditErrorKind,
    /// where the name or the reference begins that is at fault, in bytes; of no meaning for want of memory
    pub at: u32,
}

impl From<AllocError> for EditError {
    ghost use Rattle.std.specs.Prelude.{◌≡◌};
    ghost use Rattle.dt_build.specs.declared.edit.error.EditErrorKind.TheVariants.{NoMemory};

    ghost from_gives = { λ _ e. e.kind ≡ NoMemory };

    fn from(_e: AllocError) -> EditError {
        EditError {
            kind: EditErrorKind::NoMemory,
            at: 0,
        }
    }
}

impl EditError {
    pub(crate) fn of_label(error: LabelError, at: u32) -> EditError
        ensures kind { result.kind ≡ edit_error error }
        ensures place { result.at ≡ at }
    {
        let kind = match error {
            LabelError::NoMemory => EditErrorKind::NoMemory,
            LabelError::DuplicateLabel => EditErrorKind::DuplicateLabel,
        };
        EditError { kind, at }
    }

    pub(crate) fn of_place(error: PlaceError, at: u32) -> EditError
        ensures kind { result.kind ≡ place_error error }
        ensures place { result.at ≡ at }
    {
        let kind = match error {
            PlaceError::NoMemory => EditErrorKind::NoMemory,
            PlaceError::DuplicateInBody => EditErrorKind::DuplicateInBody,
        };
        EditError { kind, at }
    }

    pub(crate) fn of_stand(error: StandError) -> EditError
        ensures { result.kind ≡ stand_error error }
    {
        match error {
            StandError::NoMemory => EditError {
                kind: EditErrorKind::NoMemory,
                at: 0,
            },
            StandError::DuplicateLabel { at } => EditError {
                kind: EditErrorKind::DuplicateLabel,
                at,
            },
        }
    }
}
