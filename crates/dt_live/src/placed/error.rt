//! Why a single edit is refused.
ghost use Rattle.std.specs.Prelude.{◌≡◌};

use std::alloc::{AllocError, AllocFailed};

/// Why a single edit is refused.
#[derive(Debug, Clone, Copy, PartialEq, Eq, Drop)]
pub enum PlaceError {
    NoMemory,
    DuplicateInBody,
}

impl From<AllocError> for PlaceError {
    ghost use Rattle.std.specs.Prelude.{◌≡◌};
    ghost use Rattle.dt_live.specs.declared.placed.error.PlaceError.TheVariants.{NoMemory};

    ghost from_gives = { λ _ e. e ≡ NoMemory };

    fn from(_e: AllocError) -> PlaceError {
        PlaceError::NoMemory
    }
}

impl<T: Drop> From<AllocFailed<T>> for PlaceError {
    ghost use Rattle.std.specs.Prelude.{◌≡◌};
    ghost use Rattle.dt_live.specs.declared.placed.error.PlaceError.TheVariants.{NoMemory};

    ghost from_gives = { λ _ e. e ≡ NoMemory };

    fn from(_e: AllocFailed<T>) -> PlaceError {
        PlaceError::NoMemory
    }
}

/// Why what is left of a tree can't be shown.
#[derive(Debug, Clone, Copy, PartialEq, Eq, Drop)]
pub enum StandError {
    NoMemory,
    /// A label stands at two nodes: where the name or the reference begins before which it stands the second time, in bytes.
    DuplicateLabel { at: u32 },
}

impl From<AllocError> for StandError {
    ghost use Rattle.std.specs.Prelude.{◌≡◌};
    ghost use Rattle.dt_live.specs.declared.placed.error.StandError.TheVariants.{NoMemory};

    ghost from_gives = { λ _ e. e ≡ NoMemory };

    fn from(_e: AllocError) -> StandError {
        StandError::NoMemory
    }
}

impl<T: Drop> From<AllocFailed<T>> for StandError {
    ghost use Rattle.std.specs.Prelude.{◌≡◌};
    ghost use Rattle.dt_live.specs.declared.placed.error.StandError.TheVariants.{NoMemory};

    ghost from_gives = { λ _ e. e ≡ NoMemory };

    fn from(_e: AllocFailed<T>) -> StandError {
        StandError::NoMemory
    }
}
