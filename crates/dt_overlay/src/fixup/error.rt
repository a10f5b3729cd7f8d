//! Why an overlay isn't applied.
ghost use Rattle.std.specs.Prelude.{◌≡◌};
ghost use Rattle.dt_overlay.specs.Fixup.OverlayError.{name_of, number_of};

use crate::fixup::place::{FixupEntry, ValuePlace};
use crate::fixup::reason::{Clash, EntryFault, SymbolFault, TargetFault};
use std::alloc::{AllocError, AllocFailed};
use thiserror::Error;

/// Why an overlay isn't applied, and where. Nodes are counted in the order in which their tree is read, the root as 0.
#[derive(Debug, Clone, Copy, PartialEq, Eq, Drop, Error)]
pub enum OverlayError {
    #[error("out of memory")]
    NoMemory,
    #[error("no child of the root has a child `__overlay__`")]
    NotOverlay,
    #[error("the base has no node that a fragment targets")]
    NoTarget {
        /// the fragment's node in the overlay
        fragment: usize,
        fault: TargetFault,
    },
    #[error("the base has no such symbol, or its node has no phandle")]
    UnknownSymbol {
        /// the text in `__fixups__`; its property is named as the symbol
        entry: ValuePlace,
        site: ValuePlace,
        fault: SymbolFault,
    },
    #[error("a fixup that names no site for a phandle")]
    BadFixup {
        entry: FixupEntry,
        fault: EntryFault,
    },
    #[error("a phandle would be 0xffffffff or more")]
    PhandleOverflow {
        place: ValuePlace,
        phandle: u32,
        /// what would be added to it
        shift: usize,
    },
    #[error("two phandles for one node, or two nodes with one phandle")]
    PhandleClash(Clash),
    #[error("a node would be deeper than 64 levels")]
    TooDeep {
        /// the node of the overlay
        node: usize,
        /// the node of the base that its fragment targets
        target: usize,
    },
}

impl From<AllocError> for OverlayError {
    ghost use Rattle.std.specs.Prelude.{◌≡◌};
    ghost use Rattle.dt_overlay.specs.declared.fixup.error.OverlayError.TheVariants.{NoMemory};

    ghost from_gives = { λ _ e. e ≡ NoMemory };

    fn from(_e: AllocError) -> OverlayError {
        OverlayError::NoMemory
    }
}

impl<T: Drop> From<AllocFailed<T>> for OverlayError {
    ghost use Rattle.std.specs.Prelude.{◌≡◌};
    ghost use Rattle.dt_overlay.specs.declared.fixup.error.OverlayError.TheVariants.{NoMemory};

    ghost from_gives = { λ _ e. e ≡ NoMemory };

    fn from(_e: AllocFailed<T>) -> OverlayError {
        OverlayError::NoMemory
    }
}

impl OverlayError {
    /// The number of the error, 0 for want of memory.
    pub fn number(&self) -> u8
        ensures { result ≡ number_of self.now }
    {
        match self {
            OverlayError::NoMemory => 0,
            OverlayError::NotOverlay => 40,
            OverlayError::NoTarget { .. } => 41,
            OverlayError::UnknownSymbol { .. } => 42,
            OverlayError::BadFixup { .. } => 43,
            OverlayError::PhandleOverflow { .. } => 44,
            OverlayError::PhandleClash(_) => 45,
            OverlayError::TooDeep { .. } => 46,
        }
    }

    /// The name of the error, as its variant is written.
    pub fn name(&self) -> &'static str
        ensures { result.now ≡ name_of self.now }
    {
        match self {
            OverlayError::NoMemory => "NoMemory",
            OverlayError::NotOverlay => "NotOverlay",
            OverlayError::NoTarget { .. } => "NoTarget",
            OverlayError::UnknownSymbol { .. } => "UnknownSymbol",
            OverlayError::BadFixup { .. } => "BadFixup",
            OverlayError::PhandleOverflow { .. } => "PhandleOverflow",
            OverlayError::PhandleClash(_) => "PhandleClash",
            OverlayError::TooDeep { .. } => "TooDeep",
        }
    }
}
