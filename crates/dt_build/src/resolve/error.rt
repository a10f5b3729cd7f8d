//! Why a source makes no tree.
ghost use Rattle.std.specs.Prelude.{◌≡◌};
ghost use Rattle.dt_build.specs.Resolve.BuildError.{name_of, number_of};

use crate::edit::{EditError, EditErrorKind};
use std::alloc::{AllocError, AllocFailed};
use thiserror::Error;

/// What is wrong with a source that makes no tree.
#[derive(Debug, Clone, Copy, PartialEq, Eq, Drop, Error)]
pub enum BuildErrorKind {
    #[error("out of memory")]
    NoMemory,
    #[error("no node has this label")]
    UnknownLabel,
    #[error("another node has this label")]
    DuplicateLabel,
    #[error("no node has this path")]
    UnknownPath,
    #[error("a phandle that is not 4 plain bytes, or is 0 or 0xffffffff")]
    BadPhandle,
    #[error("two nodes have one phandle")]
    DuplicatePhandle,
    #[error("a body defines a name twice")]
    DuplicateInBody,
    #[error("a path in cells of a plugin")]
    PathInPlugin,
    #[error("a name or a node that is kept for other uses")]
    ReservedName,
    #[error("a node is deeper than 64 levels")]
    TooDeep,
}

/// Why a source makes no tree, and where in its text.
#[derive(Debug, Clone, Copy, PartialEq, Eq, Drop, Error)]
#[error("{kind}")]
pub struct BuildError {
    pub kind: BuildErrorKind,
    /// where the name or the reference begins that is at fault, in bytes; of no meaning for want of memory
    pub at: u32,
}

impl From<AllocError> for BuildError {
    ghost use Rattle.std.specs.Prelude.{◌≡◌};
    ghost use Rattle.dt_build.specs.declared.resolve.error.BuildErrorKind.TheVariants.{NoMemory};

    ghost from_gives = { λ _ e. e.kind ≡ NoMemory };

    fn from(_e: AllocError) -> BuildError {
        BuildError {
            kind: BuildErrorKind::NoMemory,
            at: 0,
        }
    }
}

impl<T: Drop> From<AllocFailed<T>> for BuildError {
    ghost use Rattle.std.specs.Prelude.{◌≡◌};
    ghost use Rattle.dt_build.specs.declared.resolve.error.BuildErrorKind.TheVariants.{NoMemory};

    ghost from_gives = { λ _ e. e.kind ≡ NoMemory };

    fn from(_e: AllocFailed<T>) -> BuildError {
        BuildError {
            kind: BuildErrorKind::NoMemory,
            at: 0,
        }
    }
}

impl From<EditError> for BuildError {
    ghost use Rattle.std.specs.Prelude.{◌≡◌};
    ghost use Rattle.dt_build.specs.Resolve.BuildFault.{build_error};

    ghost from_gives = { λ a e. (e.kind ≡ build_error a.kind) × (e.at ≡ a.at) };

    fn from(e: EditError) -> BuildError {
        let kind = match e.kind {
            EditErrorKind::NoMemory => BuildErrorKind::NoMemory,
            EditErrorKind::UnknownLabel => BuildErrorKind::UnknownLabel,
            EditErrorKind::DuplicateLabel => BuildErrorKind::DuplicateLabel,
            EditErrorKind::UnknownPath => BuildErrorKind::UnknownPath,
            EditErrorKind::DuplicateInBody => BuildErrorKind::DuplicateInBody,
            EditErrorKind::ReservedName => BuildErrorKind::ReservedName,
            EditErrorKind::TooDeep => BuildErrorKind::TooDeep,
        };
        BuildError { kind, at: e.at }
    }
}

impl BuildErrorKind {
    /// The number of the error, 0 for want of memory.
    pub fn number(&self) -> u8
        ensures { result ≡ number_of self.now }
    {
        match self {
            BuildErrorKind::NoMemory => 0,
            BuildErrorKind::UnknownLabel => 20,
            BuildErrorKind::DuplicateLabel => 21,
            BuildErrorKind::UnknownPath => 22,
            BuildErrorKind::BadPhandle => 23,
            BuildErrorKind::DuplicatePhandle => 24,
            BuildErrorKind::DuplicateInBody => 25,
            BuildErrorKind::PathInPlugin => 26,
            BuildErrorKind::ReservedName => 27,
            BuildErrorKind::TooDeep => 28,
        }
    }

    /// The name of the error, as its variant is written.
    pub fn name(&self) -> &'static str
        ensures { result.now ≡ name_of self.now }
    {
        match self {
            BuildErrorKind::NoMemory => "NoMemory",
            BuildErrorKind::UnknownLabel => "UnknownLabel",
            BuildErrorKind::DuplicateLabel => "DuplicateLabel",
            BuildErrorKind::UnknownPath => "UnknownPath",
            BuildErrorKind::BadPhandle => "BadPhandle",
            BuildErrorKind::DuplicatePhandle => "DuplicatePhandle",
            BuildErrorKind::DuplicateInBody => "DuplicateInBody",
            BuildErrorKind::PathInPlugin => "PathInPlugin",
            BuildErrorKind::ReservedName => "ReservedName",
            BuildErrorKind::TooDeep => "TooDeep",
        }
    }
}

impl BuildError {
    /// The number of the error, 0 for want of memory.
    pub fn number(&self) -> u8
        ensures { result ≡ number_of self.now.kind }
    {
        self.kind.number()
    }

    /// The name of the error, as its variant is written.
    pub fn name(&self) -> &'static str
        ensures { result.now ≡ name_of self.now.kind }
    {
        self.kind.name()
    }
}
