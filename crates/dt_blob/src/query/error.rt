//! Why a blob has no answer.
use crate::{BlobError, ReadError};
use std::alloc::AllocError;
use thiserror::Error;

/// Why a value isn't read or written.
#[derive(Debug, Clone, Copy, PartialEq, Eq, Drop, Error)]
pub enum QueryError {
    /// The bytes hold no tree, the blob that was asked for is too long, or memory is wanted.
    #[error("{0}")]
    Blob(BlobError),
    #[error("no node has this path")]
    NoNode,
    #[error("the node hasn't this property")]
    NoProperty,
}

impl From<BlobError> for QueryError {
    ghost use Rattle.std.specs.Prelude.{◌≡◌};
    ghost use Rattle.dt_blob.specs.declared.query.error.QueryError.TheVariants.{Blob};

    ghost from_gives = { λ error e. e ≡ Blob error };

    fn from(error: BlobError) -> QueryError {
        QueryError::Blob(error)
    }
}

impl From<ReadError> for QueryError {
    ghost use Rattle.std.specs.Prelude.{◌≡◌};
    ghost use Rattle.dt_blob.specs.declared.query.error.QueryError.TheVariants.{Blob};

    ghost from_gives = { λ refused e. e ≡ Blob refused.kind };

    fn from(refused: ReadError) -> QueryError {
        QueryError::Blob(refused.kind)
    }
}

impl From<AllocError> for QueryError {
    ghost use Rattle.std.specs.Prelude.{◌≡◌};
    ghost use Rattle.dt_blob.specs.declared.error.BlobError.TheVariants.{NoMemory};
    ghost use Rattle.dt_blob.specs.declared.query.error.QueryError.TheVariants.{Blob};

    ghost from_gives = { λ _ e. e ≡ Blob NoMemory };

    fn from(_error: AllocError) -> QueryError {
        QueryError::Blob(BlobError::NoMemory)
    }
}
