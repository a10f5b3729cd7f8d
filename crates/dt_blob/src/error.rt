ghost use Rattle.std.specs.Prelude.{◌≡◌};
ghost use Rattle.dt_blob.specs.BlobError.{number_of, name_of};

use dt_tree::TreeError;
use std::alloc::{AllocError, AllocFailed};
use std::error::Error;
use std::fmt;
use std::fmt::{Display, Formatter, Write};

/// Why a blob or a text could not be made, or bytes are no blob.
#[derive(Clone, Copy, Debug, Drop, PartialEq, Eq)]
pub enum BlobError {
    NoMemory,
    Truncated,
    BadMagic,
    BadVersion,
    BadLayout,
    BadToken,
    BadString,
    PropertyAfterNode,
    BadTree,
    TooLarge,
}

impl From<AllocError> for BlobError {
    ghost use Rattle.std.specs.Prelude.{◌≡◌};
    ghost use Rattle.dt_blob.specs.declared.error.BlobError.TheVariants.{NoMemory};

    ghost from_gives = { λ _ e. e ≡ NoMemory };

    fn from(_e: AllocError) -> BlobError {
        BlobError::NoMemory
    }
}

impl<T: Drop> From<AllocFailed<T>> for BlobError {
    ghost use Rattle.std.specs.Prelude.{◌≡◌};
    ghost use Rattle.dt_blob.specs.declared.error.BlobError.TheVariants.{NoMemory};

    ghost from_gives = { λ _ e. e ≡ NoMemory };

    fn from(_e: AllocFailed<T>) -> BlobError {
        BlobError::NoMemory
    }
}

impl From<TreeError> for BlobError {
    ghost use Rattle.std.specs.Prelude.{◌≡◌};
    ghost use Rattle.dt_blob.specs.Steps.TreeFault.{fault_of_tree};

    ghost from_gives = { λ t e. e ≡ fault_of_tree t };

    fn from(e: TreeError) -> BlobError {
        match e {
            TreeError::NoMemory => BlobError::NoMemory,
            _ => BlobError::BadTree,
        }
    }
}

impl BlobError {
    /// The number of the error, 0 for want of memory.
    pub fn number(&self) -> u8
        ensures { result ≡ number_of self.now }
    {
        match self {
            BlobError::NoMemory => 0,
            BlobError::Truncated => 30,
            BlobError::BadMagic => 31,
            BlobError::BadVersion => 32,
            BlobError::BadLayout => 33,
            BlobError::BadToken => 34,
            BlobError::BadString => 35,
            BlobError::PropertyAfterNode => 36,
            BlobError::BadTree => 37,
            BlobError::TooLarge => 38,
        }
    }

    /// The name of the error, as its variant is written.
    pub fn name(&self) -> &'static str
        ensures { result.now ≡ name_of self.now }
    {
        match self {
            BlobError::NoMemory => "NoMemory",
            BlobError::Truncated => "Truncated",
            BlobError::BadMagic => "BadMagic",
            BlobError::BadVersion => "BadVersion",
            BlobError::BadLayout => "BadLayout",
            BlobError::BadToken => "BadToken",
            BlobError::BadString => "BadString",
            BlobError::PropertyAfterNode => "PropertyAfterNode",
            BlobError::BadTree => "BadTree",
            BlobError::TooLarge => "TooLarge",
        }
    }
}

impl BlobError {
    // What is wrong.
    fn text(&self) -> &'static str {
        match self {
            BlobError::NoMemory => "out of memory",
            BlobError::Truncated => "the bytes end before the blob does",
            BlobError::BadMagic => "the bytes do not begin with the magic number",
            BlobError::BadVersion => "the version is none that can be read",
            BlobError::BadLayout => "a block of the blob is out of place",
            BlobError::BadToken => "the structure block has a bad token",
            BlobError::BadString => "a name does not end inside its block",
            BlobError::PropertyAfterNode => "a property stands after a child node",
            BlobError::BadTree => "the nodes make no lawful tree",
            BlobError::TooLarge => "more than 268,435,456 bytes",
        }
    }
}

impl Display for BlobError {
    fn fmt<W: Write>(&self, f: &mut Formatter<W>) -> fmt::Result {
        f.write_str(self.text())
    }
}

impl Error for BlobError {}
