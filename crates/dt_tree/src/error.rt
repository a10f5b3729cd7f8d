ghost use Rattle.std.specs.Prelude.{◌≡◌};
ghost use Rattle.dt_tree.specs.TreeError.{number_of, name_of};

use std::alloc::AllocError;
use thiserror::Error;

/// Why a name, a path, a node or a tree could not be made.
#[derive(Debug, Clone, Copy, PartialEq, Eq, Drop, Error)]
pub enum TreeError {
    #[error("out of memory")]
    NoMemory,
    #[error("no lawful name or path, or a child without a name, or a root with one")]
    BadName,
    #[error("two properties of a node have one name")]
    DuplicateProperty,
    #[error("two children of a node have one name")]
    DuplicateNode,
    #[error("a node is deeper than 64 levels")]
    TooDeep,
    #[error("no node has this path")]
    NoSuchPath,
}

impl From<AllocError> for TreeError {
    ghost use Rattle.std.specs.Prelude.{◌≡◌};
    ghost use Rattle.dt_tree.specs.declared.error.TreeError.TheVariants.{NoMemory};

    ghost from_gives = { λ _ e. e ≡ NoMemory };

    fn from(_e: AllocError) -> TreeError {
        TreeError::NoMemory
    }
}

impl TreeError {
    /// The number by which users know the error, 0 for want of memory.
    pub fn number(&self) -> u8
        ensures { result ≡ number_of self.now }
    {
        match self {
            TreeError::NoMemory => 0,
            TreeError::BadName => 1,
            TreeError::DuplicateProperty => 2,
            TreeError::DuplicateNode => 3,
            TreeError::TooDeep => 4,
            TreeError::NoSuchPath => 5,
        }
    }

    /// The name that stands beside the number.
    pub fn name(&self) -> &'static str
        ensures { result.now ≡ name_of self.now }
    {
        match self {
            TreeError::NoMemory => "NoMemory",
            TreeError::BadName => "BadName",
            TreeError::DuplicateProperty => "DuplicateProperty",
            TreeError::DuplicateNode => "DuplicateNode",
            TreeError::TooDeep => "TooDeep",
            TreeError::NoSuchPath => "NoSuchPath",
        }
    }
}
