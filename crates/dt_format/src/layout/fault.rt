//! Why tokens aren't laid out.
use std::alloc::{AllocError, AllocFailed};

/// What is wrong with a brace.
#[derive(Clone, Copy, PartialEq, Eq, Debug)]
pub(crate) enum BraceFault {
    /// It isn't closed.
    Open,
    /// It closes nothing.
    Stray,
    TooDeep,
}

/// Why tokens aren't laid out: a brace at this place, or want of memory.
#[derive(Clone, Copy, PartialEq, Eq, Debug)]
pub(crate) enum LayoutError {
    Braces(BraceFault, usize),
    NoMemory,
}

impl From<AllocError> for LayoutError {
    fn from(_e: AllocError) -> LayoutError {
        LayoutError::NoMemory
    }
}

impl<T: Drop> From<AllocFailed<T>> for LayoutError {
    fn from(_e: AllocFailed<T>) -> LayoutError {
        LayoutError::NoMemory
    }
}
