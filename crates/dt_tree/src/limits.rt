//! How deep a tree and how long a name may be.

/// The most levels of nodes below the root.
pub const MAX_DEPTH: usize = 64;

/// The longest name, in bytes.
pub const MAX_NAME_LEN: usize = 255;
