//! The limits of a core.

/// The begins that a core has: each uses up two of 1,000,000 events, its own and its flight's end.
pub const MAX_BEGINS: u32 = 500_000;
