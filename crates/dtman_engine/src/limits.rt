//! How much of a file is read.

/// The most bytes of a blob, and of the canonical source of one.
pub const MAX_BLOB_LEN: usize = dt_blob::MAX_SIZE;

/// The most bytes of a source.
pub const MAX_SOURCE_LEN: usize = dt_source::MAX_SOURCE_LEN;

/// The most bytes of a driver, plan or schedule file of the bus.
pub const MAX_TEXT_LEN: usize = 268_435_456;
