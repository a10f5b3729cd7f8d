//! From tokens to an outline.

pub(crate) mod groups;
pub(crate) mod outline;
pub(crate) mod outliner;
pub(crate) mod statement;
