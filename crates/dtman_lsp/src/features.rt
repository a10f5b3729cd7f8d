//! What each kind of request is answered with.

pub(crate) mod asked;
pub(crate) mod capabilities;
pub(crate) mod completions;
pub(crate) mod definitions;
pub(crate) mod diagnostics;
pub(crate) mod folding;
pub(crate) mod hovers;
pub(crate) mod renames;
pub(crate) mod symbols;
