//! Expressions of `#if`, and groups of lines (C11, 6.10.1).

pub(crate) mod evaluation;
pub(crate) mod group;
pub(crate) mod numeral;
pub(crate) mod operator;
