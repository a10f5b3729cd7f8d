//! The white space between tokens.

mod columns;
mod depth;
mod fault;
mod gap;
mod laying;
mod nodes;
mod statement;
mod writer;

pub(crate) use fault::{BraceFault, LayoutError};
pub(crate) use laying::laid_out;
