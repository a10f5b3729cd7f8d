//! Files, their directives and what they come to.

pub(crate) mod command_line;
pub(crate) mod conditional;
pub(crate) mod directive;
pub(crate) mod library;
pub(crate) mod lines;
pub(crate) mod output;
pub(crate) mod run;
