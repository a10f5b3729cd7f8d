//! From bytes to tokens.

pub(crate) mod bytes;
pub(crate) mod lengths;
pub(crate) mod lexer;
pub(crate) mod token;
