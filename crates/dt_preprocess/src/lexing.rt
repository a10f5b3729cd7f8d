//! From bytes to logical lines of tokens (C11, 5.1.1.2, phases 2 and 3).

pub(crate) mod bytes;
pub(crate) mod lexeme;
pub(crate) mod lexer;
pub(crate) mod probe;
pub(crate) mod splicing;
