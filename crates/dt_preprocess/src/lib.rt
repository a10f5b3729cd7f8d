//! The C preprocessor as devicetree sources use it: what `gcc -E -nostdinc -undef -x assembler-with-cpp` makes of them.
//!
//! C11, section 6.10, says what it is; `specs/` has the words of it that are said exactly. Rooms: `request`, what is asked for and
//! given; `refusal`, why a text isn't preprocessed, and where; `words`, `token` and `lexing`, from bytes to logical lines of tokens;
//! `hides`, the macros that a token is not to be read as; `definition`, macros; `expansion`, calls of macros; `conditions`,
//! expressions of `#if` and groups; `files`, the files of a text, its directives and what it comes to.
#![tactic(auto)]

mod conditions;
mod definition;
mod expansion;
mod files;
mod hides;
mod lexing;
mod refusal;
mod request;
mod token;
mod words;

pub use files::run::preprocess;
pub use lexing::probe::has_directive;
pub use refusal::{Reason, Refusal};
pub use request::{Headers, Preprocessed, Request};
