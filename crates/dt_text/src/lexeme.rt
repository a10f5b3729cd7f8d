//! The lexemes of devicetree sources: what stands between gaps in a text, and where.
//!
//! The Devicetree Specification v0.4, chapter 6, says what they are.

mod binary;
pub mod bytes;
mod context;
pub(crate) mod families;
pub mod fronts;
pub mod gaps;
mod language;
mod lexeme;
mod line;
mod scanner;

pub use binary::Binary;
pub use language::Language;
pub use lexeme::{Fault, FaultKind, Kind, Lexeme, ReadError, Refusal, RefusalKind};
pub use line::line_of;
pub use scanner::{lexemes_are_in_order, lexemes_are_lawful, one_list, scan, scan_front};
