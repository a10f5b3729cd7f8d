//! Expressions in the cells of devicetree sources: read from lexemes, and computed.
//!
//! The Devicetree Specification v0.4, section 6.3, says which there are.

mod characters;
mod elements;
mod escapes;
mod expression;
mod numeral;
mod refusals;
mod value;
mod waiting;

pub use characters::character;
pub use elements::{Width, element, push_low_bytes, width_of};
pub use escapes::{escape, unescaped};
pub use expression::{MAX_NESTING, ReadValue, primary, reads_the_grammar};
pub use numeral::{bytes_of, constant, digit_of, literal};
pub use refusals::{syntax_at, too_deep};
