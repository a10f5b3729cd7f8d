//! Places in a devicetree source: what a lexeme names there, and the file, line and column that it came from.
//!
//! The C preprocessor's manual, section 9, says what its line markers mean.

mod located;
mod marker;
mod position;

pub use located::{LocatedLexeme, lexeme_at, locate, named};
pub use position::{Position, position_of, positions_of};
