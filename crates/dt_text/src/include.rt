//! What a source in dtc's language takes in from other files: texts by `/include/`, and the files that its `/incbin/`s name.
//!
//! dtc's manual (Documentation/manual.txt, section 4.1) says how it looks for them, that of the C preprocessor what line markers mean.

mod bytes;
mod inclusion;
mod marker;
mod place;
mod places;
mod searching;
mod site;
mod words;

pub use crate::lexeme::Binary;
pub use inclusion::{Files, Found, Incomplete, MAX_INCLUDES, Whole, included};
pub use place::{Place, Span};
pub use places::{columns_of, line_of, plain, user_place};
pub use searching::{Reads, search};
pub use site::{Shortfall, Site};
