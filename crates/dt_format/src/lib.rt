//! A devicetree source as its author wrote it, with its directives, macros and comments, in the kernel's style.
//!
//! The style is that of Linux's Documentation/devicetree/bindings/dts-coding-style.rst. Rooms: `style`, what is asked for; `refusal`,
//! why a text isn't laid out, and where; `tokens`, what a text consists of, but for white space; `layout`, the white space between
//! tokens; `formatting`, the text laid out, with its tokens; `differing`, the lines in which two texts differ.
#![tactic(auto)]

mod differing;
mod formatting;
mod layout;
mod refusal;
mod style;
mod tokens;

pub use differing::{difference, first_difference};
pub use formatting::formatted;
pub use refusal::{FormatError, Refusal, RefusalKind};
pub use style::{Hex, Style};
