//! What a devicetree source has while it is being written: its nodes, labels, references, properties, macros and headers, with their
//! places, behind any fault; and places as editors count them.
//!
//! Each pass goes over the text once. Rooms: `lexing`, from bytes to tokens; `outlining`, from tokens to an outline; `surroundings`,
//! what may be written at a place; `lines`, lines and UTF-16 columns.
#![tactic(auto)]

mod lexing;
mod lines;
mod outlining;
mod surroundings;

pub use lexing::bytes::{is_name, text_of};
pub use lexing::lexer::Lexer;
pub use lexing::token::{Kind, Span, Token};
pub use lines::{Lines, Place};
pub use outlining::outline::{
    Fold, FoldKind, Header, Label, Macro, Node, NodeKind, Outline, Property, Reference,
};
pub use outlining::outliner::outline;
pub use surroundings::{Wanted, Writing, token_at, writing_at};
