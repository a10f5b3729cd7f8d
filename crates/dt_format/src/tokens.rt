//! The tokens of a text: what it consists of but for the white space between them.

mod bytes;
mod comparison;
mod directive;
mod front;
mod kind;
mod list;
mod opening;
mod reach;
mod spelling;
mod state;

pub(crate) use bytes::{is_blank, is_white, line_feeds};
pub(crate) use comparison::has_same_tokens;
pub(crate) use kind::Kind;
pub(crate) use list::{Token, tokens_of};
pub(crate) use spelling::put_spelled;
