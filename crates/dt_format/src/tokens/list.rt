//! The tokens of a whole text.

use crate::refusal::{FormatError, Refusal};
use crate::tokens::front::{Front, front_of};
use crate::tokens::kind::Kind;
use crate::tokens::state::Place;
use std::alloc::Global;

/// A token, with the white space before it.
#[derive(Clone, Copy)]
pub(crate) struct Token<'a> {
    pub kind: Kind,
    pub before: &'a [u8],
    pub bytes: &'a [u8],
    /// Parentheses are open before it.
    pub is_inside: bool,
}

impl Place {
    /// Where a text begins.
    pub(crate) fn start() -> Place {
        Place {
            starts: true,
            parens: 0,
        }
    }
}

/// The tokens of a text, or the one that has no end.
pub(crate) fn tokens_of<'a>(alloc: Global, text: &'a [u8]) -> Result<Vec<Token<'a>>, FormatError> {
    let mut found = Vec::new(alloc);
    let mut place = Place::start();
    let mut left = text;
    // A token has a byte or more.
    for _ in 0..text.len() {
        match front_of(place, left) {
            Front::Over => break,
            Front::Open(kind, white) => {
                let place = text.len().saturating_sub(left.len()).saturating_add(white);
                return Err(FormatError::Refused(Refusal { kind, place }));
            }
            Front::Found(token) => {
                found.push(Token {
                    kind: token.kind,
                    before: token.before,
                    bytes: token.bytes,
                    is_inside: place.parens > 0,
                })?;
                place = token.place;
                left = token.rest;
            }
        }
    }
    Ok(found)
}
