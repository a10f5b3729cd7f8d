//! Whether two texts have the same tokens.

use crate::style::Hex;
use crate::tokens::front::{Found, Front, front_of};
use crate::tokens::spelling::is_spelled;
use crate::tokens::state::Place;

/// Whether the second text has the tokens of the first, with hex numbers as the style spells them.
pub(crate) fn has_same_tokens(hex: Hex, text: &[u8], made: &[u8]) -> bool {
    let mut place = Place::start();
    let mut left = text;
    let mut made_place = Place::start();
    let mut made_left = made;
    // A token has a byte or more.
    for _ in 0..text.len() {
        let Front::Found(token) = front_of(place, left) else {
            break;
        };
        let Front::Found(other) = front_of(made_place, made_left) else {
            return false;
        };
        if !is_same(hex, &token, &other) {
            return false;
        }
        place = token.place;
        left = token.rest;
        made_place = other.place;
        made_left = other.rest;
    }
    is_over(place, left) && is_over(made_place, made_left)
}

// Whether nothing is left but white space.
fn is_over(place: Place, s: &[u8]) -> bool {
    matches!(front_of(place, s), Front::Over)
}

// Whether the second token is the first, as the style spells it.
fn is_same(hex: Hex, token: &Found, made: &Found) -> bool {
    token.kind == made.kind && is_spelled(hex, token.kind, token.bytes, made.bytes)
}
