//! The token at the front of a text.

use crate::refusal::RefusalKind;
use crate::tokens::bytes::{from, starts_behind, white_len};
use crate::tokens::kind::Kind;
use crate::tokens::opening::{kind_of, opening, place_behind};
use crate::tokens::reach::reach;
use crate::tokens::state::{Place, State};

/// A token, and what stands behind it.
#[derive(Clone, Copy)]
pub(crate) struct Found<'a> {
    pub kind: Kind,
    /// the white space before it
    pub before: &'a [u8],
    pub bytes: &'a [u8],
    /// where the rest stands
    pub place: Place,
    pub rest: &'a [u8],
}

/// What stands at the front, behind white space.
#[derive(Clone, Copy)]
pub(crate) enum Front<'a> {
    /// nothing
    Over,
    Found(Found<'a>),
    /// a token without an end, behind so much white space
    Open(RefusalKind, usize),
}

// Why a token that begins so has no end.
fn open_kind(state: State) -> RefusalKind {
    match state {
        State::InQuotes(b'\'') => RefusalKind::OpenCharacter,
        State::InQuotes(_) => RefusalKind::OpenString,
        State::InPath => RefusalKind::OpenPath,
        _ => RefusalKind::OpenComment,
    }
}

/// What stands at the front of a text, at this place.
pub(crate) fn front_of<'a>(place: Place, s: &'a [u8]) -> Front<'a> {
    let white = white_len(s);
    let behind = from(s, white);
    let [c, rest @ ..] = behind else {
        return Front::Over;
    };
    let here = Place {
        starts: starts_behind(place.starts, s),
        parens: place.parens,
    };
    let state = opening(here, *c, rest);
    let Some(reached) = reach(state, rest) else {
        return Front::Open(open_kind(state), white);
    };
    let (bytes, rest) = behind.split_at(reached.len.min(behind.len()));
    Front::Found(Found {
        kind: kind_of(state),
        before: &s[..white],
        bytes,
        place: place_behind(here, reached.state),
        rest,
    })
}
