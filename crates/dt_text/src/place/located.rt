//! Lexemes with what they name and where they came from.
ghost use Rattle.std.specs.Prelude.{◌≡◌, IfSome, is_some, position, slice_get, slice_range};
ghost use Rattle.dt_text.specs.Place.Located.{IsLocated, has_place, is_inside, name_in};

use crate::lexeme::fronts::path_of;
use crate::lexeme::{Kind, Lexeme};
use crate::place::position::{Position, position_of};

/// A lexeme of a text: what it names, and where its first byte came from.
#[derive(Clone, Copy, Debug)]
pub struct LocatedLexeme<'a> {
    pub lexeme: Lexeme,
    pub name: &'a [u8],
    pub position: Position<'a>,
}

// The bytes between two places, as far as they are there.
fn between(text: &[u8], start: usize, end: usize) -> &[u8]
    ensures { result.now ≡ slice_range text.now start end }
{
    let end = end.min(text.len());
    if start < end {
        &text[start..end]
    } else {
        &text[..0]
    }
}

/// What a lexeme names: a label without its colon, a reference's label or path, or else its bytes.
pub fn named<'a>(text: &'a [u8], lexeme: Lexeme) -> &'a [u8]
    ensures { result.now ≡ name_in text.now lexeme }
{
    let start = lexeme.start as usize;
    let end = lexeme.end as usize;
    match lexeme.kind {
        Kind::Label => between(text, start, end.saturating_sub(1)),
        Kind::Reference => between(text, start + 1, end),
        Kind::PathReference => path_of(between(text, start + 2, end.saturating_sub(1))),
        _ => between(text, start, end),
    }
}

/// The lexeme with this index, where there is one and it lies inside the text, with what it names and where it came from.
pub fn locate<'a>(text: &'a [u8], lexemes: &[Lexeme], index: usize) -> Option<LocatedLexeme<'a>>
    ensures there { is_some result ≡ is_inside text.now (slice_get lexemes.now index) }
    ensures located { IfSome result (λ here. IsLocated text.now lexemes.now index here) }
{
    if index >= lexemes.len() {
        return None;
    }
    let lexeme = lexemes[index];
    if lexeme.start >= lexeme.end {
        return None;
    }
    if lexeme.end as usize > text.len() {
        return None;
    }
    Some(LocatedLexeme {
        lexeme,
        name: named(text, lexeme),
        position: position_of(text, lexeme.start as usize),
    })
}

/// The index of the first lexeme that a place of the text lies in, if it lies in one.
pub fn lexeme_at(lexemes: &[Lexeme], place: usize) -> Option<usize>
    ensures { result ≡ position (has_place place) lexemes.now }
{
    lexemes.iter().position(|lexeme| lexeme.start as usize <= place && place < lexeme.end as usize)
}
