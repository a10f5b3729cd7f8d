//! Places in a text.
ghost use Rattle.std.specs.Prelude.{◌≡◌};
ghost use Rattle.dt_source.specs.Places.{place_at};

use dt_text::lexeme::line_of;

/// A place in a text: its offset in bytes, which is the length where the text ends too soon, and its line, from 1.
#[derive(Debug, Clone, Copy, PartialEq, Eq, Drop)]
pub struct Place {
    pub offset: u32,
    pub line: usize,
}

/// The place of this byte of a text; one behind its end is the end.
pub fn place_at(text: &[u8], offset: u32) -> Place
    ensures { result ≡ place_at text.now offset }
{
    let within = (offset as usize).min(text.len());
    Place {
        offset: within as u32,
        line: line_of(text, offset),
    }
}
