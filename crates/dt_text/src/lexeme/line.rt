//! Lines of a text.
ghost use Rattle.std.specs.Prelude.{◌≡◌};
ghost use Rattle.dt_text.specs.Lexeme.Lines.{line_at};

use crate::lexeme::bytes::front;

/// The line of a place in the text, from 1. A place behind the text's end is in its last line.
pub fn line_of(text: &[u8], place: u32) -> usize
    ensures { result ≡ line_at text.now place }
{
    front(text, place as usize)
        .iter()
        .filter(|c| **c == b'\n')
        .count()
        + 1
}
