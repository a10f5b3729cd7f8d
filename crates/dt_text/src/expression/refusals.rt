//! Why lexemes can't be read: one that can't stand where it does, or that nests too deep.
ghost use Rattle.std.specs.Prelude.{◌≡◌};
ghost use Rattle.dt_text.specs.Expression.Reading.{syntax_at, too_deep};

use crate::lexeme::{Lexeme, Refusal, RefusalKind};

/// The refusal of lexemes whose first one can't stand where it does, or that end too early: then its place is
/// behind every place of a text.
pub fn syntax_at(lexemes: &[Lexeme]) -> Refusal
    ensures { result ≡ syntax_at lexemes.now }
{
    match lexemes {
        [] => Refusal {
            kind: RefusalKind::Syntax,
            place: u32::MAX,
        },
        [first, ..] => Refusal {
            kind: RefusalKind::Syntax,
            place: first.start,
        },
    }
}

/// The refusal of a lexeme that nests too deep.
pub fn too_deep(lexeme: Lexeme) -> Refusal
    ensures { result ≡ too_deep lexeme }
{
    Refusal {
        kind: RefusalKind::TooDeep,
        place: lexeme.start,
    }
}
