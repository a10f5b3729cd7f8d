//! What reading returns.
ghost use Rattle.std.specs.Prelude.{◌<◌, length, IfOk};
ghost use Rattle.dt_text.specs.Expression.Reading.{Gives};
ghost use Rattle.dt_source.specs.Reading.Bodies.{semicolon_at};

use crate::tree::{Item, Reference, Statement};
use dt_text::expression::syntax_at;
use dt_text::lexeme::{Fault, Kind, Lexeme, ReadError, Refusal};

/// What was found, its first fault, and the lexemes behind it.
#[derive(Drop)]
pub struct Read<'a, T> {
    pub found: T,
    pub fault: Option<Fault>,
    pub rest: &'a [Lexeme],
}

/// The first fault of what was put behind the parts of a value, and the lexemes behind it.
pub type Pushed<'a> = Result<(Option<Fault>, &'a [Lexeme]), ReadError>;

/// A statement, or the end of a body.
pub type ReadStatement<'a, 'text> = Result<Read<'a, Option<Statement<'text>>>, ReadError>;

/// The statements of a body.
pub type ReadBody<'a, 'text> = Result<Read<'a, Vec<Statement<'text>>>, ReadError>;

/// An item, or the end of a source.
pub type ReadItem<'a, 'text> = Result<Read<'a, Option<Item<'text>>>, ReadError>;

/// What a reference names.
pub type ReadTarget<'a, 'text> = Result<Read<'a, Reference<'text>>, ReadError>;

/// A reservation's address and size, where one begins.
pub type ReadReserve<'a> = Result<
    Read<'a, Option<(Result<u64, Fault>, Result<u64, Fault>)>>,
    Refusal,
>;

/// What follows a semicolon.
pub(crate) fn semicolon(ts: &[Lexeme]) -> Result<&[Lexeme], Refusal>
    ensures gives { Gives (λ x. x.now) result (semicolon_at ts.now) }
    ensures shorter { IfOk result (λ x. length x.now < length ts.now) }
{
    match ts {
        [] => Err(syntax_at(ts)),
        [t, rest @ ..] => match t.kind {
            Kind::Semicolon => Ok(rest),
            _ => Err(syntax_at(ts)),
        },
    }
}
