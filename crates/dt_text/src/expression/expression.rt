//! Expressions, read from lexemes and computed while they are read.
ghost use Rattle.std.specs.Prelude.{◌≡◌, ◌≤◌, ◌<◌, ◌-◌, length, IfOk, IfSome, option_map};
ghost use Rattle.dt_text.specs.Expression.Expression.{rank, is_prefix};
ghost use Rattle.dt_text.specs.Expression.Reading.{Gives};
ghost use Rattle.dt_text.specs.Expression.ReadingOperators.{is_infix, infix_at};
ghost use Rattle.dt_text.specs.Expression.Values.{values};
ghost use Rattle.dt_text.specs.Expression.ReadingExpressions.{unary_at, expr_at, expr_below, unary_below, closed, chosen_in, operands_in, otherwise_in, primary_in, primary_at, ReadsWhatIsSpelled, ReadsAllThatIsSpelled, SpellsOne};

use crate::expression::numeral::constant;
use crate::expression::refusals::{syntax_at, too_deep};
use crate::expression::value::{choice, prefixed};
use crate::expression::waiting::Waiting;
use crate::lexeme::{Fault, Kind, Lexeme, Refusal};

/// A value or its one fault, and the lexemes behind it.
pub type ReadValue<'a> = Result<(Result<u64, Fault>, &'a [Lexeme]), Refusal>;

/// How many levels of parentheses, operands of unary operators and choices may stand in one another.
pub const MAX_NESTING: u8 = 64;

// How loosely an operator binds: 0 where it is none.
fn rank_of(kind: Kind) -> u8
    ensures { result ≡ rank kind }
{
    match kind {
        Kind::Star | Kind::Slash | Kind::Percent => 1,
        Kind::Plus | Kind::Minus => 2,
        Kind::ShiftLeft | Kind::ShiftRight => 3,
        Kind::Less | Kind::Greater | Kind::LessEqual | Kind::GreaterEqual => 4,
        Kind::EqualEqual | Kind::NotEqual => 5,
        Kind::And => 6,
        Kind::Xor => 7,
        Kind::Or => 8,
        Kind::AndAnd => 9,
        Kind::OrOr => 10,
        Kind::Question => 11,
        _ => 0,
    }
}

fn is_infix(kind: Kind) -> bool
    ensures { result ≡ is_infix kind }
{
    let rank = rank_of(kind);
    1 <= rank && rank <= 10
}

fn is_prefix(kind: Kind) -> bool
    ensures { result ≡ is_prefix kind }
{
    match kind {
        Kind::Minus | Kind::Tilde | Kind::Bang => true,
        _ => false,
    }
}

// An operator between two operands, and what follows it.
fn infix<'a>(lexemes: &'a [Lexeme]) -> Option<(Lexeme, &'a [Lexeme])>
    ensures gives { option_map (λ x. (x.0, x.1.now)) result ≡ infix_at lexemes.now }
    ensures shorter { IfSome result (λ x. length x.1.now < length lexemes.now) }
{
    match lexemes {
        [first, rest @ ..] if is_infix(first.kind) => Some((*first, rest)),
        _ => None,
    }
}

fn close<'a>(value: Result<u64, Fault>, lexemes: &'a [Lexeme]) -> ReadValue<'a>
    ensures gives { Gives (λ x. (x.0, x.1.now)) result (closed value lexemes.now) }
    ensures shorter { IfOk result (λ x. length x.1.now < length lexemes.now) }
{
    match lexemes {
        [] => Err(syntax_at(lexemes)),
        [first, rest @ ..] => match first.kind {
            Kind::EndParen => Ok((value, rest)),
            _ => Err(syntax_at(lexemes)),
        },
    }
}

#[cycle(expression)]
fn expr_deeper<'a>(text: &[u8], depth: u8, opener: Lexeme, lexemes: &'a [Lexeme]) -> ReadValue<'a>
    ensures gives { Gives (λ x. (x.0, x.1.now)) result (expr_below (values text.now) depth opener lexemes.now) }
    ensures shorter { IfOk result (λ x. length x.1.now < length lexemes.now) }
{
    if depth == 0 {
        return Err(too_deep(opener));
    }
    expr(text, depth - 1, lexemes)
}

#[cycle(expression)]
fn unary_deeper<'a>(text: &[u8], depth: u8, opener: Lexeme, lexemes: &'a [Lexeme]) -> ReadValue<'a>
    ensures gives { Gives (λ x. (x.0, x.1.now)) result (unary_below (values text.now) depth opener lexemes.now) }
    ensures shorter { IfOk result (λ x. length x.1.now < length lexemes.now) }
{
    if depth == 0 {
        return Err(too_deep(opener));
    }
    unary(text, depth - 1, lexemes)
}

#[cycle(expression)]
fn primary_within<'a>(text: &[u8], depth: u8, lexemes: &'a [Lexeme]) -> ReadValue<'a>
    ensures gives { Gives (λ x. (x.0, x.1.now)) result (primary_in text.now depth lexemes.now) }
    ensures shorter { IfOk result (λ x. length x.1.now < length lexemes.now) }
{
    match lexemes {
        [] => Err(syntax_at(lexemes)),
        [first, rest @ ..] => match first.kind {
            Kind::Literal | Kind::Character => Ok((constant(text, *first), rest)),
            Kind::Paren => {
                let (value, rest) = expr_deeper(text, depth, *first, rest)?;
                close(value, rest)
            }
            _ => Err(syntax_at(lexemes)),
        },
    }
}

#[cycle(expression)]
#[tactic(auto, unfolding(crate::specs::Expression::ReadingExpressions::unary_at))]
fn unary<'a>(text: &[u8], depth: u8, lexemes: &'a [Lexeme]) -> ReadValue<'a>
    ensures gives { Gives (λ x. (x.0, x.1.now)) result (unary_at (values text.now) depth lexemes.now) }
    ensures shorter { IfOk result (λ x. length x.1.now < length lexemes.now) }
{
    match lexemes {
        [] => Err(syntax_at(lexemes)),
        [first, rest @ ..] => {
            if is_prefix(first.kind) {
                let (value, rest) = unary_deeper(text, depth, *first, rest)?;
                return Ok((prefixed(*first, value), rest));
            }
            primary_within(text, depth, lexemes)
        }
    }
}

// Operands with operators between them: each operator waits while what binds more tightly is read behind it.
#[cycle(expression)]
fn operands<'a>(text: &[u8], depth: u8, lexemes: &'a [Lexeme]) -> ReadValue<'a>
    ensures gives { Gives (λ x. (x.0, x.1.now)) result (operands_in text.now depth lexemes.now) }
    ensures shorter { IfOk result (λ x. length x.1.now < length lexemes.now) }
{
    let mut waiting = Waiting::none();
    let (mut value, mut left) = unary(text, depth, lexemes)?;
    while let Some((operator, rest)) = infix(left) {
        let rank = rank_of(operator.kind);
        let before = waiting.end_up_to(rank, value);
        waiting.put(rank, operator, before);
        let (next, after) = unary(text, depth, rest)?;
        value = next;
        left = after;
    }
    Ok((waiting.end_up_to(10, value), left))
}

#[cycle(expression)]
#[tactic(auto, unfolding(crate::specs::Expression::ReadingExpressions::expr_at))]
fn expr<'a>(text: &[u8], depth: u8, lexemes: &'a [Lexeme]) -> ReadValue<'a>
    ensures gives { Gives (λ x. (x.0, x.1.now)) result (expr_at (values text.now) depth lexemes.now) }
    ensures shorter { IfOk result (λ x. length x.1.now < length lexemes.now) }
{
    let (test, left) = operands(text, depth, lexemes)?;
    choose(text, depth, test, left)
}

#[cycle(expression)]
fn choose<'a>(
    text: &[u8],
    depth: u8,
    test: Result<u64, Fault>,
    lexemes: &'a [Lexeme],
) -> ReadValue<'a>
    ensures gives { Gives (λ x. (x.0, x.1.now)) result (chosen_in text.now depth test lexemes.now) }
    ensures shorter { IfOk result (λ x. length x.1.now ≤ length lexemes.now) }
{
    match lexemes {
        [] => Ok((test, lexemes)),
        [first, rest @ ..] => match first.kind {
            Kind::Question => {
                let (yes, rest) = expr_deeper(text, depth, *first, rest)?;
                otherwise(text, depth, test, yes, rest)
            }
            _ => Ok((test, lexemes)),
        },
    }
}

#[cycle(expression)]
fn otherwise<'a>(
    text: &[u8],
    depth: u8,
    test: Result<u64, Fault>,
    yes: Result<u64, Fault>,
    lexemes: &'a [Lexeme],
) -> ReadValue<'a>
    ensures gives { Gives (λ x. (x.0, x.1.now)) result (otherwise_in text.now depth test yes lexemes.now) }
    ensures shorter { IfOk result (λ x. length x.1.now < length lexemes.now) }
{
    match lexemes {
        [] => Err(syntax_at(lexemes)),
        [first, rest @ ..] => match first.kind {
            Kind::Colon => {
                let (no, rest) = expr_deeper(text, depth, *first, rest)?;
                Ok((choice(test, yes, no), rest))
            }
            _ => Err(syntax_at(lexemes)),
        },
    }
}

/// Reads a number or an expression in parentheses at the front of the lexemes, within `MAX_NESTING` levels: its value or its
/// one fault, and the lexemes behind it.
#[tactic(auto, unfolding(crate::specs::Expression::ReadingExpressions::primary_at, crate::specs::Expression::ReadingExpressions::primary_made))]
pub fn primary<'a>(text: &[u8], lexemes: &'a [Lexeme]) -> ReadValue<'a>
    ensures gives { Gives (λ x. (x.0, x.1.now)) result (primary_at text.now lexemes.now) }
    ensures shorter { IfOk result (λ x. length x.1.now < length lexemes.now) }
{
    primary_within(text, MAX_NESTING, lexemes)
}

/// Reading and the grammar agree: what `primary` reads is spelled so, what is spelled so is read, and in one way alone.
pub fn reads_the_grammar()
    ensures read { ReadsWhatIsSpelled }
    ensures spelled { ReadsAllThatIsSpelled }
    ensures one { SpellsOne }
{}
