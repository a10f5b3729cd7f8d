//! What operators make of numbers: unsigned 64 bits that wrap, and one fault at most.
ghost use Rattle.std.specs.Prelude.{◌≡◌, ◌/◌, ◌%◌};
ghost use Rattle.dt_text.specs.Expression.Values.{truth, is_true, divided, shifted_left, shifted_right, operation, both, prefix_operation, prefixed, choice};

use crate::lexeme::{Fault, FaultKind, Kind, Lexeme};

/// The value of an expression, or its one fault.
pub type Value = Result<u64, Fault>;

fn truth(holds: bool) -> u64
    ensures { result ≡ truth holds }
{
    if holds { 1 } else { 0 }
}

fn quotient(operator: Lexeme, x: u64, y: u64) -> Result<u64, Fault>
    ensures { result ≡ divided operator y (x / y) }
{
    if y == 0 {
        return Err(Fault {
            kind: FaultKind::DivideByZero,
            place: operator.start,
        });
    }
    Ok(x / y)
}

fn remainder(operator: Lexeme, x: u64, y: u64) -> Result<u64, Fault>
    ensures { result ≡ divided operator y (x % y) }
{
    if y == 0 {
        return Err(Fault {
            kind: FaultKind::DivideByZero,
            place: operator.start,
        });
    }
    Ok(x % y)
}

fn shifted_left(x: u64, y: u64) -> u64
    ensures { result ≡ shifted_left x y }
{
    if y < 64 { x.wrapping_shl(y as u32) } else { 0 }
}

fn shifted_right(x: u64, y: u64) -> u64
    ensures { result ≡ shifted_right x y }
{
    if y < 64 { x >> y } else { 0 }
}

// Every operator gives a number but a division by zero.
fn operate(operator: Lexeme, x: u64, y: u64) -> Result<u64, Fault>
    ensures { result ≡ operation operator.kind operator x y }
{
    match operator.kind {
        Kind::Star => Ok(x.wrapping_mul(y)),
        Kind::Slash => quotient(operator, x, y),
        Kind::Percent => remainder(operator, x, y),
        Kind::Plus => Ok(x.wrapping_add(y)),
        Kind::Minus => Ok(x.wrapping_sub(y)),
        Kind::ShiftLeft => Ok(shifted_left(x, y)),
        Kind::ShiftRight => Ok(shifted_right(x, y)),
        Kind::Less => Ok(truth(x < y)),
        Kind::Greater => Ok(truth(y < x)),
        Kind::LessEqual => Ok(truth(x <= y)),
        Kind::GreaterEqual => Ok(truth(y <= x)),
        Kind::EqualEqual => Ok(truth(x == y)),
        Kind::NotEqual => Ok(truth(x != y)),
        Kind::And => Ok(x & y),
        Kind::Xor => Ok(x ^ y),
        Kind::Or => Ok(x | y),
        Kind::AndAnd => Ok(truth(x != 0 && y != 0)),
        Kind::OrOr => Ok(truth(x != 0 || y != 0)),
        _ => Ok(0),
    }
}

/// An operator between two operands; both are computed before, and the left one's fault comes first.
pub(crate) fn both(
    operator: Lexeme,
    left: Result<u64, Fault>,
    right: Result<u64, Fault>,
) -> Result<u64, Fault>
    ensures { result ≡ both operator left right }
{
    match (left, right) {
        (Err(fault), _) => Err(fault),
        (Ok(_), Err(fault)) => Err(fault),
        (Ok(x), Ok(y)) => operate(operator, x, y),
    }
}

fn prefix_operate(kind: Kind, x: u64) -> u64
    ensures { result ≡ prefix_operation kind x }
{
    match kind {
        Kind::Minus => x.wrapping_neg(),
        Kind::Tilde => u64::MAX - x,
        Kind::Bang => truth(x == 0),
        _ => x,
    }
}

/// An operator before its one operand.
pub(crate) fn prefixed(operator: Lexeme, operand: Result<u64, Fault>) -> Result<u64, Fault>
    ensures { result ≡ prefixed operator operand }
{
    match operand {
        Err(fault) => Err(fault),
        Ok(x) => Ok(prefix_operate(operator.kind, x)),
    }
}

/// The second operand where the first isn't 0, else the third; all three are computed before.
pub(crate) fn choice(
    test: Result<u64, Fault>,
    yes: Result<u64, Fault>,
    no: Result<u64, Fault>,
) -> Result<u64, Fault>
    ensures { result ≡ choice test yes no }
{
    match (test, yes, no) {
        (Err(fault), _, _) => Err(fault),
        (Ok(_), Err(fault), _) => Err(fault),
        (Ok(_), Ok(_), Err(fault)) => Err(fault),
        (Ok(x), Ok(y), Ok(z)) => Ok(if x == 0 { z } else { y }),
    }
}
