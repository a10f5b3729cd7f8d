//! Operators of expressions of `#if` (C11, 6.5 and 6.6): signed numbers of 64 bits, which wrap.

/// Operators, and the `(` that waits for its `)`.
#[derive(Clone, Copy, PartialEq, Eq)]
pub(crate) enum Operator {
    Open,
    Or,
    And,
    BitOr,
    BitXor,
    BitAnd,
    Equal,
    NotEqual,
    Less,
    Greater,
    LessEqual,
    GreaterEqual,
    ShiftLeft,
    ShiftRight,
    Add,
    Subtract,
    Multiply,
    Divide,
    Remainder,
    Not,
    Complement,
    Negate,
    Keep,
}

/// The operator of a word between two operands.
pub(crate) fn binary(word: &[u8]) -> Option<Operator> {
    match word {
        b"||" => Some(Operator::Or),
        b"&&" => Some(Operator::And),
        b"|" => Some(Operator::BitOr),
        b"^" => Some(Operator::BitXor),
        b"&" => Some(Operator::BitAnd),
        b"==" => Some(Operator::Equal),
        b"!=" => Some(Operator::NotEqual),
        b"<" => Some(Operator::Less),
        b">" => Some(Operator::Greater),
        b"<=" => Some(Operator::LessEqual),
        b">=" => Some(Operator::GreaterEqual),
        b"<<" => Some(Operator::ShiftLeft),
        b">>" => Some(Operator::ShiftRight),
        b"+" => Some(Operator::Add),
        b"-" => Some(Operator::Subtract),
        b"*" => Some(Operator::Multiply),
        b"/" => Some(Operator::Divide),
        b"%" => Some(Operator::Remainder),
        _ => None,
    }
}

/// The operator of a word before an operand.
pub(crate) fn unary(word: &[u8]) -> Option<Operator> {
    match word {
        b"!" => Some(Operator::Not),
        b"~" => Some(Operator::Complement),
        b"-" => Some(Operator::Negate),
        b"+" => Some(Operator::Keep),
        _ => None,
    }
}

impl Operator {
    /// How tightly it binds.
    pub(crate) fn level(self) -> u8 {
        match self {
            Operator::Open => 0,
            Operator::Or => 1,
            Operator::And => 2,
            Operator::BitOr => 3,
            Operator::BitXor => 4,
            Operator::BitAnd => 5,
            Operator::Equal | Operator::NotEqual => 6,
            Operator::Less | Operator::Greater | Operator::LessEqual | Operator::GreaterEqual => 7,
            Operator::ShiftLeft | Operator::ShiftRight => 8,
            Operator::Add | Operator::Subtract => 9,
            Operator::Multiply | Operator::Divide | Operator::Remainder => 10,
            Operator::Not | Operator::Complement | Operator::Negate | Operator::Keep => 11,
        }
    }

    pub(crate) fn is_unary(self) -> bool {
        self.level() == 11
    }

    /// What one operand comes to.
    pub(crate) fn of_one(self, value: i64) -> i64 {
        match self {
            Operator::Not => truth(value == 0),
            Operator::Complement => !value,
            Operator::Negate => value.wrapping_neg(),
            _ => value,
        }
    }

    /// What two operands come to; none where the divisor is 0.
    pub(crate) fn of_two(self, left: i64, right: i64) -> Option<i64> {
        match self {
            Operator::Divide | Operator::Remainder => self.divided(left, right),
            Operator::ShiftLeft => Some(shifted(left, right)),
            Operator::ShiftRight => Some(shifted(left, right.saturating_neg())),
            _ => Some(self.computed(left, right)),
        }
    }

    fn divided(self, left: i64, right: i64) -> Option<i64> {
        if right == 0 {
            None
        } else if self == Operator::Divide {
            Some(left.wrapping_div(right))
        } else {
            Some(left.wrapping_rem(right))
        }
    }

    fn computed(self, left: i64, right: i64) -> i64 {
        match self {
            Operator::BitOr => left | right,
            Operator::BitXor => left ^ right,
            Operator::BitAnd => left & right,
            Operator::Add => left.wrapping_add(right),
            Operator::Subtract => left.wrapping_sub(right),
            Operator::Multiply => left.wrapping_mul(right),
            _ => truth(self.holds(left, right)),
        }
    }

    fn holds(self, left: i64, right: i64) -> bool {
        match self {
            Operator::Or => left != 0 || right != 0,
            Operator::And => left != 0 && right != 0,
            Operator::Equal => left == right,
            Operator::NotEqual => left != right,
            Operator::Less => left < right,
            Operator::Greater => left > right,
            Operator::LessEqual => left <= right,
            _ => left >= right,
        }
    }
}

fn truth(holds: bool) -> i64 {
    if holds { 1 } else { 0 }
}

/// A number shifted to the left, to the right where the count is below 0; by 64 and more nothing but the sign is left.
fn shifted(value: i64, count: i64) -> i64 {
    let bits = count.unsigned_abs();
    if count >= 0 {
        if bits < 64 { value << bits } else { 0 }
    } else if bits < 64 {
        value >> bits
    } else {
        value >> 63
    }
}
