//! Integer constants (C11, 6.4.4.1): signed, of 64 bits.

use crate::refusal::Reason;

/// What a digit is worth, 16 where it is none.
fn digit_value(c: u8) -> u8 {
    match c {
        b'0'..=b'9' => c - b'0',
        b'a'..=b'f' => c - b'a' + 10,
        b'A'..=b'F' => c - b'A' + 10,
        _ => 16,
    }
}

/// Bases of numerals.
#[derive(Clone, Copy)]
enum Base {
    Octal,
    Decimal,
    Hexadecimal,
}

impl Base {
    fn value(self) -> u8 {
        match self {
            Base::Octal => 8,
            Base::Decimal => 10,
            Base::Hexadecimal => 16,
        }
    }
}

/// The digits of a numeral without its base's mark.
#[derive(Drop)]
struct Digits<'t> {
    base: Base,
    digits: &'t [u8],
}

fn digits_of(text: &[u8]) -> Digits<'_> {
    match text {
        [b'0', b'x' | b'X', digits @ ..] => Digits {
            base: Base::Hexadecimal,
            digits,
        },
        [b'0', ..] => Digits {
            base: Base::Octal,
            digits: text,
        },
        _ => Digits {
            base: Base::Decimal,
            digits: text,
        },
    }
}

/// The suffix `l`, in either case, as often as it stands, is taken off.
fn unsuffixed(text: &[u8]) -> &[u8] {
    let mut left = text;
    for _ in 0..text.len() {
        match left {
            [front @ .., b'l' | b'L'] => left = front,
            _ => return left,
        }
    }
    left
}

/// The value of a numeral. One with a suffix `u`, or above 2^63 - 1, is unsigned, which isn't served.
pub(crate) fn numeral_value(text: &[u8]) -> Result<i64, Reason> {
    if matches!(text.last(), Some(b'u' | b'U')) {
        return Err(Reason::Unserved);
    }
    let Digits { base, digits } = digits_of(unsuffixed(text));
    if digits.is_empty() {
        return Err(Reason::Condition);
    }
    let mut value = 0u64;
    for c in digits {
        let digit = digit_value(*c);
        if digit >= base.value() {
            return Err(unsigned_or_malformed(*c));
        }
        value = match value.checked_mul(u64::from(base.value())) {
            Some(value) => value.saturating_add(u64::from(digit)),
            None => u64::MAX,
        };
    }
    i64::try_from(value).map_err(|_| Reason::Unserved)
}

fn unsigned_or_malformed(c: u8) -> Reason {
    if c == b'u' || c == b'U' {
        Reason::Unserved
    } else {
        Reason::Condition
    }
}
