//! Character literals.
ghost use Rattle.std.specs.Prelude.{◌≡◌, ◌≤◌};
ghost use Rattle.dt_text.specs.Expression.Character.{alone_of, byte_of, character_of, control_of, digit_in, escape_of};

/// The number of a character literal by what stands between its quotes, where it has one.
pub fn character(inside: &[u8]) -> Option<u8>
    ensures { result ≡ character_of inside.now }
{
    match inside {
        [b'\\', escape @ ..] => escaped(escape),
        [c] => Some(*c),
        _ => None,
    }
}

/// What stands behind a backslash: one escape, and nothing behind it. Where nothing stands there, it is the last apostrophe.
fn escaped(s: &[u8]) -> Option<u8>
    ensures { result ≡ escape_of s.now }
{
    match s {
        [b'x', digits @ ..] => hex(digits),
        [c, ..] => match digit(*c, 8) {
            Some(_) => octal(s),
            None => alone(s),
        },
        [] => Some(b'\''),
    }
}

/// A byte that stands for itself or for one of C's, with nothing behind it.
fn alone(s: &[u8]) -> Option<u8>
    ensures { result ≡ alone_of s.now }
{
    match s {
        [c] => Some(control(*c)),
        _ => None,
    }
}

/// One or two hex digits.
fn hex(digits: &[u8]) -> Option<u8>
    ensures { result ≡ byte_of 16 2 digits.now }
{
    match digits {
        [low] => digit(*low, 16),
        [high, low] => Some(digit(*high, 16)? * 16 + digit(*low, 16)?),
        _ => None,
    }
}

/// One to three octal digits. Bits above the eighth are lost.
fn octal(digits: &[u8]) -> Option<u8>
    ensures { result ≡ byte_of 8 3 digits.now }
{
    match digits {
        [low] => digit(*low, 8),
        [high, low] => Some(digit(*high, 8)? * 8 + digit(*low, 8)?),
        [high, middle, low] => {
            let number = digit(*high, 8)? as u16 * 64 + digit(*middle, 8)? as u16 * 8;
            Some(((number + digit(*low, 8)? as u16) % 256) as u8)
        }
        _ => None,
    }
}

fn digit(c: u8, radix: u32) -> Option<u8>
    requires least { 2 ≤ radix }
    requires most { radix ≤ 36 }
    ensures { result ≡ digit_in radix c }
{
    match char::from(c).to_digit(radix) {
        Some(digit) => Some(digit as u8),
        None => None,
    }
}

/// What a backslash before this byte stands for, where it is no digit.
fn control(c: u8) -> u8
    ensures { result ≡ control_of c }
{
    match c {
        b'a' => 7,
        b'b' => 8,
        b't' => 9,
        b'n' => 10,
        b'v' => 11,
        b'f' => 12,
        b'r' => 13,
        _ => c,
    }
}
