//! The two parts of a node's name: its base and its unit address.
ghost use Rattle.std.specs.Prelude.{◌≡◌, ◌<◌, length, position, IfSome};
ghost use Rattle.dt_check.specs.Unit.{is_at, base_name, unit_address, hex_digit, hex_from, is_hex_of};

/// Where the first `@` is.
pub fn at_in(name: &[u8]) -> Option<usize>
    ensures place { result ≡ position is_at name.now }
    ensures within { IfSome result (λ at. at < length name.now) }
{
    name.iter().position(|byte| *byte == b'@')
}

/// What stands before the `@`.
pub fn base_name(name: &[u8]) -> &[u8]
    ensures { result.now ≡ base_name name.now }
{
    match at_in(name) {
        None => name,
        Some(at) => &name[..at],
    }
}

/// What stands behind the `@`: no bytes where there is none.
pub fn unit_address(name: &[u8]) -> &[u8]
    ensures { result.now ≡ unit_address name.now }
{
    match at_in(name) {
        None => &[],
        Some(at) => &name[at + 1..],
    }
}

fn hex_digit(byte: u8) -> Option<u8>
    ensures { result ≡ hex_digit byte }
{
    match byte {
        b'0'..=b'9' => Some(byte - b'0'),
        b'a'..=b'f' => Some(byte - b'a' + 10),
        _ => None,
    }
}

fn hex_from(digits: &[u8]) -> Option<u64>
    ensures { result ≡ hex_from 0 digits.now }
{
    let mut number: u64 = 0;
    for byte in digits {
        let Some(digit) = hex_digit(*byte) else {
            return None;
        };
        let Some(shifted) = number.checked_mul(16) else {
            return None;
        };
        let Some(next) = shifted.checked_add(u64::from(digit)) else {
            return None;
        };
        number = next;
    }
    Some(number)
}

/// Whether bytes are a number in hex, in lower case and with no zero in front.
pub fn is_hex_of(number: u64, bytes: &[u8]) -> bool
    ensures { result ≡ is_hex_of number bytes.now }
{
    match bytes {
        [] => false,
        [b'0'] => number == 0,
        [b'0', ..] => false,
        _ => hex_from(bytes) == Some(number),
    }
}
