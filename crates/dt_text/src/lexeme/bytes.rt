//! Classes of bytes, and runs of them.
ghost use Rattle.std.specs.Prelude.{◌≡◌, ◌≤◌, length, Some, drop, take, true};
ghost use Rattle.std.specs.List.{list_all};
ghost use Rattle.dt_text.specs.Lexeme.Bytes.{is_letter, is_word, is_name, is_hex, passes, begins, begins_letter, begins_hex, begins_x};
ghost use Rattle.dt_text.specs.Lexeme.Fronts.{Front};

/// Bytes that stand in one run.
#[derive(Clone, Copy)]
pub enum Class {
    /// of a label, behind its first letter
    Word,
    /// of a name
    Name,
    Digit,
    HexDigit,
    /// the letter `L` of a literal's suffix
    Ell,
}

/// The first character of a label.
pub fn is_letter(c: u8) -> bool
    ensures { result ≡ is_letter c }
{
    c >= b'A' && c <= b'Z' || c >= b'a' && c <= b'z' || c == b'_'
}

pub(crate) fn is_word(c: u8) -> bool
    ensures { result ≡ is_word c }
{
    if c >= b'a' {
        return c <= b'z';
    }
    c >= b'0' && c <= b'9' || c >= b'A' && c <= b'Z' || c == b'_'
}

/// A character of a name.
pub fn is_name(c: u8) -> bool
    ensures { result ≡ is_name c }
{
    // the commonest first, with few comparisons: each byte of a name comes here
    if c >= b'a' {
        return c <= b'z';
    }
    if c >= b'?' {
        return c <= b'Z' || c == b'_';
    }
    if c >= b'0' {
        return c <= b'9';
    }
    c >= b'*' && c <= b'.' || c == b'#'
}

pub(crate) fn is_hex(c: u8) -> bool
    ensures { result ≡ is_hex c }
{
    c >= b'0' && c <= b'9' || c >= b'A' && c <= b'F' || c >= b'a' && c <= b'f'
}

fn passes(class: Class, c: u8) -> bool
    ensures { result ≡ passes class c }
{
    match class {
        Class::Word => is_word(c),
        Class::Name => is_name(c),
        Class::Digit => c >= b'0' && c <= b'9',
        Class::HexDigit => is_hex(c),
        Class::Ell => c == b'L',
    }
}

/// How many bytes of this class stand at the front.
pub(crate) fn run_len(class: Class, s: &[u8]) -> usize
    ensures { Front (list_all (passes class)) s.now (Some result) }
{
    for (i, c) in s.iter().enumerate() {
        if !passes(class, *c) {
            return i;
        }
    }
    s.len()
}

/// Whether this byte stands at the front.
pub fn begins(s: &[u8], c: u8) -> bool
    ensures value { result ≡ begins c s.now }
    ensures long { result ≡ true → 1 ≤ length s.now }
{
    match s {
        [d, ..] => *d == c,
        [] => false,
    }
}

/// Whether a letter stands at the front.
pub fn begins_letter(s: &[u8]) -> bool
    ensures value { result ≡ begins_letter s.now }
    ensures long { result ≡ true → 1 ≤ length s.now }
{
    match s {
        [c, ..] => is_letter(*c),
        [] => false,
    }
}

/// Whether a digit of hex stands at the front.
pub(crate) fn begins_hex(s: &[u8]) -> bool
    ensures value { result ≡ begins_hex s.now }
    ensures long { result ≡ true → 1 ≤ length s.now }
{
    match s {
        [c, ..] => is_hex(*c),
        [] => false,
    }
}

/// Whether `x` or `X` stands at the front.
pub(crate) fn begins_x(s: &[u8]) -> bool
    ensures value { result ≡ begins_x s.now }
    ensures long { result ≡ true → 1 ≤ length s.now }
{
    match s {
        [c, ..] => *c == b'x' || *c == b'X',
        [] => false,
    }
}

/// What stands behind the first `n` bytes.
pub(crate) fn from(s: &[u8], n: usize) -> &[u8]
    requires { n ≤ length s.now }
    ensures { result.now ≡ drop n s.now }
{
    &s[n..]
}

/// The first `n` bytes, or all where there are fewer.
pub fn front(s: &[u8], n: usize) -> &[u8]
    ensures { result.now ≡ take n s.now }
{
    if n < s.len() { &s[..n] } else { s }
}
