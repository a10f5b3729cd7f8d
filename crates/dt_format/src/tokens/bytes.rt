//! Classes of bytes, and runs of white space.
ghost use Rattle.std.specs.Prelude.{◌≡◌, ◌≤◌, ◌==◌, ◌||◌, drop, length};
ghost use Rattle.dt_format.specs.Bytes.{is_white, is_blank, is_letter, is_name, is_mark, is_stop, is_pair, byte_of, behind_white, starts_behind};

/// White space (C11, 6.4).
pub(crate) fn is_white(c: u8) -> bool
    ensures { result ≡ is_white c }
{
    c == b' ' || c >= 9 && c <= 13
}

/// A character of a name (Devicetree Specification v0.4, sections 2.2.1 and 2.2.4).
pub(crate) fn is_name(c: u8) -> bool
    ensures { result ≡ is_name c }
{
    is_letter(c)
        || c == b','
        || c == b'.'
        || c == b'+'
        || c == b'*'
        || c == b'#'
        || c == b'?'
        || c == b'@'
        || c == b'-'
}

/// White space that doesn't end a line.
pub(crate) fn is_blank(c: u8) -> bool
    ensures { result ≡ is_blank c }
{
    c != b'\n' && is_white(c)
}

/// A letter of a directive's name (C11, 6.4.2.1).
pub(crate) fn is_letter(c: u8) -> bool
    ensures { result ≡ is_letter c }
{
    c >= b'a' && c <= b'z' || c >= b'A' && c <= b'Z' || c >= b'0' && c <= b'9' || c == b'_'
}

/// What ends a statement or a body, in parentheses too.
pub(crate) fn is_stop(c: u8) -> bool
    ensures { result ≡ is_stop c }
{
    c == b';' || c == b'{' || c == b'}'
}

/// A token of one byte, outside parentheses.
pub(crate) fn is_mark(c: u8) -> bool
    ensures { result ≡ is_mark c }
{
    is_stop(c) || c == b'=' || c == b'<' || c == b'>' || c == b'[' || c == b']'
}

/// A token of two bytes: `<<`, `<=`, `==`, `>=`, `>>` (C11, 6.4.6).
pub(crate) fn is_pair(c: u8, d: u8) -> bool
    ensures { result ≡ is_pair c d }
{
    d == c && (c == b'<' || c == b'>' || c == b'=') || d == b'=' && (c == b'<' || c == b'>')
}

/// The byte at the front, or 0 at the end.
pub(crate) fn byte_of(s: &[u8]) -> u8
    ensures { result ≡ byte_of s.now }
{
    match s {
        [c, ..] => *c,
        [] => 0,
    }
}

/// What stands behind the first `n` bytes.
pub(crate) fn from(s: &[u8], n: usize) -> &[u8]
    requires { n ≤ length s.now }
    ensures { result.now ≡ drop n s.now }
{
    &s[n..]
}

/// How much white space stands at the front.
pub(crate) fn white_len(s: &[u8]) -> usize
    ensures within { result ≤ length s.now }
    ensures behind { drop result s.now ≡ behind_white s.now }
{
    for (i, c) in s.iter().enumerate() {
        if !is_white(*c) {
            return i;
        }
    }
    s.len()
}

// Whether a line begins behind a byte of white space, with nothing but white space between.
fn starts_on(starts: bool, c: u8) -> bool
    ensures { result ≡ starts || c == 10 }
{
    starts || c == b'\n'
}

/// Whether only white space stands before what isn't white on its line, where the flag says so of the front.
pub(crate) fn starts_behind(starts: bool, s: &[u8]) -> bool
    ensures { result ≡ starts_behind starts s.now }
{
    let mut is_start = starts;
    for c in s {
        if !is_white(*c) {
            return is_start;
        }
        is_start = starts_on(is_start, *c);
    }
    is_start
}

/// How many lines end in a text.
pub(crate) fn line_feeds(s: &[u8]) -> usize {
    s.iter().filter(|c| **c == b'\n').count()
}
