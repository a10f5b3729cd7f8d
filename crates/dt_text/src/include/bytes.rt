//! Classes of bytes, runs of them, and parts of a text.
ghost use Rattle.std.specs.Prelude.{◌≡◌, ◌==◌, count_by, drop};
ghost use Rattle.std.specs.Char.{digit_value};
ghost use Rattle.dt_text.specs.Lexeme.Bytes.{is_blank, is_digit};
ghost use Rattle.dt_text.specs.Include.Bytes.{passes, run_of};

pub(crate) use crate::lexeme::bytes::{begins, front, is_letter};

/// Bytes that stand in one run.
#[derive(Clone, Copy)]
pub(crate) enum Class {
    /// of a word: letters and digits
    Word,
    Digit,
    Blank,
    /// of a line
    Line,
    /// with which no string, no comment and no keyword begins
    Plain,
}

fn is_digit(c: u8) -> bool
    ensures { result ≡ is_digit c }
{
    c >= b'0' && c <= b'9'
}

/// The value of a digit or a letter, 36 of any other byte.
pub(crate) fn digit_value(c: u8) -> u8
    ensures { result ≡ digit_value c }
{
    match c {
        b'0'..=b'9' => c - b'0',
        b'A'..=b'Z' => c - b'A' + 10,
        b'a'..=b'z' => c - b'a' + 10,
        _ => 36,
    }
}

fn is_blank(c: u8) -> bool
    ensures { result ≡ is_blank c }
{
    c == b' ' || c >= 9 && c <= 13
}

fn passes(class: Class, c: u8) -> bool
    ensures { result ≡ passes class c }
{
    match class {
        Class::Word => is_letter(c) || is_digit(c),
        Class::Digit => is_digit(c),
        Class::Blank => is_blank(c),
        Class::Line => c != b'\n',
        Class::Plain => c != b'"' && c != b'\'' && c != b'/',
    }
}

/// How many bytes of this class stand at the front.
pub(crate) fn run_len(class: Class, s: &[u8]) -> usize
    ensures { result ≡ run_of class s.now }
{
    for (i, c) in s.iter().enumerate() {
        if !passes(class, *c) {
            return i;
        }
    }
    s.len()
}

/// What stands behind the first `n` bytes.
pub(crate) fn behind(s: &[u8], n: usize) -> &[u8]
    ensures { result.now ≡ drop n s.now }
{
    if n < s.len() { &s[n..] } else { b"" }
}

/// How many lines end in these bytes.
pub(crate) fn line_ends(s: &[u8]) -> usize
    ensures { result ≡ count_by (λ c. c == 10) s.now }
{
    s.iter().filter(|c| **c == b'\n').count()
}
