//! Blanks, comments and line markers, which stand between lexemes.
ghost use Rattle.std.specs.Prelude.{◌≡◌, ◌≤◌, length, IfSome, option_map, true, IfErr, IfOk, MatchResult, Some};
ghost use Rattle.dt_text.specs.Lexeme.Gaps.{SkipsGap, BreaksOff, IsGap, comment_end, line_end, ends_comment, begins_comment, begins_plain_line, begins_line, begins_dtc_marker, begins_digit, begins_number, behind_blanks, behind_word, is_space, begins_blank};

use crate::lexeme::bytes::from;
use crate::lexeme::language::Language;

/// Whether a comment ends here.
pub fn ends_comment(s: &[u8]) -> bool
    ensures value { result ≡ ends_comment s.now }
    ensures long { result ≡ true → 2 ≤ length s.now }
{
    match s {
        [c, d, ..] => *c == b'*' && *d == b'/',
        _ => false,
    }
}

/// Whether a comment begins here.
pub fn begins_comment(s: &[u8]) -> bool
    ensures value { result ≡ begins_comment s.now }
    ensures long { result ≡ true → 2 ≤ length s.now }
{
    match s {
        [c, d, ..] => *c == b'/' && *d == b'*',
        _ => false,
    }
}

// A comment of two slashes, or a line marker that each language has.
fn begins_plain_line(s: &[u8]) -> bool
    ensures value { result ≡ begins_plain_line s.now }
    ensures long { result ≡ true → 2 ≤ length s.now }
{
    match s {
        [b'/', d, ..] => *d == b'/',
        [b'#', b' ', e, ..] => *e >= b'0' && *e <= b'9',
        _ => false,
    }
}

/// What stands behind the word `line`, where a text begins with it, or else the text.
pub fn behind_word(s: &[u8]) -> &[u8]
    ensures { result.now ≡ behind_word s.now }
{
    match s {
        [b'l', b'i', b'n', b'e', rest @ ..] => rest,
        _ => s,
    }
}

fn is_space(c: u8) -> bool
    ensures { result ≡ is_space c }
{
    c == b' ' || c == b'\t'
}

// What stands behind spaces and tabs.
fn behind_blanks(s: &[u8]) -> &[u8]
    ensures { result.now ≡ behind_blanks s.now }
{
    for (i, c) in s.iter().enumerate() {
        if !is_space(*c) {
            return from(s, i);
        }
    }
    from(s, s.len())
}

fn begins_digit(s: &[u8]) -> bool
    ensures { result ≡ begins_digit s.now }
{
    match s {
        [c, ..] => *c >= b'0' && *c <= b'9',
        [] => false,
    }
}

// Blanks, and a number behind them.
fn begins_number(s: &[u8]) -> bool
    ensures value { result ≡ begins_number s.now }
    ensures long { result ≡ true → 1 ≤ length s.now }
{
    match s {
        [c, rest @ ..] => is_space(*c) && begins_digit(behind_blanks(rest)),
        [] => false,
    }
}

/// Whether a line marker of the preprocessor's begins here, with the word `line` or without (dtc 1.6, manual.txt, section 4.1).
pub fn begins_dtc_marker(s: &[u8]) -> bool
    ensures value { result ≡ begins_dtc_marker s.now }
    ensures long { result ≡ true → 2 ≤ length s.now }
{
    match s {
        [b'#', rest @ ..] => begins_number(behind_word(rest)),
        _ => false,
    }
}

fn begins_line(language: Language, s: &[u8]) -> bool
    ensures value { result ≡ begins_line language s.now }
    ensures long { result ≡ true → 2 ≤ length s.now }
{
    match language {
        Language::Profile => begins_plain_line(s),
        Language::Dtc => begins_plain_line(s) || begins_dtc_marker(s),
    }
}

fn begins_blank(s: &[u8]) -> bool
    ensures value { result ≡ begins_blank s.now }
    ensures long { result ≡ true → 1 ≤ length s.now }
{
    match s {
        [c, ..] => *c == b' ' || *c >= 9 && *c <= 13,
        [] => false,
    }
}

// What follows the first end of a comment.
fn comment_end<'a>(s: &'a [u8]) -> Option<&'a [u8]>
    ensures gives { option_map (λ t. t.now) result ≡ comment_end s.now }
    ensures shorter { IfSome result (λ t. length t.now ≤ length s.now) }
{
    let mut left = s;
    while left.len() >= 2 {
        if ends_comment(left) {
            return Some(from(left, 2));
        }
        left = from(left, 1);
    }
    None
}

// What stands from the end of the line on.
fn line_end(s: &[u8]) -> &[u8]
    ensures gives { result.now ≡ line_end s.now }
    ensures shorter { length result.now ≤ length s.now }
{
    for (i, c) in s.iter().enumerate() {
        if *c == b'\n' {
            return from(s, i);
        }
    }
    from(s, s.len())
}

/// What follows the gap, or what stands from the comment on that doesn't end.
pub fn skip_gap<'a>(language: Language, s: &'a [u8]) -> Result<&'a [u8], &'a [u8]>
    ensures gap { MatchResult result (λ t. SkipsGap language s.now (Some t.now)) (λ t. SkipsGap language s.now None) }
    ensures unclosed { IfErr result (λ t. BreaksOff language s.now t.now) }
    ensures shorter { MatchResult result (λ t. length t.now ≤ length s.now) (λ t. length t.now ≤ length s.now) }
{
    let mut left = s;
    'gaps: loop {
        if begins_blank(left) {
            left = from(left, 1);
        } else if begins_line(language, left) {
            left = line_end(from(left, 2));
        } else if begins_comment(left) {
            match comment_end(from(left, 2)) {
                Some(after) => left = after,
                None => return Err(left),
            }
        } else {
            return Ok(left);
        }
    }
}
