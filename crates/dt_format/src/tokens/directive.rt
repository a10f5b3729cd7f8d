//! Lines of the preprocessor's.
ghost use Rattle.std.specs.Prelude.{◌≡◌};
ghost use Rattle.dt_format.specs.Directive.{is_directive, names_branch, names_other, word_of, is_free};

use crate::tokens::bytes::{is_letter, is_white};

// The letters at the front.
fn word_of(s: &[u8]) -> &[u8]
    ensures { result.now ≡ word_of s.now }
{
    for (i, c) in s.iter().enumerate() {
        if !is_letter(*c) {
            return &s[..i];
        }
    }
    s
}

// Whether a word names a directive of a condition (C11, 6.10.1).
fn names_branch(word: &[u8]) -> bool
    ensures { result ≡ names_branch word.now }
{
    word == b"if".as_slice()
        || word == b"ifdef".as_slice()
        || word == b"ifndef".as_slice()
        || word == b"elif".as_slice()
        || word == b"else".as_slice()
        || word == b"endif".as_slice()
}

// Whether a word names another directive (C11, 6.10.2 to 6.10.6; `warning` and `include_next` are gcc's).
fn names_other(word: &[u8]) -> bool
    ensures { result ≡ names_other word.now }
{
    word == b"include".as_slice()
        || word == b"define".as_slice()
        || word == b"undef".as_slice()
        || word == b"line".as_slice()
        || word == b"error".as_slice()
        || word == b"warning".as_slice()
        || word == b"pragma".as_slice()
        || word == b"include_next".as_slice()
}

// Whether white space follows a number sign, or nothing.
fn is_free(s: &[u8]) -> bool
    ensures { result ≡ is_free s.now }
{
    match s {
        [c, ..] => is_white(*c),
        [] => true,
    }
}

/// Whether a number sign, at the front of a line and before this text, begins a directive; else it begins the name of a property.
pub(crate) fn is_directive(s: &[u8]) -> bool
    ensures { result ≡ is_directive s.now }
{
    if is_free(s) {
        return true;
    }
    let word = word_of(s);
    names_branch(word) || names_other(word)
}
