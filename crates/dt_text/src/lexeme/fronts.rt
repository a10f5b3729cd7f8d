//! Where a string, a word, a path or a number ends, behind its first byte.
ghost use Rattle.std.specs.Prelude.{◌≡◌, ◌==◌, ◌&&◌, false, not, Some};
ghost use Rattle.dt_text.specs.Lexeme.Fronts.{Front, closes, closes_string, strings, closes_character, ends_label, labels, names, words, ends_word};
ghost use Rattle.dt_text.specs.Lexeme.Fronts.{path_step, may_close, closes_path, paths, path_of, ells, suffix, numbers, hexed};

use crate::lexeme::bytes::{
    Class, begins, begins_hex, begins_x, from, front, is_name, is_word, run_len,
};
use crate::lexeme::language::Language;
use dt_tree::MAX_NAME_LEN;

// Whether a byte is this one, with no backslash before it.
fn is_plain(escaped: bool, byte: u8, c: u8) -> bool
    ensures { result ≡ not escaped && c == byte }
{
    !escaped && c == byte
}

/// How long a text is up to its last quote, with it. The flag says that its first byte stands for itself.
pub fn quoted_len(quote: u8, escaped: bool, s: &[u8]) -> Option<usize>
    ensures { Front (closes quote escaped) s.now result }
{
    let mut is_escaped = escaped;
    for (i, c) in s.iter().enumerate() {
        if is_plain(is_escaped, quote, *c) {
            return Some(i + 1);
        }
        is_escaped = is_plain(is_escaped, b'\\', *c);
    }
    None
}

// Whether a line ends behind a backslash.
fn breaks_off(escaped: bool, c: u8) -> bool
    ensures { result ≡ escaped && c == 10 }
{
    escaped && c == b'\n'
}

// How long a string of dtc's language is behind its first quote.
fn dtc_string_len(s: &[u8]) -> Option<usize>
    ensures { Front (closes_string false) s.now result }
{
    let mut is_escaped = false;
    for (i, c) in s.iter().enumerate() {
        if breaks_off(is_escaped, *c) {
            return None;
        }
        if is_plain(is_escaped, b'"', *c) {
            return Some(i + 1);
        }
        is_escaped = is_plain(is_escaped, b'\\', *c);
    }
    None
}

/// How long a string is behind its first quote, with its last one.
pub(crate) fn string_len(language: Language, s: &[u8]) -> Option<usize>
    ensures { Front (strings language) s.now result }
{
    match language {
        Language::Profile => quoted_len(b'"', false, s),
        Language::Dtc => dtc_string_len(s),
    }
}

/// How long a character literal is behind its first apostrophe, with its last one.
pub fn character_len(s: &[u8]) -> Option<usize>
    ensures { Front (closes_character false) s.now result }
{
    let mut longest = None;
    let mut behind = false;
    for (i, c) in s.iter().enumerate() {
        if *c == b'\'' {
            if !behind {
                return Some(i + 1);
            }
            longest = Some(i + 1);
            behind = false;
        } else {
            behind = is_plain(false, b'\\', *c);
        }
    }
    longest
}

fn label_end(s: &[u8]) -> Option<usize>
    ensures { Front ends_label s.now result }
{
    for (i, c) in s.iter().enumerate() {
        if *c == b':' {
            return Some(i + 1);
        }
        if !is_word(*c) {
            return None;
        }
    }
    None
}

/// How long the label is, with its colon, behind its first letter.
pub(crate) fn label_len(s: &[u8]) -> Option<usize>
    ensures { Front labels s.now result }
{
    label_end(front(s, MAX_NAME_LEN))
}

/// How long the name is behind its first character.
pub(crate) fn name_len(s: &[u8]) -> usize
    ensures { Front names s.now (Some result) }
{
    run_len(Class::Name, front(s, MAX_NAME_LEN - 1))
}

/// How long the label of a reference is behind its first letter.
pub(crate) fn words_len(s: &[u8]) -> usize
    ensures { Front words s.now (Some result) }
{
    run_len(Class::Word, front(s, MAX_NAME_LEN - 1))
}

/// How far the next slash is, with it.
pub(crate) fn word_end(s: &[u8]) -> Option<usize>
    ensures { Front ends_word s.now result }
{
    for (i, c) in s.iter().enumerate() {
        if *c == b'/' {
            return Some(i + 1);
        }
    }
    None
}

// How long the name is with this byte of a path.
fn path_step(name: usize, c: u8) -> Option<usize>
    ensures { result ≡ path_step name c }
{
    if c == b'/' {
        if name > 0 { Some(0) } else { None }
    } else if name < MAX_NAME_LEN && is_name(c) {
        Some(name + 1)
    } else {
        None
    }
}

// Whether a brace may stand behind so many characters of a name.
fn may_close(language: Language, name: usize) -> bool
    ensures { result ≡ may_close language name }
{
    match language {
        Language::Profile => name > 0,
        Language::Dtc => true,
    }
}

fn path_end(language: Language, s: &[u8]) -> Option<usize>
    ensures { Front (closes_path language 0) s.now result }
{
    let mut name = 0;
    for (i, c) in s.iter().enumerate() {
        if *c == b'}' {
            return if may_close(language, name) {
                Some(i + 1)
            } else {
                None
            };
        }
        let Some(longer) = path_step(name, *c) else {
            return None;
        };
        name = longer;
    }
    None
}

/// How long the path of a reference is, with its last brace, behind its first brace.
pub(crate) fn path_len(language: Language, s: &[u8]) -> Option<usize>
    ensures { Front (paths language) s.now result }
{
    if !begins(s, b'/') {
        return None;
    }
    let names = from(s, 1);
    if begins(names, b'}') {
        return Some(2);
    }
    match path_end(language, names) {
        Some(n) => Some(n + 1),
        None => None,
    }
}

/// The path that the bytes between a reference's braces name: in dtc's language a slash may stand behind the last name.
pub fn path_of(s: &[u8]) -> &[u8]
    ensures { result.now ≡ path_of s.now }
{
    if s.len() > 1 && s[s.len() - 1] == b'/' {
        return &s[..s.len() - 1];
    }
    s
}

fn ells_len(s: &[u8]) -> usize
    ensures { Front ells s.now (Some result) }
{
    run_len(Class::Ell, front(s, 2))
}

fn suffix_len(s: &[u8]) -> usize
    ensures { Front suffix s.now (Some result) }
{
    if begins(s, b'U') {
        return ells_len(from(s, 1)) + 1;
    }
    ells_len(s)
}

/// How many digits of a class stand at the front, with the literal's suffix.
pub(crate) fn number_len(class: Class, s: &[u8]) -> usize
    ensures { Front (numbers class) s.now (Some result) }
{
    let digits = run_len(class, s);
    digits + suffix_len(from(s, digits))
}

/// How long the literal of hex digits is behind its leading `0`.
pub(crate) fn hex_len(s: &[u8]) -> Option<usize>
    ensures { Front hexed s.now result }
{
    if !begins_x(s) {
        return None;
    }
    let digits = from(s, 1);
    if !begins_hex(digits) {
        return None;
    }
    Some(number_len(Class::HexDigit, from(digits, 1)) + 2)
}
