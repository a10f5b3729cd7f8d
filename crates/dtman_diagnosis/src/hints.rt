//! What there is to do where reading stops, in words.

use crate::advice::{Halt, word_len};
use crate::diagnosis::Subject;
use crate::natures::nature_of_no_text;
use dt_text::lexeme::{Kind, Language};
use dt_text::place::named;
use std::alloc::{AllocError, Global};

/// What is meant by a word that is no value, or that is a label among cells.
pub(crate) fn meant(
    alloc: Global,
    halt: Halt<'_>,
    kind: Subject,
) -> Result<Option<Vec<u8>>, AllocError> {
    let rest = halt.rest();
    let word = rest.get(..word_len(rest)).unwrap_or(&[]);
    let is_value = kind == Subject::Word;
    if (is_value || halt.bracket == Some(Kind::Less)) && is_label(halt, word) {
        return Ok(Some(joined(alloc, b"&", word, b"")?));
    }
    if is_value && !is_truth(word) {
        return Ok(Some(joined(alloc, b"\"", word, b"\"")?));
    }
    Ok(None)
}

// Whether a word says what a property says by being there (Devicetree Specification v0.4, section 2.2.4).
fn is_truth(word: &[u8]) -> bool {
    word == b"true".as_slice() || word == b"false".as_slice()
}

fn joined(alloc: Global, before: &[u8], word: &[u8], behind: &[u8]) -> Result<Vec<u8>, AllocError> {
    let mut text = Vec::from_slice(alloc, before)?;
    text.extend_from_slice(word)?;
    text.extend_from_slice(behind)?;
    Ok(text)
}

// Whether the word is a label: before this place, or behind it, where nothing was read yet.
fn is_label(halt: Halt<'_>, word: &[u8]) -> bool {
    halt.lexemes.iter().any(|lexeme| lexeme.kind == Kind::Label
        && named(halt.origin.text, *lexeme) == word)
        || has_label(halt.rest(), word)
}

// Whether the word stands in the text with a colon behind it, and no letter before it.
fn has_label(text: &[u8], word: &[u8]) -> bool {
    for (place, c) in text.iter().enumerate() {
        if *c == b':' && ends_in(text.get(..place).unwrap_or(&[]), word) {
            return true;
        }
    }
    false
}

fn ends_in(text: &[u8], word: &[u8]) -> bool {
    match text.get(..text.len().saturating_sub(word.len())) {
        Some([.., c]) => text.ends_with(word) && !c.is_ascii_alphanumeric() && *c != b'_',
        _ => false,
    }
}

/// What to do at this place, where that is known.
pub(crate) fn hint(halt: Halt<'_>) -> Option<&'static str> {
    if halt.start == 0 {
        if let Some(words) = nature_of_no_text(halt.origin.text) {
            return Some(words);
        }
    }
    if let Some(words) = of_number(halt) {
        return Some(words);
    }
    if let Some(words) = of_dtc_language(halt) {
        return Some(words);
    }
    if let Some(words) = of_preprocessor(halt) {
        return Some(words);
    }
    if let Some(words) = of_character(halt.rest()) {
        return Some(words);
    }
    if let Some(words) = of_cells(halt) {
        return Some(words);
    }
    of_value(halt)
}

// Letters right behind a number.
fn of_number(halt: Halt<'_>) -> Option<&'static str> {
    let number = halt.before(1)?;
    let is_behind = number.kind == Kind::Literal && number.end as usize == halt.start;
    if is_behind && matches!(halt.rest(), [c, ..] if is_letter(*c)) {
        Some("a number has digits, behind `0x` those of base 16, and ends in `U`, `L` or neither")
    } else {
        None
    }
}

// A number where a value must begin, or a word of truth.
fn of_value(halt: Halt<'_>) -> Option<&'static str> {
    let rest = halt.rest();
    if halt.kind_before(1) == Some(Kind::Equals)
        && is_truth(rest.get(..word_len(rest)).unwrap_or(&[]))
    {
        return Some("a property that is there is true, and has no value");
    }
    let stop = halt.lexemes.get(halt.index)?;
    match (halt.kind_before(1)?, stop.kind) {
        (Kind::Equals, Kind::Literal) => Some("a number stands in `<..>`"),
        (Kind::Name, Kind::Text | Kind::Less | Kind::Square) => {
            Some("`=` stands between a property's name and its value")
        }
        _ => None,
    }
}

// Character literals, which the profile hasn't.
fn of_dtc_language(halt: Halt<'_>) -> Option<&'static str> {
    if halt.origin.language == Language::Profile && is_character(halt) {
        Some("character literals are of dtc's language, which `--dtc` reads")
    } else {
        None
    }
}

// Whether a character literal stands in cells.
fn is_character(halt: Halt<'_>) -> bool {
    halt.rest().first().copied() == Some(b'\'')
        && matches!(halt.bracket, Some(Kind::Less | Kind::Paren))
}

// Lines and words that the C preprocessor takes away.
fn of_preprocessor(halt: Halt<'_>) -> Option<&'static str> {
    let is_directive = begins_directive(halt.rest())
        || match halt.before(1) {
            Some(name) if name.kind == Kind::Name => {
                begins_directive(named(halt.origin.text, name))
            }
            _ => false,
        };
    if is_directive {
        Some("is the preprocessor run? Such lines are its own")
    } else if is_macro(halt) {
        Some("is it a macro, and the preprocessor run?")
    } else {
        None
    }
}

fn begins_directive(text: &[u8]) -> bool {
    text.starts_with(b"#include")
        || text.starts_with(b"#define")
        || text.starts_with(b"#undef")
        || text.starts_with(b"#if")
        || text.starts_with(b"#else")
        || text.starts_with(b"#endif")
}

// Whether a word of capitals stands here, or one with arguments.
fn is_macro(halt: Halt<'_>) -> bool {
    let rest = halt.rest();
    let len = word_len(rest);
    if len == 0 || halt.index < halt.lexemes.len() {
        return false;
    }
    let word = rest.get(..len).unwrap_or(&[]);
    let behind = rest.get(len..).unwrap_or(&[]);
    behind.starts_with(b"(") || len > 1 && !word.iter().any(|c| c.is_ascii_lowercase())
}

// Characters that look like those of the grammar.
fn of_character(rest: &[u8]) -> Option<&'static str> {
    match rest {
        [0xef, 0xbb, 0xbf, ..] => Some("it is a byte order mark (U+FEFF), which must go"),
        [0xc2, 0xa0, ..] => Some("it is a no-break space (U+00A0); a space is meant"),
        [0xe2, 0x80, 0x98 | 0x99, ..] => Some(
            "it is a typographic quote (U+2018, U+2019); strings stand in \"",
        ),
        [0xe2, 0x80, 0x9c..=0x9f, ..] => Some(
            "it is a typographic quote (U+201C to U+201F); strings stand in \"",
        ),
        [0xe2, 0x80, 0x8b, ..] => Some("it is a zero width space (U+200B), which must go"),
        [0xe2, 0x80, 0x90..=0x95, ..] => Some(
            "it is a typographic dash (U+2010 to U+2015); `-` is meant",
        ),
        [b'\'', ..] => Some("strings stand in \""),
        _ => None,
    }
}

// Operators and names among cells.
fn of_cells(halt: Halt<'_>) -> Option<&'static str> {
    if halt.bracket != Some(Kind::Less) {
        return None;
    }
    match halt.rest() {
        [
            b'+' | b'-' | b'*' | b'/' | b'%' | b'|' | b'^' | b'~' | b'!' | b'?' | b'<' | b'=',
            ..
        ] => { Some("an expression among cells stands in parentheses") }
        [b'&', c, ..] if !is_letter(*c) && *c != b'{' => {
            Some("an expression among cells stands in parentheses")
        }
        [c, ..] if is_letter(*c) => Some("a label stands behind `&`"),
        _ => None,
    }
}

fn is_letter(c: u8) -> bool {
    c.is_ascii_alphabetic() || c == b'_'
}
