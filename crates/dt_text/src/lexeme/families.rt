//! The longest lexeme, by the byte that it begins with.
ghost use Rattle.std.specs.Prelude.{◌≡◌, ◌≤◌, option_map, Some};
ghost use Rattle.dt_text.specs.Lexeme.Families.{punctuation, operator, single, first_in, is_dtc, first_at, second_of, keyword, dtc_keyword, keyword_in, Longest, given, ampersand, kind_by, slashed, operated, alone, and_alone};
ghost use Rattle.dt_text.specs.Lexeme.Fronts.{one_hex};

use crate::lexeme::bytes::{Class, begins, begins_letter, from, front, is_hex, is_letter, is_name};
use crate::lexeme::context::{Context, Mode};
use crate::lexeme::fronts::{
    character_len, hex_len, label_len, name_len, number_len, path_len, string_len, word_end,
    words_len,
};
use crate::lexeme::language::Language;
use crate::lexeme::lexeme::Kind;

/// The lexemes that begin with a byte.
#[derive(Clone, Copy)]
pub enum First {
    /// a string
    Quote(Language),
    /// a character literal, in dtc's language
    Apostrophe,
    /// a keyword or `/`
    Solidus(Language),
    /// a reference; inside parentheses also `&` and `&&`
    Ampersand(Language, bool),
    /// a literal with a leading 0
    Zero,
    Digit,
    /// a label or a name
    Letter,
    /// a name
    Other,
    /// a label
    Word,
    /// a label or a pair
    HexLetter,
    HexDigit,
    /// punctuation or an operator inside parentheses
    Operator(Kind),
    /// punctuation outside
    Alone(Kind),
    Nothing,
}

fn punctuation(c: u8) -> Option<Kind>
    ensures { result ≡ punctuation c }
{
    match c {
        b';' => Some(Kind::Semicolon),
        b'{' => Some(Kind::Brace),
        b'}' => Some(Kind::EndBrace),
        b'=' => Some(Kind::Equals),
        b',' => Some(Kind::Comma),
        b'<' => Some(Kind::Less),
        b'>' => Some(Kind::Greater),
        b'[' => Some(Kind::Square),
        b']' => Some(Kind::EndSquare),
        b'(' => Some(Kind::Paren),
        b')' => Some(Kind::EndParen),
        _ => None,
    }
}

fn operator(c: u8) -> Option<Kind>
    ensures { result ≡ operator c }
{
    match c {
        b'?' => Some(Kind::Question),
        b':' => Some(Kind::Colon),
        b'|' => Some(Kind::Or),
        b'^' => Some(Kind::Xor),
        b'+' => Some(Kind::Plus),
        b'-' => Some(Kind::Minus),
        b'*' => Some(Kind::Star),
        b'%' => Some(Kind::Percent),
        b'~' => Some(Kind::Tilde),
        b'!' => Some(Kind::Bang),
        _ => None,
    }
}

fn single(inside: bool, c: u8) -> First
    ensures { result ≡ single inside c }
{
    if let Some(kind) = punctuation(c) {
        return if inside {
            First::Operator(kind)
        } else {
            First::Alone(kind)
        };
    }
    if !inside {
        return First::Nothing;
    }
    match operator(c) {
        Some(kind) => First::Operator(kind),
        None => First::Nothing,
    }
}

fn first_in(mode: Mode, inside: bool, c: u8) -> First
    ensures { result ≡ first_in mode inside c }
{
    match mode {
        Mode::Name => {
            if is_letter(c) {
                First::Letter
            } else if is_name(c) {
                First::Other
            } else {
                single(inside, c)
            }
        }
        Mode::Value => {
            if is_letter(c) {
                First::Word
            } else if c == b'0' {
                First::Zero
            } else if c >= b'0' && c <= b'9' {
                First::Digit
            } else {
                single(inside, c)
            }
        }
        Mode::Byte => {
            if is_letter(c) {
                if is_hex(c) {
                    First::HexLetter
                } else {
                    First::Word
                }
            } else if is_hex(c) {
                First::HexDigit
            } else {
                single(inside, c)
            }
        }
    }
}

fn is_dtc(language: Language) -> bool
    ensures { result ≡ is_dtc language }
{
    match language {
        Language::Profile => false,
        Language::Dtc => true,
    }
}

/// What may begin with this byte in this context.
#[tactic(auto, unfolding(crate::specs::Lexeme::Families::first_at))]
pub(crate) fn first_at(context: Context, c: u8) -> First
    ensures { result ≡ first_at context c }
{
    if c == b'"' {
        First::Quote(context.language)
    } else if is_dtc(context.language) && c == b'\'' {
        First::Apostrophe
    } else if c == b'/' {
        First::Solidus(context.language)
    } else if c == b'&' {
        First::Ampersand(context.language, context.parens > 0)
    } else {
        first_in(context.mode, context.parens > 0, c)
    }
}

fn with_kind(kind: Kind, len: Option<usize>) -> Option<(Kind, usize)>
    ensures { result ≡ option_map (λ n. (kind, n)) len }
{
    match len {
        Some(n) => Some((kind, n)),
        None => None,
    }
}

fn keyword(s: &[u8]) -> Option<Kind>
    ensures { result ≡ keyword s.now }
{
    if s == b"dts-v1/".as_slice() {
        Some(Kind::Version)
    } else if s == b"plugin/".as_slice() {
        Some(Kind::Plugin)
    } else if s == b"memreserve/".as_slice() {
        Some(Kind::MemReserve)
    } else if s == b"bits/".as_slice() {
        Some(Kind::Bits)
    } else if s == b"delete-node/".as_slice() {
        Some(Kind::DeleteNode)
    } else if s == b"delete-property/".as_slice() {
        Some(Kind::DeleteProperty)
    } else {
        None
    }
}

fn dtc_keyword(s: &[u8]) -> Option<Kind>
    ensures { result ≡ dtc_keyword s.now }
{
    if s == b"omit-if-no-ref/".as_slice() {
        Some(Kind::OmitIfNoRef)
    } else if s == b"incbin/".as_slice() {
        Some(Kind::IncludeBinary)
    } else {
        None
    }
}

fn keyword_in(language: Language, s: &[u8]) -> Option<Kind>
    ensures { result ≡ keyword_in language s.now }
{
    match keyword(s) {
        Some(kind) => Some(kind),
        None => match language {
            Language::Profile => None,
            Language::Dtc => dtc_keyword(s),
        },
    }
}

/// A keyword, or the slash alone.
pub(crate) fn solidus(language: Language, s: &[u8]) -> (Kind, usize)
    ensures { Longest (slashed language) s.now (Some result) }
{
    let Some(n) = word_end(s) else {
        return (Kind::Slash, 0);
    };
    match keyword_in(language, front(s, n)) {
        Some(kind) => (kind, n),
        None => (Kind::Slash, 0),
    }
}

fn second_of(kind: Kind, c: u8) -> Option<Kind>
    ensures { result ≡ second_of kind c }
{
    match (kind, c) {
        (Kind::Less, b'=') => Some(Kind::LessEqual),
        (Kind::Less, b'<') => Some(Kind::ShiftLeft),
        (Kind::Greater, b'=') => Some(Kind::GreaterEqual),
        (Kind::Greater, b'>') => Some(Kind::ShiftRight),
        (Kind::Equals, b'=') => Some(Kind::EqualEqual),
        (Kind::Bang, b'=') => Some(Kind::NotEqual),
        (Kind::Or, b'|') => Some(Kind::OrOr),
        _ => None,
    }
}

// An operator of two characters, or the first alone.
fn operated(kind: Kind, s: &[u8]) -> (Kind, usize)
    ensures { Longest (operated kind) s.now (Some result) }
{
    match s {
        [] => (kind, 0),
        [c, ..] => match second_of(kind, *c) {
            Some(two) => (two, 1),
            None => (kind, 0),
        },
    }
}

// The operator `&`, inside parentheses.
fn and_alone(inside: bool) -> Option<(Kind, usize)>
    ensures { result ≡ and_alone inside }
{
    if inside { Some((Kind::And, 0)) } else { None }
}

// A reference, or inside parentheses an operator.
fn ampersand(language: Language, inside: bool, s: &[u8]) -> Option<(Kind, usize)>
    ensures { Longest (ampersand language inside) s.now result }
{
    if begins(s, b'{') {
        return match path_len(language, from(s, 1)) {
            Some(n) => Some((Kind::PathReference, n + 1)),
            None => and_alone(inside),
        };
    }
    if begins(s, b'&') {
        return if inside {
            Some((Kind::AndAnd, 1))
        } else {
            None
        };
    }
    if begins_letter(s) {
        return Some((Kind::Reference, words_len(from(s, 1)) + 1));
    }
    and_alone(inside)
}

// The second digit of a pair.
fn pair(s: &[u8]) -> Option<(Kind, usize)>
    ensures { Longest (given Kind.Pair one_hex) s.now result }
{
    match s {
        [c, ..] if is_hex(*c) => Some((Kind::Pair, 1)),
        _ => None,
    }
}

// A number with a leading 0.
fn zero(s: &[u8]) -> usize
    ensures { Longest (kind_by First.Zero) s.now (Some (Kind.Literal, result)) }
{
    match hex_len(s) {
        Some(n) => n,
        None => number_len(Class::Digit, s),
    }
}

/// The longest lexeme of a family, behind its first byte.
pub(crate) fn family(first: First, s: &[u8]) -> Option<(Kind, usize)>
    ensures { Longest (kind_by first) s.now result }
{
    match first {
        First::Quote(language) => with_kind(Kind::Text, string_len(language, s)),
        First::Apostrophe => with_kind(Kind::Character, character_len(s)),
        First::Solidus(language) => Some(solidus(language, s)),
        First::Ampersand(language, inside) => ampersand(language, inside, s),
        First::Zero => Some((Kind::Literal, zero(s))),
        First::Digit => Some((Kind::Literal, number_len(Class::Digit, s))),
        First::Letter => match label_len(s) {
            Some(n) => Some((Kind::Label, n)),
            None => Some((Kind::Name, name_len(s))),
        },
        First::Other => Some((Kind::Name, name_len(s))),
        First::Word => with_kind(Kind::Label, label_len(s)),
        First::HexLetter => match label_len(s) {
            Some(n) => Some((Kind::Label, n)),
            None => pair(s),
        },
        First::HexDigit => pair(s),
        First::Operator(kind) => Some(operated(kind, s)),
        First::Alone(kind) => Some((kind, 0)),
        First::Nothing => None,
    }
}
