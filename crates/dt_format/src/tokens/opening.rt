//! What a token's first byte says of it.
ghost use Rattle.std.specs.Prelude.{◌≡◌};
ghost use Rattle.dt_format.specs.Opening.{opening, mark_or_word, deeper, kind_of, place_behind};

use crate::tokens::bytes::{byte_of, is_mark, is_pair, is_stop};
use crate::tokens::directive::is_directive;
use crate::tokens::kind::Kind;
use crate::tokens::state::{Place, State, Within};

/// The most parentheses that are counted; further ones don't open nor close.
pub(crate) const MAX_PARENS: usize = 1000;

/// How many parentheses are open behind this byte.
pub(crate) fn deeper(parens: usize, c: u8) -> usize
    ensures { result ≡ deeper parens c }
{
    if c == b'(' && parens < MAX_PARENS {
        parens + 1
    } else if c == b')' && parens > 0 {
        parens - 1
    } else {
        parens
    }
}

// A mark, where one stands here, or a word.
fn mark_or_word(parens: usize, c: u8, next: u8) -> State
    ensures { result ≡ mark_or_word parens c next }
{
    if is_stop(c) {
        State::AtMark
    } else if parens == 0 && is_pair(c, next) {
        State::InPair
    } else if parens == 0 && (is_mark(c) || c == b':') {
        State::AtMark
    } else {
        State::InWord(deeper(parens, c))
    }
}

/// What is left to come behind a token's first byte, which stands before this text.
pub(crate) fn opening(place: Place, c: u8, rest: &[u8]) -> State
    ensures { result ≡ opening place c rest.now }
{
    let next = byte_of(rest);
    if c == b'/' && next == b'*' {
        State::CommentMark(Within::Text)
    } else if c == b'/' && next == b'/' {
        State::InRemark(false)
    } else if c == b'"' || c == b'\'' {
        State::InQuotes(c)
    } else if c == b'&' && next == b'{' {
        State::InPath
    } else if c == b'#' && place.starts && is_directive(rest) {
        State::InDirective(false)
    } else {
        mark_or_word(place.parens, c, next)
    }
}

/// What a token is, by what its first byte leaves to come.
pub(crate) fn kind_of(state: State) -> Kind
    ensures { result ≡ kind_of state }
{
    match state {
        State::CommentMark(_) | State::InComment(_) | State::CommentEnd(_) => Kind::Comment,
        State::InRemark(_) => Kind::Remark,
        State::InDirective(_) => Kind::Directive,
        State::InQuotes(_) | State::Escaped(_) => Kind::Quoted,
        State::AtMark | State::InPair => Kind::Mark,
        State::InPath | State::InWord(_) => Kind::Word,
    }
}

/// Where the text stands behind a token that ends so.
pub(crate) fn place_behind(place: Place, end: State) -> Place
    ensures { result ≡ place_behind place end }
{
    let parens = match end {
        State::InWord(parens) => parens,
        State::AtMark => 0,
        _ => place.parens,
    };
    Place {
        starts: false,
        parens,
    }
}
