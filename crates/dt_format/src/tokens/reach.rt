//! How far a token reaches.
ghost use Rattle.std.specs.Prelude.{◌≡◌};
ghost use Rattle.dt_format.specs.Reach.{step, step_line, step_directive, step_comment, step_word, step_quoted, ends_word, splices, may_end, reach};

use crate::tokens::bytes::{byte_of, from, is_blank, is_mark, is_stop, is_white};
use crate::tokens::opening::deeper;
use crate::tokens::state::{Reached, State, Step, Within};

// Whether a backslash stands before, or blanks behind one (C11, 5.1.1.2, phase 2; gcc splices lines over blanks too).
fn splices(spliced: bool, c: u8) -> bool
    ensures { result ≡ splices spliced c }
{
    c == b'\\' || spliced && is_blank(c)
}

fn step_line(spliced: bool, c: u8) -> Step
    ensures { result ≡ step_line spliced c }
{
    if c == b'\n' && !spliced {
        Step::Stop
    } else {
        Step::Go(State::InRemark(splices(spliced, c)))
    }
}

fn step_directive(spliced: bool, c: u8, next: u8) -> Step
    ensures { result ≡ step_directive spliced c next }
{
    if c == b'\n' && !spliced {
        Step::Stop
    } else if c == b'/' && next == b'*' {
        Step::Go(State::CommentMark(Within::Line))
    } else if c == b'/' && next == b'/' {
        Step::Go(State::InRemark(false))
    } else {
        Step::Go(State::InDirective(splices(spliced, c)))
    }
}

fn step_comment(within: Within, c: u8, next: u8) -> Step
    ensures { result ≡ step_comment within c next }
{
    if c == b'*' && next == b'/' {
        Step::Go(State::CommentEnd(within))
    } else {
        Step::Go(State::InComment(within))
    }
}

// Whether a word ends before this byte.
fn ends_word(parens: usize, c: u8, next: u8) -> bool
    ensures { result ≡ ends_word parens c next }
{
    is_white(c)
        || is_stop(c)
        || c == b'"'
        || c == b'\''
        || c == b'/' && (next == b'*' || next == b'/')
        || c == b'&' && next == b'{'
        || parens == 0 && is_mark(c)
}

fn step_word(parens: usize, c: u8, next: u8) -> Step
    ensures { result ≡ step_word parens c next }
{
    if ends_word(parens, c, next) {
        Step::Stop
    } else if parens == 0 && c == b':' {
        Step::Last
    } else {
        Step::Go(State::InWord(deeper(parens, c)))
    }
}

fn step_quoted(quote: u8, c: u8) -> Step
    ensures { result ≡ step_quoted quote c }
{
    if c == quote {
        Step::Last
    } else if c == b'\\' {
        Step::Go(State::Escaped(quote))
    } else {
        Step::Go(State::InQuotes(quote))
    }
}

/// What a byte before another does to a token.
fn step(state: State, c: u8, next: u8) -> Step
    ensures { result ≡ step state c next }
{
    match state {
        State::CommentMark(within) => Step::Go(State::InComment(within)),
        State::InComment(within) => step_comment(within, c, next),
        State::CommentEnd(Within::Text) => Step::Last,
        State::CommentEnd(Within::Line) => Step::Go(State::InDirective(false)),
        State::InRemark(spliced) => step_line(spliced, c),
        State::InDirective(spliced) => step_directive(spliced, c, next),
        State::InQuotes(quote) => step_quoted(quote, c),
        State::Escaped(quote) => Step::Go(State::InQuotes(quote)),
        State::InPath => {
            if c == b'}' {
                Step::Last
            } else {
                Step::Go(State::InPath)
            }
        }
        State::AtMark => Step::Stop,
        State::InPair => Step::Last,
        State::InWord(parens) => step_word(parens, c, next),
    }
}

// Whether a token may end with the text.
fn may_end(state: State) -> bool
    ensures { result ≡ may_end state }
{
    match state {
        State::InRemark(_)
        | State::InDirective(_)
        | State::AtMark
        | State::InPair
        | State::InWord(_) => true,
        State::CommentMark(_) | State::InComment(_) | State::CommentEnd(_) => false,
        State::InQuotes(_) | State::Escaped(_) | State::InPath => false,
    }
}

/// How long a token is whose first byte stands before this text and leaves this to come, or None where it doesn't end.
pub(crate) fn reach(opening: State, s: &[u8]) -> Option<Reached>
    ensures { result ≡ reach opening 1 s.now }
{
    let mut state = opening;
    for (i, c) in s.iter().enumerate() {
        match step(state, *c, byte_of(from(s, i + 1))) {
            Step::Go(next) => state = next,
            Step::Stop => return Some(Reached { len: i + 1, state }),
            Step::Last => return Some(Reached { len: i + 2, state }),
        }
    }
    if may_end(state) {
        Some(Reached {
            len: s.len() + 1,
            state,
        })
    } else {
        None
    }
}
