//! `#` and `##` (C11, 6.10.3.2 and 6.10.3.3).

use crate::expansion::spelling::spell_string;
use crate::hides::Hides;
use crate::lexing::lexeme::token_len;
use crate::refusal::Fault;
use crate::token::Token;
use crate::words::{Kind, Words};
use std::alloc::{AllocError, Global};

/// A token of an argument's text.
pub(crate) fn stringized(
    alloc: Global,
    words: &mut Words,
    argument: &[Token],
    hash: &Token,
) -> Result<Token, Fault> {
    let mut text = Vec::new(alloc);
    spell_string(words, &mut text, argument)?;
    let word = words.make(text.as_slice(), hash.place)?;
    Ok(Token {
        word,
        kind: words.kind(word),
        ..*hash
    })
}

fn joined(
    alloc: Global,
    words: &Words,
    left: &Token,
    right: &Token,
) -> Result<Vec<u8>, AllocError> {
    let mut text = Vec::from_slice(alloc, words.text(left.word))?;
    text.extend_from_slice(words.text(right.word))?;
    Ok(text)
}

/// Puts a token behind the last: both as one, where they are one token, else side by side, as in `pin- ## name`.
pub(crate) fn paste(
    alloc: Global,
    words: &mut Words,
    hides: &mut Hides,
    out: &mut Vec<Token>,
    right: Token,
) -> Result<(), Fault> {
    let Some(left) = out.pop() else {
        out.push(right)?;
        return Ok(());
    };
    let text = joined(alloc, words, &left, &right)?;
    if token_len(text.as_slice()) != text.len() {
        out.push(left)?;
        out.push(right.after(right.space.spelled()))?;
        return Ok(());
    }
    let word = words.make(text.as_slice(), right.place)?;
    let spelled = if left.kind == Kind::Empty {
        right
    } else {
        left
    };
    out.push(Token {
        word,
        kind: words.kind(word),
        space: left.space,
        place: spelled.place,
        hide: hides.both(left.hide, right.hide)?,
    })?;
    Ok(())
}
