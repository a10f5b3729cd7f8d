//! A body with the arguments in the parameters' places (C11, 6.10.3.1).

use crate::definition::{Element, Macro, Role};
use crate::expansion::frame::Call;
use crate::expansion::pasting::{paste, stringized};
use crate::hides::Hides;
use crate::refusal::Fault;
use crate::token::{Space, Token};
use crate::words::{Kind, Words};
use std::alloc::{AllocError, Global};

/// A body in the making: its tokens, whether `##` is before the next, and what an empty piece hands on.
#[derive(Drop)]
struct Work {
    alloc: Global,
    out: Vec<Token>,
    pasting: bool,
    carried: Space,
}

/// Tokens that stand in an element's place: what is before the first, and what they hand on.
#[derive(Drop)]
struct Piece<'t> {
    tokens: &'t [Token],
    space: Space,
    after: Space,
}

impl Work {
    /// Puts a piece behind what is there.
    fn add(
        &mut self,
        words: &mut Words,
        hides: &mut Hides,
        piece: &Piece<'_>,
        place: &Token,
    ) -> Result<(), Fault> {
        let Some((head, tail)) = piece.tokens.split_first() else {
            self.carried = self.carried.and(place.space.handed(false));
            return Ok(());
        };
        if self.pasting {
            self.pasting = false;
            self.carried = Space::EDGE;
            paste(
                self.alloc,
                words,
                hides,
                &mut self.out,
                head.after(piece.space),
            )?;
            return Ok(self.add_behind_paste(tail)?);
        }
        self.out.push(head.after(piece.space.and(self.carried)))?;
        self.carried = piece.after;
        self.out.extend_from_slice(tail)?;
        Ok(())
    }

    /// Puts the tokens of an argument behind its first, which was pasted.
    fn add_behind_paste(&mut self, tail: &[Token]) -> Result<(), AllocError> {
        if let Some((second, others)) = tail.split_first() {
            self.out.push(second.after(second.space.and(Space::EDGE)))?;
            self.out.extend_from_slice(others)?;
        }
        Ok(())
    }

    /// What a place hands to the first token there: nothing behind `##`.
    fn space_at(&self, place: &Token, own: Space) -> Space {
        if self.pasting {
            own
        } else {
            place.space.handed(own.own)
        }
    }

    /// Puts an argument as it is.
    fn put_beside(
        &mut self,
        words: &mut Words,
        hides: &mut Hides,
        argument: &[Token],
        place: &Token,
    ) -> Result<(), Fault> {
        let empty = [Token {
            word: 0,
            kind: Kind::Empty,
            space: Space::NONE,
            place: place.place,
            hide: 0,
        }];
        let tokens: &[Token] = if argument.is_empty() {
            &empty
        } else {
            argument
        };
        let own = first_space(tokens);
        let piece = Piece {
            tokens,
            space: self.space_at(place, own),
            after: Space::EDGE,
        };
        self.add(words, hides, &piece, place)
    }

    /// `, ## rest`: the comma goes where the rest is empty, else nothing is pasted.
    fn put_rest(
        &mut self,
        words: &mut Words,
        hides: &mut Hides,
        argument: &[Token],
        place: &Token,
    ) -> Result<(), Fault> {
        self.pasting = false;
        if argument.is_empty() {
            let _ = self.out.pop();
            return Ok(());
        }
        let piece = Piece {
            tokens: argument,
            space: first_space(argument).spelled(),
            after: Space::EDGE,
        };
        self.add(words, hides, &piece, place)
    }

    /// Whether `,` and `##` are before the rest.
    fn is_before_rest(&self, meaning: &Macro, number: usize) -> bool {
        let variadic = match &meaning.parameters {
            Some(parameters) => parameters.is_rest(number),
            None => false,
        };
        let comma = match self.out.last() {
            Some(token) => token.kind == Kind::Comma,
            None => false,
        };
        self.pasting && variadic && comma
    }

    /// Puts tokens in a parameter's place.
    fn put_given(
        &mut self,
        words: &mut Words,
        hides: &mut Hides,
        tokens: &[Token],
        place: &Token,
    ) -> Result<(), Fault> {
        let piece = Piece {
            tokens,
            space: self.space_at(place, first_space(tokens)),
            after: Space::EDGE,
        };
        self.add(words, hides, &piece, place)
    }

    /// Puts a token of the body.
    fn put_plain(
        &mut self,
        words: &mut Words,
        hides: &mut Hides,
        token: &Token,
    ) -> Result<(), Fault> {
        let after = if token.kind == Kind::Hash {
            Space::EDGE
        } else {
            Space::NONE
        };
        let piece = Piece {
            tokens: &[*token],
            space: token.space,
            after,
        };
        self.add(words, hides, &piece, token)
    }

    /// Puts what an element gives.
    fn put(
        &mut self,
        words: &mut Words,
        hides: &mut Hides,
        meaning: &Macro,
        call: &Call,
        element: &Element,
    ) -> Result<(), Fault> {
        let place = &element.token;
        match element.role {
            Role::Plain => self.put_plain(words, hides, place),
            Role::Paste => {
                self.pasting = true;
                Ok(())
            }
            Role::Text(number) => {
                let text = stringized(self.alloc, words, call.argument(number), place)?;
                self.put_given(words, hides, &[text], place)
            }
            Role::Parameter(number) => self.put_given(words, hides, call.expansion(number), place),
            Role::Beside(number) => {
                if self.is_before_rest(meaning, number) {
                    self.put_rest(words, hides, call.argument(number), place)
                } else {
                    self.put_beside(words, hides, call.argument(number), place)
                }
            }
        }
    }
}

/// What is before the first of tokens.
pub(crate) fn first_space(tokens: &[Token]) -> Space {
    match tokens.first() {
        Some(token) => token.space,
        None => Space::NONE,
    }
}

/// The tokens that aren't empty, each not read again as what a call hides.
fn hidden(
    alloc: Global,
    hides: &mut Hides,
    tokens: &[Token],
    hide: usize,
) -> Result<Vec<Token>, Fault> {
    let mut out = Vec::new(alloc);
    for token in tokens {
        if token.kind != Kind::Empty {
            let hide = hides.either(token.hide, hide, token.place)?;
            out.push(Token { hide, ..*token })?;
        }
    }
    Ok(out)
}

/// What a call comes to before it is read again.
pub(crate) fn substitute(
    alloc: Global,
    words: &mut Words,
    hides: &mut Hides,
    meaning: &Macro,
    call: &Call,
) -> Result<Vec<Token>, Fault> {
    let mut work = Work {
        alloc,
        out: Vec::new(alloc),
        pasting: false,
        carried: Space::NONE,
    };
    for element in meaning.body.iter() {
        work.put(words, hides, meaning, call, element)?;
    }
    hidden(alloc, hides, work.out.as_slice(), call.hide)
}
