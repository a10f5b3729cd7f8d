//! What may be written at a place, by what stands before it.

use crate::lexing::lexer::Lexer;
use crate::lexing::token::{Kind, Span, Token};
use crate::outlining::outliner::{Outliner, run};
use crate::outlining::statement::Purpose;
use std::alloc::{AllocError, Global};

/// What a word at a place may be.
#[derive(Clone, Copy, PartialEq, Eq, Debug)]
pub enum Wanted {
    /// A label behind `&`.
    Label,
    /// A macro, as in cells.
    Macro,
    /// The name of a property or a node.
    Name,
    /// Nothing that is known, as in a comment or a string.
    Nothing,
}

/// What is being written at a place.
#[derive(Clone, Copy, Debug)]
pub struct Writing {
    pub wanted: Wanted,
    /// The bytes of it that stand before the place.
    pub before: Span,
}

/// The token that a place is in, or that ends there; of two the one that is a name.
pub fn token_at(text: &[u8], place: usize) -> Option<Token> {
    let mut lexer = Lexer::new(text);
    let mut found = None;
    for _ in 0..=text.len().saturating_add(1) {
        let Some(token) = lexer.next_token() else {
            break;
        };
        if token.span.start > place {
            break;
        }
        if token.span.touches(place) && (found.is_none() || is_telling(token.kind)) {
            found = Some(token);
        }
    }
    found
}

fn is_telling(kind: Kind) -> bool {
    matches!(
        kind,
        Kind::Word | Kind::Label | Kind::Reference | Kind::PathReference | Kind::Header | Kind::Text
    )
}

/// The last token of a text.
fn last_token(text: &[u8]) -> Option<Token> {
    let mut lexer = Lexer::new(text);
    let mut last = None;
    for _ in 0..=text.len().saturating_add(1) {
        let Some(token) = lexer.next_token() else {
            break;
        };
        if token.kind != Kind::DirectiveEnd {
            last = Some(token);
        }
    }
    last
}

/// What is being written where this text, the front of a source, ends.
pub fn writing_at(alloc: Global, front: &[u8]) -> Result<Writing, AllocError> {
    let mut outliner = Outliner::new(alloc, front);
    let mut lexer = Lexer::new(front);
    run(&mut outliner, &mut lexer, front.len().saturating_add(1))?;
    let in_value = lexer.is_in_expression() || outliner.statement.purpose == Purpose::Gives;
    let end = front.len();
    let token = last_token(front).filter(|token| token.span.end == end);
    let wanted = wanted_by(token, in_value);
    let start = match token {
        Some(token) if wanted == Wanted::Label => token.span.start.saturating_add(1),
        Some(token) if token.kind == Kind::Word => token.span.start,
        _ => end,
    };
    Ok(Writing {
        wanted,
        before: Span { start, end },
    })
}

/// What is wanted behind a token that the place touches, if there is one.
fn wanted_by(token: Option<Token>, in_value: bool) -> Wanted {
    let kind = match token {
        Some(token) => token.kind,
        None => Kind::Other,
    };
    match kind {
        Kind::Reference => Wanted::Label,
        Kind::Text
        | Kind::Character
        | Kind::Comment
        | Kind::Header
        | Kind::Directive
        | Kind::Keyword
        | Kind::PathReference
        | Kind::Label => Wanted::Nothing,
        _ if in_value => Wanted::Macro,
        _ => Wanted::Name,
    }
}
