//! Brackets that are open.

use dt_text::lexeme::{Kind, Lexeme};
use std::alloc::{AllocError, Global};

/// The brackets that are open behind some lexemes, by their indices, and how many of them are parentheses.
#[derive(Drop)]
struct Open {
    brackets: Vec<usize>,
    parens: usize,
}

impl Open {
    fn new(alloc: Global) -> Self {
        Open {
            brackets: Vec::new(alloc),
            parens: 0,
        }
    }

    // Goes on over one lexeme. Inside parentheses `<` and `>` are operators.
    fn step(&mut self, index: usize, kind: Kind) -> Result<(), AllocError> {
        match kind {
            Kind::Brace | Kind::Square => self.brackets.push(index)?,
            Kind::Less if self.parens == 0 => self.brackets.push(index)?,
            Kind::Paren => {
                self.parens = self.parens.saturating_add(1);
                self.brackets.push(index)?;
            }
            Kind::EndParen => {
                self.parens = self.parens.saturating_sub(1);
                self.brackets.pop();
            }
            Kind::EndBrace | Kind::EndSquare => {
                self.brackets.pop();
            }
            Kind::Greater if self.parens == 0 => {
                self.brackets.pop();
            }
            _ => {}
        }
        Ok(())
    }
}

/// The bracket that is open innermost behind these lexemes.
pub(crate) fn innermost(alloc: Global, lexemes: &[Lexeme]) -> Result<Option<usize>, AllocError> {
    let mut open = Open::new(alloc);
    for (i, lexeme) in lexemes.iter().enumerate() {
        open.step(i, lexeme.kind)?;
    }
    Ok(open.brackets.last().copied())
}

/// The bracket that is open innermost before the lexeme of this index, where none behind closes it.
pub(crate) fn unclosed(
    alloc: Global,
    lexemes: &[Lexeme],
    index: usize,
) -> Result<Option<usize>, AllocError> {
    let mut open = Open::new(alloc);
    let mut depth: usize = 0;
    let mut found = None;
    for (i, lexeme) in lexemes.iter().enumerate() {
        open.step(i, lexeme.kind)?;
        if i < index {
            depth = open.brackets.len();
            found = open.brackets.last().copied();
        } else if open.brackets.len() < depth {
            return Ok(None);
        }
    }
    Ok(found)
}

/// A body that by its lines' indentation should end before a lexeme: its brace, and that one.
#[derive(Clone, Copy)]
pub(crate) struct Misfit {
    pub opened: usize,
    pub before: usize,
}

/// A body's brace, how far the line is indented that its statement begins, where it does, and the first statement in it that isn't
/// indented more.
#[derive(Clone, Copy)]
struct Body {
    brace: usize,
    indent: Option<usize>,
    stranger: Option<usize>,
}

/// The first body whose last brace is indented less than its own statement, or which is open at the lexeme of this index and not
/// indented less than that. It should end before the first statement in it that isn't indented more than its own.
pub(crate) fn misfit_in(
    alloc: Global,
    text: &[u8],
    lexemes: &[Lexeme],
    index: usize,
) -> Result<Option<Misfit>, AllocError> {
    let mut bodies: Vec<Body> = Vec::new(alloc);
    let mut indent = None;
    let mut begins = true;
    for (i, lexeme) in lexemes.iter().enumerate() {
        if begins {
            indent = indent_of(text, *lexeme);
            note_stranger(&mut bodies, lexeme.kind, indent, i);
        }
        begins = matches!(lexeme.kind, Kind::Semicolon | Kind::Brace | Kind::EndBrace);
        let misfit = match lexeme.kind {
            _ if i == index => return Ok(open_at(bodies.last().copied(), indent, i)),
            Kind::Brace => {
                bodies.push(Body {
                    brace: i,
                    indent,
                    stranger: None,
                })?;
                None
            }
            Kind::EndBrace => ended_at(bodies.pop(), indent_of(text, *lexeme), i),
            _ => None,
        };
        if misfit.is_some() {
            return Ok(misfit);
        }
    }
    Ok(None)
}

// In the innermost body a statement that isn't indented more than the body's own.
fn note_stranger(bodies: &mut Vec<Body>, kind: Kind, indent: Option<usize>, at: usize) {
    let Some(body) = bodies.last_mut() else {
        return;
    };
    let is_statement = !matches!(kind, Kind::EndBrace);
    let (Some(own), Some(indent)) = (body.indent, indent) else {
        return;
    };
    if is_statement && indent <= own && body.stranger.is_none() {
        body.stranger = Some(at);
    }
}

// A body that is indented more than the brace that ends it.
fn ended_at(body: Option<Body>, indent: Option<usize>, before: usize) -> Option<Misfit> {
    let body = body?;
    if indent? < body.indent? {
        Some(Misfit {
            opened: body.brace,
            before: body.stranger.unwrap_or(before),
        })
    } else {
        None
    }
}

// A body that is indented as much as what stands in it, or more.
fn open_at(body: Option<Body>, indent: Option<usize>, before: usize) -> Option<Misfit> {
    let body = body?;
    if indent? <= body.indent? {
        Some(Misfit {
            opened: body.brace,
            before: body.stranger.unwrap_or(before),
        })
    } else {
        None
    }
}

// How many blanks stand before a lexeme that is the first of its line.
fn indent_of(text: &[u8], lexeme: Lexeme) -> Option<usize> {
    let before = text.get(..lexeme.start as usize)?;
    let mut blanks: usize = 0;
    for c in before.iter().rev() {
        match *c {
            b' ' | b'\t' => blanks = blanks.saturating_add(1),
            b'\n' => return Some(blanks),
            _ => return None,
        }
    }
    Some(blanks)
}
