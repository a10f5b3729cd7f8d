//! Where a lexeme stands: in which statement and in which element.

use dt_source::MAX_SOURCE_LEN;
use dt_text::lexeme::{Kind, Language, Lexeme, scan_front};
use std::alloc::{AllocError, Global};

/// The lexemes of a text, and the byte at which none stands, where there is one.
#[derive(Drop)]
pub(crate) struct Scanned {
    pub lexemes: Vec<Lexeme>,
    pub broken: Option<u32>,
}

/// Those of a text that may be a source's, by its length.
pub(crate) fn scan_source(
    alloc: Global,
    language: Language,
    text: &[u8],
) -> Result<Scanned, AllocError> {
    if text.len() > MAX_SOURCE_LEN {
        return Ok(Scanned {
            lexemes: Vec::new(alloc),
            broken: Some(0),
        });
    }
    let (lexemes, broken) = scan_front(alloc, text, language)?;
    Ok(Scanned { lexemes, broken })
}

/// Where a lexeme stands, by the indices of others.
#[derive(Clone, Copy)]
pub(crate) struct Site {
    /// The first lexeme of its statement or item.
    pub statement: usize,
    /// The first lexeme of its element, in cells or in parentheses.
    pub element: Option<usize>,
    /// How many bodies are open round it.
    pub depth: usize,
}

/// The lexemes before a place, as far as they were passed.
#[derive(Drop)]
struct Walk {
    /// Where the statements begin whose bodies are open.
    outer: Vec<usize>,
    statement: usize,
    parens: usize,
    /// The outermost open parenthesis.
    paren: usize,
    in_cells: bool,
}

impl Walk {
    // Goes on over one lexeme. Inside parentheses `<` and `>` are operators.
    fn step(&mut self, index: usize, kind: Kind) -> Result<(), AllocError> {
        let next = index.saturating_add(1);
        match kind {
            Kind::Paren => {
                if self.parens == 0 {
                    self.paren = index;
                }
                self.parens = self.parens.saturating_add(1);
            }
            Kind::EndParen => self.parens = self.parens.saturating_sub(1),
            Kind::Less if self.parens == 0 => self.in_cells = true,
            Kind::Greater if self.parens == 0 => self.in_cells = false,
            Kind::Brace => {
                self.outer.push(self.statement)?;
                self.statement = next;
            }
            Kind::EndBrace => self.statement = self.outer.pop().unwrap_or(0),
            Kind::Semicolon => self.statement = next,
            _ => {}
        }
        Ok(())
    }

    fn element(&self, index: usize) -> Option<usize> {
        if self.parens > 0 {
            Some(self.paren)
        } else if self.in_cells {
            Some(index)
        } else {
            None
        }
    }
}

/// Where the lexeme of this index stands, or one that would follow the last.
pub(crate) fn site_of(alloc: Global, lexemes: &[Lexeme], index: usize) -> Result<Site, AllocError> {
    let mut walk = Walk {
        outer: Vec::new(alloc),
        statement: 0,
        parens: 0,
        paren: 0,
        in_cells: false,
    };
    for (i, lexeme) in lexemes.get(..index).unwrap_or(lexemes).iter().enumerate() {
        walk.step(i, lexeme.kind)?;
    }
    Ok(Site {
        statement: walk.statement,
        element: walk.element(index),
        depth: walk.outer.len(),
    })
}

/// The byte behind the statement in which the lexeme of this index stands: behind its semicolon, or where the body ends in which it is.
pub(crate) fn statement_end(lexemes: &[Lexeme], index: usize) -> Option<usize> {
    let mut depth: usize = 0;
    for lexeme in lexemes.get(index..).unwrap_or(&[]) {
        match lexeme.kind {
            Kind::Semicolon if depth == 0 => return Some(lexeme.end as usize),
            Kind::EndBrace if depth == 0 => return Some(lexeme.start as usize),
            Kind::EndBrace => depth = depth.saturating_sub(1),
            Kind::Brace => depth = depth.saturating_add(1),
            _ => {}
        }
    }
    None
}
