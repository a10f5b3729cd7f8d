//! Where a refusal is: the user's file and line, and the word that is meant.

use dt_text::include;
use dt_text::lexeme::{Language, Lexeme, scan_front};
use dt_text::place::position_of;
use dtman_lsp::Finding;
use std::alloc::{AllocError, Global};

/// The longest text whose words are looked for, in bytes.
const MAX_TEXT: usize = 1 << 24;

/// A word of a user's file.
#[derive(Drop)]
pub(crate) struct Site {
    pub file: Vec<u8>,
    /// The line, from 1; 0 where the file as a whole is meant.
    line: usize,
    /// The byte in its line, from 1.
    column: usize,
    pub word: Vec<u8>,
}

impl Site {
    /// A file as a whole.
    pub(crate) fn whole(alloc: Global, file: &[u8]) -> Result<Site, AllocError> {
        Ok(Site {
            file: Vec::from_slice(alloc, file)?,
            line: 0,
            column: 0,
            word: Vec::new(alloc),
        })
    }

    /// Words that take something in.
    pub(crate) fn of_words(alloc: Global, site: include::Site) -> Result<Site, AllocError> {
        let include::Site {
            file,
            line,
            text,
            columns,
        } = site;
        let start = columns.start.saturating_sub(1);
        let end = columns.end.saturating_sub(1);
        let word = Vec::from_slice(alloc, text.get(start..end).unwrap_or(b""))?;
        Ok(Site {
            file,
            line,
            column: columns.start,
            word,
        })
    }

    pub(crate) fn finding(self, number: u8, message: String) -> Finding {
        let Site {
            file,
            line,
            column,
            word,
        } = self;
        Finding {
            path: file,
            line,
            column,
            word,
            number,
            message,
        }
    }
}

/// The lexeme that a place is in or before.
fn lexeme_at(lexemes: &[Lexeme], at: usize) -> Option<&Lexeme> {
    let index = lexemes.partition_point(|lexeme| lexeme.end as usize <= at);
    lexemes.get(index)
}

/// The bytes of the lexeme at a place, or up to the next white space where none begins.
fn word_at<'t>(text: &'t [u8], lexemes: &[Lexeme], at: usize) -> &'t [u8] {
    if let Some(lexeme) = lexeme_at(lexemes, at) {
        let word = text.get(lexeme.start as usize..lexeme.end as usize);
        return word.unwrap_or(b"");
    }
    let rest = text.get(at..).unwrap_or(b"");
    let length = rest
        .iter()
        .position(|c| c.is_ascii_whitespace() || matches!(*c, b';' | b'}' | b'>'))
        .unwrap_or(rest.len());
    rest.get(..length).unwrap_or(rest)
}

/// Where a byte of a text is, which is what the file of this path comes to.
pub(crate) fn site_of(
    alloc: Global,
    path: &[u8],
    text: &[u8],
    at: usize,
) -> Result<Site, AllocError> {
    if text.len() > MAX_TEXT {
        return Site::whole(alloc, path);
    }
    let (lexemes, _) = scan_front(alloc, text, Language::Dtc)?;
    let word = word_at(text, lexemes.as_slice(), at);
    let position = position_of(text, at);
    Ok(Site {
        file: Vec::from_slice(alloc, position.file.unwrap_or(path))?,
        line: position.line,
        column: position.column,
        word: Vec::from_slice(alloc, word)?,
    })
}
