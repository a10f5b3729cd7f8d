//! A file's text as logical lines of tokens.

use crate::lexing::bytes::{behind, blanks, front, is_blank};
use crate::lexing::lexeme::{header_len, line_len, token_len};
use crate::lexing::splicing::Spliced;
use crate::refusal::{Fault, Place, Reason};
use crate::token::{Space, Token};
use crate::words::{Kind, Words};
use memchr::{memchr_iter, memmem, memrchr};
use std::alloc::{AllocError, Global};

/// A logical line that has tokens: the numbers of the first and of the one behind its last.
#[derive(Clone, Copy)]
pub(crate) struct Line {
    pub start: usize,
    pub end: usize,
}

/// The tokens of a file, and its lines.
#[derive(Drop)]
pub(crate) struct Lexed {
    pub tokens: Vec<Token>,
    pub lines: Vec<Line>,
}

impl Lexed {
    pub(crate) fn new(alloc: Global) -> Self {
        Lexed {
            tokens: Vec::new(alloc),
            lines: Vec::new(alloc),
        }
    }

    /// The tokens of a line.
    pub(crate) fn tokens_of(&self, line: Line) -> &[Token] {
        self.tokens.get(line.start..line.end).unwrap_or(&[])
    }
}

/// Where a text is read: its file, the byte, the splices that were passed, the physical line and its first byte, whether white space
/// was last, and the first token of the logical line.
#[derive(Drop)]
struct Cursor {
    file: usize,
    at: usize,
    passed: usize,
    number: usize,
    home: usize,
    white: bool,
    first: usize,
}

/// What stands at the front of a text.
#[derive(Drop)]
enum Front {
    LineEnd,
    Blank(usize),
    /// A comment of so many bytes.
    Comment(usize),
    OpenComment,
    Token,
}

fn comment(s: &[u8]) -> Front {
    match memmem::find(behind(s, 2), b"*/") {
        Some(at) => Front::Comment(at.saturating_add(4)),
        None => Front::OpenComment,
    }
}

/// What stands at the front of a text that isn't empty.
fn front_of(s: &[u8]) -> Front {
    match s {
        [b'\n', ..] => Front::LineEnd,
        [b'/', b'*', ..] => comment(s),
        [b'/', b'/', ..] => Front::Blank(line_len(s)),
        [c, ..] => {
            if is_blank(*c) {
                Front::Blank(blanks(s))
            } else {
                Front::Token
            }
        }
        [] => Front::Token,
    }
}

impl Cursor {
    fn place(&self) -> Place {
        Place {
            file: self.file,
            line: self.number,
            column: self.at.saturating_sub(self.home).saturating_add(1),
        }
    }

    /// Counts the splices up to here as line ends.
    fn pass_splices(&mut self, cuts: &[usize]) {
        let passed = self.passed;
        for cut in cuts.get(passed..).unwrap_or(&[]) {
            if *cut > self.at {
                break;
            }
            self.home = *cut;
            self.passed = self.passed.saturating_add(1);
            self.number = self.number.saturating_add(1);
        }
    }

    /// Counts the line ends of a comment.
    fn pass_comment(&mut self, comment: &[u8]) {
        if let Some(last) = memrchr(b'\n', comment) {
            let ends = memchr_iter(b'\n', comment).count();
            self.number = self.number.saturating_add(ends);
            self.home = self.at.saturating_add(last).saturating_add(1);
        }
    }

    fn pass(&mut self, length: usize) {
        self.at = self.at.saturating_add(length);
    }

    /// Ends the logical line.
    fn end_line(&mut self, lexed: &mut Lexed) -> Result<(), AllocError> {
        let end = lexed.tokens.len();
        if self.first < end {
            lexed.lines.push(Line {
                start: self.first,
                end,
            })?;
        }
        self.first = end;
        self.white = false;
        Ok(())
    }
}

/// Whether `<F>` may come next: the line has `#include` alone.
fn expects_header(words: &Words, line: &[Token]) -> bool {
    match line {
        [hash, name] => hash.kind == Kind::Hash && words.text(name.word) == b"include".as_slice(),
        _ => false,
    }
}

/// Reads the token at the front of a text.
fn take_token(
    words: &mut Words,
    lexed: &mut Lexed,
    cursor: &mut Cursor,
    s: &[u8],
) -> Result<(), AllocError> {
    let mut length = token_len(s);
    let mut header = false;
    if s.first() == Some(&b'<')
        && expects_header(words, lexed.tokens.get(cursor.first..).unwrap_or(&[]))
    {
        if let Some(whole) = header_len(s) {
            length = whole;
            header = true;
        }
    }
    let word = words.intern(front(s, length))?;
    let kind = if header {
        Kind::Header
    } else {
        words.kind(word)
    };
    let space = if cursor.white {
        Space::WHITE
    } else {
        Space::NONE
    };
    lexed.tokens.push(Token {
        word,
        kind,
        space,
        place: cursor.place(),
        hide: 0,
    })?;
    cursor.white = false;
    cursor.pass(length);
    Ok(())
}

/// Reads what stands at the front of a text.
fn take_front(
    words: &mut Words,
    lexed: &mut Lexed,
    cursor: &mut Cursor,
    s: &[u8],
) -> Result<(), Fault> {
    match front_of(s) {
        Front::LineEnd => {
            cursor.end_line(lexed)?;
            cursor.pass(1);
            cursor.number = cursor.number.saturating_add(1);
            cursor.home = cursor.at;
        }
        Front::Blank(length) => {
            cursor.white = true;
            cursor.pass(length);
        }
        Front::Comment(length) => {
            cursor.white = true;
            cursor.pass_comment(front(s, length));
            cursor.pass(length);
        }
        Front::OpenComment => return Err(Fault::bare(Reason::OpenComment, cursor.place())),
        Front::Token => take_token(words, lexed, cursor, s)?,
    }
    Ok(())
}

/// The logical lines of a file's text that have tokens.
pub(crate) fn lex(
    alloc: Global,
    words: &mut Words,
    file: usize,
    spliced: &Spliced,
) -> Result<Lexed, Fault> {
    let mut lexed = Lexed::new(alloc);
    let mut cursor = Cursor {
        file,
        at: 0,
        passed: 0,
        number: 1,
        home: 0,
        white: false,
        first: 0,
    };
    let text = spliced.text.as_slice();
    for _ in 0..=text.len() {
        cursor.pass_splices(spliced.cuts.as_slice());
        let left = behind(text, cursor.at);
        if left.is_empty() {
            break;
        }
        take_front(words, &mut lexed, &mut cursor, left)?;
    }
    cursor.end_line(&mut lexed)?;
    Ok(lexed)
}
