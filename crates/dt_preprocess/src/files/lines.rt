//! One line of a file: a directive, or text.

use crate::conditions::group::Group;
use crate::definition::{define, macro_name};
use crate::expansion::machine::{Tables, expand};
use crate::expansion::source::Source;
use crate::expansion::spelling::spell;
use crate::files::conditional::{choose, skips};
use crate::files::directive::{Directive, directive_of};
use crate::files::library::{File, header_name};
use crate::files::output::Output;
use crate::refusal::{Fault, Reason};
use crate::token::Token;
use crate::words::{Kind, Words};
use std::alloc::{AllocError, Global};

/// A file that is read: its number, the number of its next line, and the groups that are open.
#[derive(Drop)]
pub(crate) struct Open {
    pub file: usize,
    pub next: usize,
    pub groups: Vec<Group>,
}

/// A file that a directive wants: its token, the word of its name, and whether the folder of the file that names it counts.
#[derive(Clone, Copy)]
pub(crate) struct Wanted {
    pub token: Token,
    pub name: usize,
    pub beside: bool,
}

/// What a line comes to.
#[derive(Drop)]
pub(crate) enum Turn {
    Again,
    End,
    Include(Wanted),
}

/// What a line is read with.
#[derive(Drop)]
pub(crate) struct Desk {
    pub alloc: Global,
    pub tables: Tables,
    pub output: Output,
}

/// Whether a token may be a macro's name, or is refused.
fn wants_expansion(words: &Words, tokens: &[Token]) -> bool {
    tokens.iter().any(|token| token.kind == Kind::Special || words.meaning(token.word).is_some())
}

/// The file that `#include` wants.
fn included_by(words: &mut Words, line: &[Token], name: &Token) -> Result<Wanted, Fault> {
    let Some(token) = line.get(2) else {
        return Err(Fault::new(Reason::Directive, name.place, name.word));
    };
    let quoted = token.kind == Kind::Quoted && words.text(token.word).starts_with(b"\"");
    if !quoted && token.kind != Kind::Header {
        return Err(Fault::new(Reason::Unserved, token.place, token.word));
    }
    let header = copied(words, token.word)?;
    Ok(Wanted {
        token: *token,
        name: words.intern(header_name(header.as_slice()))?,
        beside: quoted,
    })
}

/// The spelling of a word.
pub(crate) fn copied(words: &Words, word: usize) -> Result<Vec<u8>, AllocError> {
    Vec::from_slice(words.alloc(), words.text(word))
}

impl Desk {
    fn define(&mut self, line: &[Token], name: &Token) -> Result<(), Fault> {
        let rest = line.get(2..).unwrap_or(&[]);
        let made = define(self.alloc, &mut self.tables.words, rest, name.place)?;
        let number = self.tables.macros.len();
        self.tables.words.define(made.name, Some(number));
        self.tables.macros.push(made)?;
        Ok(())
    }

    fn undefine(&mut self, line: &[Token], name: &Token) -> Result<(), Fault> {
        let rest = line.get(2..).unwrap_or(&[]);
        let gone = macro_name(&self.tables.words, rest, name.place)?;
        self.tables.words.define(gone.word, None);
        Ok(())
    }

    /// `#error`: its text is the word.
    fn error(&mut self, line: &[Token], name: &Token) -> Result<Fault, Fault> {
        let mut text = Vec::new(self.alloc);
        spell(&self.tables.words, &mut text, line.get(2..).unwrap_or(&[]))?;
        let word = self.tables.words.make(text.as_slice(), name.place)?;
        Ok(Fault::new(Reason::Error, name.place, word))
    }

    /// Does what a directive says that chooses no groups.
    fn obey(&mut self, directive: Directive, line: &[Token]) -> Result<Turn, Fault> {
        let Some(name) = line.get(1) else {
            return Ok(Turn::Again);
        };
        match directive {
            Directive::Include => return Ok(Turn::Include(included_by(
                &mut self.tables.words,
                line,
                name,
            )?)),
            Directive::Define => self.define(line, name)?,
            Directive::Undef => self.undefine(line, name)?,
            Directive::Error => return Err(self.error(line, name)?),
            Directive::Unserved => return Err(Fault::new(Reason::Unserved, name.place, name.word)),
            _ => {}
        }
        Ok(Turn::Again)
    }

    /// Puts a line of text, with those that its calls take.
    fn put_text(&mut self, file: &File, open: &mut Open, line: &[Token]) -> Result<(), Fault> {
        let Some(first) = line.first() else {
            return Ok(());
        };
        let path = file.path.as_slice();
        if !wants_expansion(&self.tables.words, line) {
            return self.output.put(&self.tables.words, path, first, line);
        }
        let mut source = Source::of(&file.lexed, open.next);
        let out = expand(self.alloc, &mut self.tables, &mut source, line)?;
        open.next = source.next();
        if out.is_empty() {
            return Ok(());
        }
        self.output
            .put(&self.tables.words, path, first, out.as_slice())
    }

    /// Takes the next line of a file.
    pub(crate) fn take_line(&mut self, file: &File, open: &mut Open) -> Result<Turn, Fault> {
        let Some(line) = file.lexed.lines.get(open.next) else {
            return end(open);
        };
        open.next = open.next.saturating_add(1);
        let line = file.lexed.tokens_of(*line);
        match directive_of(&self.tables.words, line) {
            Some(directive) => self.direct(directive, open, line),
            None => {
                if !skips(open.groups.as_slice()) {
                    self.put_text(file, open, line)?;
                }
                Ok(Turn::Again)
            }
        }
    }

    /// Takes a directive.
    fn direct(
        &mut self,
        directive: Directive,
        open: &mut Open,
        line: &[Token],
    ) -> Result<Turn, Fault> {
        if directive.is_conditional() {
            choose(
                self.alloc,
                &mut self.tables,
                &mut open.groups,
                directive,
                line,
            )?;
            return Ok(Turn::Again);
        }
        if skips(open.groups.as_slice()) {
            return Ok(Turn::Again);
        }
        self.obey(directive, line)
    }
}

/// Ends a file, whose groups must be closed.
fn end(open: &Open) -> Result<Turn, Fault> {
    match open.groups.last() {
        Some(group) => Err(Fault::new(
            Reason::Conditional,
            group.directive.place,
            group.directive.word,
        )),
        None => Ok(Turn::End),
    }
}
