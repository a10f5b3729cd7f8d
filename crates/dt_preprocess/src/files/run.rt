//! A whole text.

ghost use Rattle.std.specs.Prelude.{◌≤◌, IfOk, OnOk, vec_len};
ghost use Rattle.dt_preprocess.specs.Limits.{text_limit};

use crate::expansion::machine::Tables;
use crate::files::command_line::definitions;
use crate::files::library::{Library, Search};
use crate::files::lines::{Desk, Open, Turn, Wanted, copied};
use crate::files::output::{Mark, Output};
use crate::hides::Hides;
use crate::refusal::{Fault, Place, Reason, Refusal};
use crate::request::{Headers, Preprocessed, Request};
use crate::words::Words;
use std::alloc::{AllocError, Global};
use std::hash::RandomState;

/// The most files that are open within one another.
const MAX_DEPTH: usize = 200;

/// More lines than 64 MiB of text have.
const MAX_TURNS: usize = 1 << 27;

/// The path by which definitions of the command line are refused.
const COMMAND_LINE: &[u8] = b"<command-line>";

/// A run: what lines are read with, the files, and where they are sought.
#[derive(Drop)]
struct Run<'r> {
    desk: Desk,
    library: Library,
    folders: &'r [&'r str],
}

impl<'r> Run<'r> {
    fn new(alloc: Global, hasher: RandomState, folders: &'r [&'r str]) -> Result<Self, AllocError> {
        Ok(Run {
            desk: Desk {
                alloc,
                tables: Tables {
                    words: Words::new(alloc, hasher)?,
                    hides: Hides::new(alloc, hasher)?,
                    macros: Vec::new(alloc),
                },
                output: Output::new(alloc),
            },
            library: Library::new(alloc, hasher),
            folders,
        })
    }

    /// Opens a file within those that are open.
    fn enter(&mut self, opened: &mut Vec<Open>, file: usize, wanted: &Wanted) -> Result<(), Fault> {
        if opened.len() >= MAX_DEPTH {
            return Err(Fault::new(Reason::TooDeep, wanted.token.place, wanted.name));
        }
        let length = match self.library.file(file) {
            Some(found) => found.length,
            None => 0,
        };
        self.library.spend(length, &wanted.token)?;
        self.desk
            .output
            .mark(self.library.path(file), 1, Mark::Enter)?;
        if self.desk.output.is_too_long() {
            return Err(Fault::new(Reason::TooLong, wanted.token.place, wanted.name));
        }
        opened.push(Open {
            file,
            next: 0,
            groups: Vec::new(self.desk.alloc),
        })?;
        Ok(())
    }

    /// The file that a directive wants.
    fn find<H: Headers>(&mut self, headers: &mut H, wanted: &Wanted) -> Result<usize, Fault> {
        let words = &mut self.desk.tables.words;
        let name = copied(words, wanted.name)?;
        let search = Search {
            own: if wanted.beside {
                Some(wanted.token.place.file)
            } else {
                None
            },
            folders: self.folders,
        };
        match self.library.find(headers, words, &search, name.as_slice())? {
            Some(file) => Ok(file),
            None => Err(Fault::new(Reason::NoFile, wanted.token.place, wanted.name)),
        }
    }

    /// Ends the innermost file: the one that included it goes on.
    fn leave(&mut self, opened: &[Open], line: usize) -> Result<(), AllocError> {
        match opened.last() {
            Some(outer) => {
                let path = self.library.path(outer.file);
                self.desk.output.mark(path, line, Mark::Return)
            }
            None => Ok(()),
        }
    }

    /// The line behind the one that was read last.
    fn line_behind(&self, open: &Open) -> usize {
        let Some(file) = self.library.file(open.file) else {
            return 1;
        };
        let Some(line) = file.lexed.lines.get(open.next.saturating_sub(1)) else {
            return 1;
        };
        match file.lexed.tokens_of(*line).first() {
            Some(token) => token.place.line.saturating_add(1),
            None => 1,
        }
    }

    /// Takes the next line of the innermost file: gives whether there was one.
    fn take_turn<H: Headers>(
        &mut self,
        headers: &mut H,
        opened: &mut Vec<Open>,
    ) -> Result<bool, Fault> {
        let Some(mut open) = opened.pop() else {
            return Ok(false);
        };
        let Some(file) = self.library.file(open.file) else {
            return Ok(true);
        };
        match self.desk.take_line(file, &mut open)? {
            Turn::Again => opened.push(open)?,
            Turn::End => {
                let line = match opened.last() {
                    Some(outer) => self.line_behind(outer),
                    None => 1,
                };
                self.leave(opened.as_slice(), line)?;
            }
            Turn::Include(wanted) => {
                opened.push(open)?;
                let file = self.find(headers, &wanted)?;
                self.enter(opened, file, &wanted)?;
            }
        }
        Ok(true)
    }

    /// Reads a file with all that it includes.
    fn read<H: Headers>(&mut self, headers: &mut H, file: usize) -> Result<(), Fault> {
        let mut opened = Vec::new(self.desk.alloc);
        opened.push(Open {
            file,
            next: 0,
            groups: Vec::new(self.desk.alloc),
        })?;
        for _ in 0..MAX_TURNS {
            if !self.take_turn(headers, &mut opened)? {
                return Ok(());
            }
        }
        Err(Fault::bare(Reason::TooLong, Place::START))
    }

    /// Reads the files that stand before the text.
    fn read_before<H: Headers>(&mut self, headers: &mut H, names: &[&str]) -> Result<(), Fault> {
        for name in names {
            let words = &mut self.desk.tables.words;
            let search = Search {
                own: Some(0),
                folders: self.folders,
            };
            let Some(file) = self.library.find(headers, words, &search, name.as_bytes())? else {
                let word = words.intern(name.as_bytes())?;
                return Err(Fault::new(Reason::NoFile, Place::START, word));
            };
            self.desk
                .output
                .mark(self.library.path(file), 1, Mark::Line)?;
            self.read(headers, file)?;
        }
        Ok(())
    }

    /// Reads all of a request.
    fn read_all<H: Headers>(&mut self, headers: &mut H, request: &Request<'_>) -> Result<(), Fault>
        ensures { OnOk result (vec_len self.new.desk.output.text ≤ text_limit) }
    {
        let text = definitions(self.desk.alloc, request.defines)?;
        let first = self
            .library
            .add(&mut self.desk.tables.words, COMMAND_LINE, text.as_slice())?;
        self.read(headers, first)?;
        self.read_before(headers, request.preincluded)?;
        let file = self
            .library
            .add(&mut self.desk.tables.words, request.path, request.text)?;
        self.desk.output.mark(request.path, 1, Mark::Line)?;
        self.read(headers, file)?;
        if self.desk.output.is_too_long() {
            return Err(Fault::bare(Reason::TooLong, Place::START));
        }
        Ok(())
    }

    fn refusal(&self, fault: &Fault) -> Refusal {
        let alloc = self.desk.alloc;
        let path = Vec::from_slice(alloc, self.library.path(fault.place.file));
        let word = Vec::from_slice(alloc, self.desk.tables.words.text(fault.word));
        match (path, word) {
            (Ok(path), Ok(word)) => Refusal {
                reason: fault.reason,
                path,
                line: fault.place.line,
                column: fault.place.column,
                word,
            },
            _ => no_memory(alloc),
        }
    }
}

fn no_memory(alloc: Global) -> Refusal {
    Refusal {
        reason: Reason::NoMemory,
        path: Vec::new(alloc),
        line: 1,
        column: 1,
        word: Vec::new(alloc),
    }
}

/// What a text comes to, as by `gcc -E -nostdinc -undef -x assembler-with-cpp`: the text with all that it includes, macros replaced.
///
/// A file is opened once, and read again from memory where it is named again. Limits: files 200 deep, 4,000,000 tokens from one line,
/// 64 MiB of text in all. What C11, 6.10, has and no board uses is refused by name. `#warning` is passed over.
pub fn preprocess<H: Headers>(
    alloc: Global,
    hasher: RandomState,
    headers: &mut H,
    request: &Request<'_>,
) -> Result<Preprocessed, Refusal>
    ensures { IfOk result (λ made. vec_len made.text ≤ text_limit) }
{
    let Ok(mut run) = Run::new(alloc, hasher, request.folders) else {
        return Err(no_memory(alloc));
    };
    match run.read_all(headers, request) {
        Ok(()) => {
            let Run {
                desk,
                library: _,
                folders: _,
            } = run;
            let Desk {
                alloc: _,
                tables: _,
                output,
            } = desk;
            Ok(Preprocessed {
                text: output.into_text(),
            })
        }
        Err(fault) => Err(run.refusal(&fault)),
    }
}
