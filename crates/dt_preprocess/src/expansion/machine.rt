//! Expands tokens: calls within calls wait on a stack.

use crate::definition::Macro;
use crate::expansion::arguments::{Supply, take_arguments};
use crate::expansion::frame::{Call, Frame};
use crate::expansion::source::Source;
use crate::expansion::substitution::{first_space, substitute};
use crate::hides::Hides;
use crate::refusal::{Fault, Reason};
use crate::token::{Space, Token};
use crate::words::{Kind, Words};
use std::alloc::Global;

/// The most calls whose arguments are expanded within one another.
const MAX_FRAMES: usize = 200;

/// More steps than 4,000,000 tokens can take.
const MAX_STEPS: usize = 1 << 26;

/// What a run knows: words, hide sets, and all macros that were ever defined.
#[derive(Drop)]
pub(crate) struct Tables {
    pub words: Words,
    pub hides: Hides,
    pub macros: Vec<Macro>,
}

/// An expansion: the frames that are open, the innermost last.
#[derive(Drop)]
struct Machine {
    alloc: Global,
    frames: Vec<Frame>,
}

impl Machine {
    fn open(&mut self, frame: Frame, name: &Token) -> Result<(), Fault> {
        if self.frames.len() >= MAX_FRAMES {
            return Err(Fault::new(Reason::TooDeep, name.place, name.word));
        }
        self.frames.push(frame)?;
        Ok(())
    }

    /// A token that is no call stays.
    fn keep(&mut self, frame: Frame, token: Token) -> Result<(), Fault> {
        let mut frame = frame;
        frame.out.push(token)?;
        self.frames.push(frame)?;
        Ok(())
    }

    /// Reads a token.
    fn read(
        &mut self,
        tables: &mut Tables,
        source: &mut Source<'_>,
        frame: Frame,
        token: Token,
    ) -> Result<(), Fault> {
        let mut frame = frame;
        let token = token.after(token.space.and(frame.edge));
        frame.edge = Space::NONE;
        let Some(meaning) = tables.words.meaning(token.word) else {
            if token.kind == Kind::Special {
                return Err(Fault::new(Reason::Unserved, token.place, token.word));
            }
            return self.keep(frame, token);
        };
        if tables.hides.has(token.hide, token.word) {
            return self.keep(frame, token);
        }
        self.call(tables, source, frame, token, meaning)
    }

    /// Reads a macro's name, and the arguments of its call.
    fn call(
        &mut self,
        tables: &mut Tables,
        source: &mut Source<'_>,
        frame: Frame,
        name: Token,
        meaning: usize,
    ) -> Result<(), Fault> {
        let mut frame = frame;
        let Tables {
            words,
            hides,
            macros,
        } = tables;
        let mut call = Call {
            meaning,
            name,
            hide: name.hide,
            arguments: Vec::new(self.alloc),
            expanded: Vec::new(self.alloc),
        };
        if let Some(parameters) = macros
            .get(meaning)
            .and_then(|known| known.parameters.as_ref())
        {
            let outermost = self.frames.is_empty();
            if outermost {
                open_on_next_line(&mut frame, source, &name)?;
            }
            if !begins_call(&frame) {
                return self.keep(frame, name);
            }
            let mut supply = Supply {
                words,
                frame: &mut frame,
                source,
                outermost,
            };
            let taken = take_arguments(self.alloc, parameters, &name, &mut supply)?;
            call.hide = hides.both(name.hide, taken.closing.hide)?;
            call.arguments = taken.arguments;
        }
        call.hide = hides.with(call.hide, name.word, name.place)?;
        frame.call = Some(call);
        self.frames.push(frame)?;
        Ok(())
    }

    /// Expands the next argument of a call, or else replaces the call.
    fn go_on(
        &mut self,
        tables: &mut Tables,
        source: &mut Source<'_>,
        frame: Frame,
        call: Call,
    ) -> Result<(), Fault> {
        let (mut frame, mut call) = (frame, call);
        let number = call.expanded.len();
        if number >= call.arguments.len() {
            return self.replace(tables, source, frame, &call);
        }
        let name = call.name;
        let inner = if expands(tables, &call, number) {
            source.spend(call.argument(number).len(), &name)?;
            Some(Frame::new(self.alloc, call.argument(number))?)
        } else {
            call.expanded.push(Vec::new(self.alloc))?;
            None
        };
        frame.call = Some(call);
        self.frames.push(frame)?;
        match inner {
            Some(inner) => self.open(inner, &name),
            None => Ok(()),
        }
    }

    /// Puts what a call comes to in its place, to be read again.
    fn replace(
        &mut self,
        tables: &mut Tables,
        source: &mut Source<'_>,
        frame: Frame,
        call: &Call,
    ) -> Result<(), Fault> {
        let mut frame = frame;
        let Tables {
            words,
            hides,
            macros,
        } = tables;
        if let Some(meaning) = macros.get(call.meaning) {
            let body = substitute(self.alloc, words, hides, meaning, call)?;
            source.spend(body.len(), &call.name)?;
            put_body(&mut frame, &call.name, body.as_slice())?;
        }
        self.frames.push(frame)?;
        Ok(())
    }

    /// Ends a frame: gives the tokens of the outermost, and else hands them to the call that waits for them.
    fn finish(&mut self, frame: Frame) -> Result<Option<Vec<Token>>, Fault> {
        let Frame {
            queue: _,
            out,
            edge: _,
            call: _,
        } = frame;
        let Some(outer) = self.frames.last_mut() else {
            return Ok(Some(out));
        };
        if let Some(call) = &mut outer.call {
            call.expanded.push(out)?;
        }
        Ok(None)
    }

    /// One step: gives the tokens where all are read.
    fn step(
        &mut self,
        tables: &mut Tables,
        source: &mut Source<'_>,
    ) -> Result<Option<Vec<Token>>, Fault> {
        let Some(mut frame) = self.frames.pop() else {
            return Ok(Some(Vec::new(self.alloc)));
        };
        if let Some(call) = frame.call.take() {
            self.go_on(tables, source, frame, call)?;
            return Ok(None);
        }
        match frame.queue.pop() {
            Some(token) => {
                self.read(tables, source, frame, token)?;
                Ok(None)
            }
            None => self.finish(frame),
        }
    }
}

/// Whether a call's argument is given expanded.
fn expands(tables: &Tables, call: &Call, number: usize) -> bool {
    match tables.macros.get(call.meaning) {
        Some(meaning) => match &meaning.parameters {
            Some(parameters) => parameters.expands(number),
            None => false,
        },
        None => false,
    }
}

fn begins_call(frame: &Frame) -> bool {
    match frame.queue.last() {
        Some(token) => token.kind == Kind::Open,
        None => false,
    }
}

/// Takes the next line behind a name at a line's end, where it begins with `(`.
fn open_on_next_line(
    frame: &mut Frame,
    source: &mut Source<'_>,
    name: &Token,
) -> Result<(), Fault> {
    if frame.queue.is_empty() {
        if let Some(line) = source.opening() {
            source.spend(line.len(), name)?;
            frame.put_back(line)?;
        }
    }
    Ok(())
}

/// Puts back the body of a call, with the white space of the macro's name; an empty one hands its own on.
fn put_body(frame: &mut Frame, name: &Token, body: &[Token]) -> Result<(), Fault> {
    if body.is_empty() {
        frame.edge = name.space.handed(false);
        return Ok(());
    }
    frame.set_before_next(Space::EDGE);
    frame.put_back(body)?;
    let first = first_space(body);
    if let Some(next) = frame.queue.last_mut() {
        next.space = name.space.and(first).handed(first.own);
    }
    Ok(())
}

/// What the tokens of a line, with those of the next that its calls take, come to.
pub(crate) fn expand(
    alloc: Global,
    tables: &mut Tables,
    source: &mut Source<'_>,
    tokens: &[Token],
) -> Result<Vec<Token>, Fault> {
    let Some(first) = tokens.first() else {
        return Ok(Vec::new(alloc));
    };
    source.spend(tokens.len(), first)?;
    let mut machine = Machine {
        alloc,
        frames: Vec::new(alloc),
    };
    machine.frames.push(Frame::new(alloc, tokens)?)?;
    for _ in 0..MAX_STEPS {
        if let Some(out) = machine.step(tables, source)? {
            return Ok(out);
        }
    }
    Err(Fault::new(Reason::TooManyTokens, first.place, first.word))
}
