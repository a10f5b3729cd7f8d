//! The arguments of a call (C11, 6.10.3).

use crate::definition::Parameters;
use crate::expansion::frame::Frame;
use crate::expansion::source::{MAX_TOKENS, Source};
use crate::refusal::{Fault, Reason};
use crate::token::{Space, Token};
use crate::words::{Kind, Words};
use std::alloc::{AllocError, Global};
use std::mem;

/// The arguments of a call, and the `)` that closes it.
#[derive(Drop)]
pub(crate) struct Taken {
    pub arguments: Vec<Vec<Token>>,
    pub closing: Token,
}

/// Where the tokens of a call come from: a frame, and the lines behind it where it is the outermost.
#[derive(Drop)]
pub(crate) struct Supply<'a, 'f> {
    pub words: &'a Words,
    pub frame: &'a mut Frame,
    pub source: &'a mut Source<'f>,
    pub outermost: bool,
}

impl Supply<'_, '_> {
    /// The next token of a call, on later lines too.
    fn next(&mut self, name: &Token) -> Result<Option<Token>, Fault> {
        if let Some(token) = self.frame.queue.pop() {
            return Ok(Some(token));
        }
        if !self.outermost {
            return Ok(None);
        }
        let Some(line) = self.source.within_call(self.words)? else {
            return Ok(None);
        };
        self.source.spend(line.len(), name)?;
        self.frame.put_back(line)?;
        self.frame.set_before_next(Space::WHITE);
        Ok(self.frame.queue.pop())
    }
}

/// Arguments in the making: those that are whole, the last, and how many parentheses are open.
#[derive(Drop)]
struct Splitting {
    alloc: Global,
    whole: Vec<Vec<Token>>,
    last: Vec<Token>,
    depth: usize,
}

impl Splitting {
    /// Whether a comma parts arguments: outside parentheses, and not in the rest.
    fn parts(&self, parameters: &Parameters, token: &Token) -> bool {
        token.kind == Kind::Comma && self.depth == 1 && !parameters.is_rest(self.whole.len())
    }

    /// Takes a token: gives whether it closes the call.
    fn take(&mut self, parameters: &Parameters, token: Token) -> Result<bool, AllocError> {
        if self.parts(parameters, &token) {
            let argument = mem::replace(&mut self.last, Vec::new(self.alloc));
            self.whole.push(argument)?;
            return Ok(false);
        }
        let depth = self.depth;
        match token.kind {
            Kind::Open => self.depth = depth.saturating_add(1),
            Kind::Close => self.depth = depth.saturating_sub(1),
            _ => {}
        }
        if self.depth == 0 {
            return Ok(true);
        }
        if depth > 0 {
            self.last.push(token)?;
        }
        Ok(false)
    }

    /// The arguments, as many as there are parameters.
    fn finish(self, parameters: &Parameters, name: &Token) -> Result<Vec<Vec<Token>>, Fault> {
        let Splitting {
            alloc,
            mut whole,
            last,
            depth: _,
        } = self;
        let count = parameters.words.len();
        if count > 0 || !whole.is_empty() || !last.is_empty() {
            whole.push(last)?;
        }
        if parameters.variadic && whole.len().saturating_add(1) == count {
            whole.push(Vec::new(alloc))?;
        }
        if whole.len() != count {
            return Err(Fault::new(Reason::Call, name.place, name.word));
        }
        Ok(whole)
    }
}

/// Reads the arguments of a call, whose `(` is next.
pub(crate) fn take_arguments(
    alloc: Global,
    parameters: &Parameters,
    name: &Token,
    supply: &mut Supply<'_, '_>,
) -> Result<Taken, Fault> {
    let mut splitting = Splitting {
        alloc,
        whole: Vec::new(alloc),
        last: Vec::new(alloc),
        depth: 0,
    };
    for _ in 0..=MAX_TOKENS {
        let Some(token) = supply.next(name)? else {
            return Err(Fault::new(Reason::Call, name.place, name.word));
        };
        if splitting.take(parameters, token)? {
            return Ok(Taken {
                arguments: splitting.finish(parameters, name)?,
                closing: token,
            });
        }
    }
    Err(Fault::new(Reason::TooManyTokens, name.place, name.word))
}
