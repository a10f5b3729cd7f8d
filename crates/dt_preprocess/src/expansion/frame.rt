//! What is being expanded: tokens yet to be read, those that were, and the call that waits for its arguments.

use crate::token::{Space, Token};
use std::alloc::{AllocError, Global};

/// A call: the number of its macro, the name's token, the hide set of its result, its arguments as they are, and those of them that
/// are expanded.
#[derive(Drop)]
pub(crate) struct Call {
    pub meaning: usize,
    pub name: Token,
    pub hide: usize,
    pub arguments: Vec<Vec<Token>>,
    pub expanded: Vec<Vec<Token>>,
}

impl Call {
    /// An argument as it is.
    pub(crate) fn argument(&self, number: usize) -> &[Token] {
        match self.arguments.get(number) {
            Some(tokens) => tokens.as_slice(),
            None => &[],
        }
    }

    /// An argument expanded alone.
    pub(crate) fn expansion(&self, number: usize) -> &[Token] {
        match self.expanded.get(number) {
            Some(tokens) => tokens.as_slice(),
            None => &[],
        }
    }
}

/// Tokens that are expanded alone. The queue's next token is its last.
#[derive(Drop)]
pub(crate) struct Frame {
    pub queue: Vec<Token>,
    pub out: Vec<Token>,
    pub edge: Space,
    pub call: Option<Call>,
}

impl Frame {
    pub(crate) fn new(alloc: Global, tokens: &[Token]) -> Result<Self, AllocError> {
        let mut queue = Vec::from_slice(alloc, tokens)?;
        queue.reverse();
        Ok(Frame {
            queue,
            out: Vec::new(alloc),
            edge: Space::NONE,
            call: None,
        })
    }

    /// Puts tokens before those that are yet to be read.
    pub(crate) fn put_back(&mut self, tokens: &[Token]) -> Result<(), AllocError> {
        for token in tokens.iter().rev() {
            self.queue.push(*token)?;
        }
        Ok(())
    }

    /// Has white space or an edge before the next token.
    pub(crate) fn set_before_next(&mut self, space: Space) {
        if let Some(next) = self.queue.last_mut() {
            next.space = next.space.and(space);
        }
    }
}
