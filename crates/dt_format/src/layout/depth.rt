//! The braces that are open, over the branches of the preprocessor's conditions.
use crate::layout::fault::{BraceFault, LayoutError};
use crate::tokens::is_blank;
use std::alloc::{AllocError, Global};

/// How deep a node may stand (Devicetree Specification v0.4 has no limit; the kernel's reader has this one, drivers/of/fdt.c).
const MAX_DEPTH: usize = 64;

/// How many braces are open, and where.
#[derive(Drop)]
pub(crate) struct Depth {
    depth: usize,
    /// the place of the brace that opened each depth last
    braces: Vec<usize>,
    /// how many were open at each condition that isn't over
    conditions: Vec<usize>,
}

fn refused<T>(fault: BraceFault, place: usize) -> Result<T, LayoutError> {
    Err(LayoutError::Braces(fault, place))
}

// A directive's words.
fn words_of(directive: &[u8]) -> &[u8] {
    let mut left = directive;
    'bytes: while let [c, rest @ ..] = left {
        if *c != b'#' && !is_blank(*c) {
            return left;
        }
        left = rest;
    }
    left
}

impl Depth {
    pub(crate) fn new(alloc: Global) -> Depth {
        Depth {
            depth: 0,
            braces: Vec::new(alloc),
            conditions: Vec::new(alloc),
        }
    }

    pub(crate) fn depth(&self) -> usize {
        self.depth
    }

    /// A brace opens at this place.
    pub(crate) fn open(&mut self, place: usize) -> Result<(), LayoutError> {
        if self.depth >= MAX_DEPTH {
            return refused(BraceFault::TooDeep, place);
        }
        match self.braces.get_mut(self.depth) {
            Some(brace) => *brace = place,
            None => self.braces.push(place)?,
        }
        self.depth += 1;
        Ok(())
    }

    /// A brace closes at this place.
    pub(crate) fn close(&mut self, place: usize) -> Result<(), LayoutError> {
        if self.depth == 0 {
            return refused(BraceFault::Stray, place);
        }
        self.depth -= 1;
        Ok(())
    }

    /// A directive: each branch of a condition begins at the depth of the condition.
    pub(crate) fn pass(&mut self, directive: &[u8]) -> Result<(), AllocError> {
        let words = words_of(directive);
        if words.starts_with(b"if") {
            self.conditions.push(self.depth)?;
        } else if words.starts_with(b"endif") {
            let _ = self.conditions.pop();
        } else if words.starts_with(b"el") {
            self.depth = self.conditions.last().copied().unwrap_or(self.depth);
        }
        Ok(())
    }

    /// The text ends.
    pub(crate) fn end(&self) -> Result<(), LayoutError> {
        if self.depth == 0 {
            return Ok(());
        }
        let place = self.braces.get(self.depth - 1).copied().unwrap_or(0);
        refused(BraceFault::Open, place)
    }
}
