//! Hide sets: the macros as which a token isn't read again (C11, 6.10.3.4; Prosser's algorithm).

use crate::refusal::{Fault, Place, Reason};
use indexmap::IndexSet;
use std::alloc::{AllocError, Global};
use std::hash::RandomState;

/// The most macros within one another.
const MAX_NESTING: usize = 200;

/// Two sets that were put together last, and what they came to.
#[derive(Clone, Copy)]
struct Pair {
    left: usize,
    right: usize,
    both: usize,
}

/// All hide sets by their numbers, each the numbers of its names in order.
#[derive(Drop)]
pub(crate) struct Hides {
    alloc: Global,
    sets: IndexSet<Vec<usize>, RandomState>,
    last: Pair,
}

/// The names of two sets, in order.
fn union(alloc: Global, left: &[usize], right: &[usize]) -> Result<Vec<usize>, AllocError> {
    let mut names = Vec::from_slice(alloc, left)?;
    for name in right {
        if left.binary_search(name).is_err() {
            names.push(*name)?;
        }
    }
    names.sort_unstable();
    Ok(names)
}

/// The names that are in both sets.
fn intersection(alloc: Global, left: &[usize], right: &[usize]) -> Result<Vec<usize>, AllocError> {
    let mut names = Vec::new(alloc);
    for name in left {
        if right.binary_search(name).is_ok() {
            names.push(*name)?;
        }
    }
    Ok(names)
}

impl Hides {
    /// Only the empty set, which is set 0.
    pub(crate) fn new(alloc: Global, hasher: RandomState) -> Result<Self, AllocError> {
        let mut hides = Hides {
            alloc,
            sets: IndexSet::with_hasher(alloc, hasher),
            last: Pair {
                left: 0,
                right: 0,
                both: 0,
            },
        };
        hides.number(Vec::new(alloc))?;
        Ok(hides)
    }

    fn names(&self, set: usize) -> &[usize] {
        match self.sets.get_index(set) {
            Some(names) => names.as_slice(),
            None => &[],
        }
    }

    fn number(&mut self, names: Vec<usize>) -> Result<usize, AllocError> {
        let (number, _) = self.sets.insert_full(names)?;
        Ok(number)
    }

    /// Whether a set has a name.
    pub(crate) fn has(&self, set: usize, name: usize) -> bool {
        self.names(set).binary_search(&name).is_ok()
    }

    /// The set with a name. It has 200 at most.
    pub(crate) fn with(&mut self, set: usize, name: usize, place: Place) -> Result<usize, Fault> {
        let names = union(self.alloc, self.names(set), &[name])?;
        if names.len() > MAX_NESTING {
            return Err(Fault::new(Reason::TooDeep, place, name));
        }
        Ok(self.number(names)?)
    }

    /// What is in both sets.
    pub(crate) fn both(&mut self, left: usize, right: usize) -> Result<usize, Fault> {
        if left == right {
            return Ok(left);
        }
        if left == 0 || right == 0 {
            return Ok(0);
        }
        let names = intersection(self.alloc, self.names(left), self.names(right))?;
        Ok(self.number(names)?)
    }

    /// What is in either set. It has 200 names at most.
    pub(crate) fn either(
        &mut self,
        left: usize,
        right: usize,
        place: Place,
    ) -> Result<usize, Fault> {
        if left == 0 || left == right {
            return Ok(right);
        }
        if right == 0 {
            return Ok(left);
        }
        if self.last.left == left && self.last.right == right {
            return Ok(self.last.both);
        }
        let names = union(self.alloc, self.names(left), self.names(right))?;
        if names.len() > MAX_NESTING {
            return Err(Fault::bare(Reason::TooDeep, place));
        }
        let both = self.number(names)?;
        self.last = Pair { left, right, both };
        Ok(both)
    }
}
