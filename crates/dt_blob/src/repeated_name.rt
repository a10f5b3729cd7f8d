//! The name that stands a second time in a node.

use crate::read_token::{BlobToken, token};
use std::alloc::{AllocError, Global};
use std::collections::BTreeSet;

/// The name of a child or of a property.
#[derive(Clone, Copy, PartialEq, Eq, PartialOrd, Ord, Drop)]
enum Named<'a> {
    Property(&'a [u8]),
    Child(&'a [u8]),
}

/// Which names of a node have been met, and how many levels below it the tokens are.
#[derive(Drop)]
struct Met<'a> {
    names: BTreeSet<Named<'a>>,
    depth: usize,
}

impl<'a> Met<'a> {
    // Whether the token tells a name of the node that was met before.
    fn repeats(&mut self, token: BlobToken<'a>) -> Result<bool, AllocError> {
        let depth = self.depth;
        match token {
            BlobToken::BeginNode(name) => {
                self.depth = depth.saturating_add(1);
                Ok(depth == 1 && !self.names.insert(Named::Child(name))?)
            }
            BlobToken::Property(name, _) => {
                Ok(depth == 1 && !self.names.insert(Named::Property(name))?)
            }
            BlobToken::EndNode => {
                self.depth = depth.saturating_sub(1);
                Ok(false)
            }
            _ => Ok(false),
        }
    }
}

/// How many bytes of the node, from its BEGIN_NODE on, stand before the first name that stands in it a second time, or before the
/// place of that name.
pub(crate) fn repeated_name(
    alloc: Global,
    strings: &[u8],
    node: &[u8],
) -> Result<usize, AllocError> {
    let mut met = Met {
        names: BTreeSet::new(alloc),
        depth: 0,
    };
    let mut rest = node;
    'tokens: loop {
        let at = node.len().saturating_sub(rest.len());
        let Ok((next, behind)) = token(strings, rest) else {
            return Ok(0);
        };
        if met.repeats(next)? {
            return Ok(at.saturating_add(name_in(next)));
        }
        rest = behind;
    }
}

// How many bytes of a token stand before its name, or the place of it.
fn name_in(token: BlobToken<'_>) -> usize {
    match token {
        BlobToken::Property(_, _) => 8,
        _ => 4,
    }
}
