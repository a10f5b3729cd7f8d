//! Which tokens begin a node.
use crate::tokens::{Kind, Token};
use std::alloc::{AllocError, Global};

// Whether a node begins here, where the flag says so of the next token.
fn opens(token: &Token, next: bool) -> bool {
    match token.kind {
        Kind::Mark => token.bytes == b"{".as_slice(),
        Kind::Directive | Kind::Quoted => false,
        Kind::Comment | Kind::Remark | Kind::Word => next,
    }
}

/// For each token, whether it stands before a node's brace with nothing between but names, labels and comments.
pub(crate) fn nodes_of(alloc: Global, tokens: &[Token]) -> Result<Vec<bool>, AllocError> {
    let mut is_node = Vec::with_capacity(alloc, tokens.len())?;
    let mut next = false;
    for token in tokens.iter().rev() {
        next = opens(token, next);
        is_node.push(next)?;
    }
    is_node.as_mut_slice().reverse();
    Ok(is_node)
}
