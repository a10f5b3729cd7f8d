//! What is told of a word of the command line for which there is nothing.

use crate::failure::{Failure, Missing};
use dtman_diagnosis::nearest;
use std::alloc::{AllocError, Global};
use std::str;

/// That there is nothing for a word, and which of these names is spelled like it.
pub fn no_such<'a>(
    alloc: Global,
    what: &'static str,
    word: &'a str,
    names: &[&[u8]],
) -> Failure<'a> {
    Failure::NoSuch(Missing {
        what,
        word,
        // Where there is no memory for it, the word stands alone.
        near: near(alloc, word, names).unwrap_or(None),
    })
}

fn near(alloc: Global, word: &str, names: &[&[u8]]) -> Result<Option<String>, AllocError> {
    let found = nearest(alloc, word.as_bytes(), names)?;
    let Some(name) = found.first() else {
        return Ok(None);
    };
    match str::from_utf8(name.as_slice()) {
        Ok(name) => Ok(Some(String::from_str(alloc, name)?)),
        Err(_) => Ok(None),
    }
}
