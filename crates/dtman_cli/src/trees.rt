//! What is asked of a board's tree: `find`, `who`, `map`; nodes by aliases.

use crate::nodes::unknown_path;
use crate::performing::Answer;
use dt_questions::{PathFault, Question, WhoFault, find_lines, map_lines, path_by, who_lines};
use dt_tree::{Path, Tree};
use dtman_engine::{BlobRole, Fault, tree_of};
use dtman_host::{Failure, Given, Host, Inputs, REFUSED, Surroundings, file_of};
use std::alloc::{AllocError, Global};
use std::str;

/// The paths of the nodes that have what is asked for.
pub fn found<'a, S: Surroundings, E: Eprint, T>(
    host: &mut Host<'_, S, E, T>,
    blob: &'a str,
    what: &'a str,
) -> Result<Answer<'a>, Failure<'a>> {
    let bytes = host.blob(blob)?;
    let tree = tree_in(host, file_of(blob, &bytes))?;
    let hasher = host.seed()?;
    let question = Question::of(what);
    match find_lines(host.alloc, hasher, &tree, &question) {
        Ok(text) => Ok(told(text)),
        Err(_) => Err(no_memory()),
    }
}

/// Who names a node, or a line of it.
pub fn used<'a, S: Surroundings, E: Eprint, T>(
    host: &mut Host<'_, S, E, T>,
    blob: &'a str,
    path: &'a str,
    number: Option<&'a str>,
) -> Result<Answer<'a>, Failure<'a>> {
    let number = number_of(number)?;
    let bytes = host.blob(blob)?;
    let given = file_of(blob, &bytes);
    let tree = tree_in(host, given)?;
    let node = match path_by(host.alloc, &tree, path.as_bytes()) {
        Ok(node) => node,
        Err(PathFault::NoMemory) => return Err(no_memory()),
        Err(PathFault::NoAlias) | Err(PathFault::BadPath) => {
            return Err(no_node(host, given, path.as_bytes()));
        }
    };
    let hasher = host.seed()?;
    match who_lines(host.alloc, hasher, &tree, &node, number) {
        Ok(text) => Ok(told(text)),
        Err(WhoFault::NoNode) => Err(no_node(host, given, node.as_bytes())),
        Err(WhoFault::NoMemory) => Err(no_memory()),
    }
}

/// The memory map.
pub fn mapped<'a, S: Surroundings, E: Eprint, T>(
    host: &mut Host<'_, S, E, T>,
    blob: &'a str,
) -> Result<Answer<'a>, Failure<'a>> {
    let bytes = host.blob(blob)?;
    let tree = tree_in(host, file_of(blob, &bytes))?;
    let hasher = host.seed()?;
    match map_lines(host.alloc, hasher, &tree) {
        Ok(text) => Ok(Answer::Text(text)),
        Err(_) => Err(no_memory()),
    }
}

fn no_memory<'a>() -> Failure<'a> {
    Failure::Refused(Fault::no_memory())
}

fn no_node<'a, S: Surroundings, E: Eprint, T>(
    host: &Host<'_, S, E, T>,
    blob: Given<'_>,
    path: &[u8],
) -> Failure<'a> {
    let inputs = Inputs::Node {
        blob,
        path,
        property: path,
    };
    host.refusal(unknown_path(), inputs)
}

// The tree of a blob.
fn tree_in<'a, S: Surroundings, E: Eprint, T>(
    host: &mut Host<'_, S, E, T>,
    blob: Given<'_>,
) -> Result<Tree, Failure<'a>> {
    match tree_of(host.alloc, BlobRole::Sole, blob.bytes) {
        Ok(tree) => Ok(tree),
        Err(fault) => Err(host.refusal(fault, Inputs::Blob(blob))),
    }
}

// Lines, or that there are none, which is a failure that isn't told.
fn told<'a>(text: Vec<u8>) -> Answer<'a> {
    if text.is_empty() {
        return Answer::Failing {
            text,
            status: REFUSED,
        };
    }
    Answer::Text(text)
}

// ---- words of the command line

// The number that a word is, in decimal digits or, behind 0x, in hexadecimal ones.
fn number_of(word: Option<&str>) -> Result<Option<u64>, Failure<'_>> {
    let Some(word) = word else {
        return Ok(None);
    };
    match number_in(word) {
        Some(number) => Ok(Some(number)),
        None => Err(Failure::BadWord(word, "no number")),
    }
}

fn number_in(word: &str) -> Option<u64> {
    if word.starts_with("+") {
        return None;
    }
    match word.strip_prefix("0x") {
        None => u64::from_str_radix(word, 10).ok(),
        Some(digits) if digits.starts_with("+") => None,
        Some(digits) => u64::from_str_radix(digits, 16).ok(),
    }
}

/// The path that a word is in a blob: where no slash is in front, it begins with an alias. A word that leads nowhere, or into no blob,
/// stays as it is, so that it is refused where it is looked for.
pub fn path_in<'a>(alloc: Global, blob: &[u8], word: &str) -> Result<String, Failure<'a>> {
    let path = if word.starts_with("/") {
        String::from_str(alloc, word)
    } else {
        led_to(alloc, blob, word)
    };
    match path {
        Ok(path) => Ok(path),
        Err(_) => Err(no_memory()),
    }
}

fn led_to(alloc: Global, blob: &[u8], word: &str) -> Result<String, AllocError> {
    match alias_path(alloc, blob, word)? {
        Some(path) => String::from_str(alloc, str::from_utf8(path.as_bytes()).unwrap_or(word)),
        None => String::from_str(alloc, word),
    }
}

fn alias_path(alloc: Global, blob: &[u8], word: &str) -> Result<Option<Path>, AllocError> {
    let tree = match tree_of(alloc, BlobRole::Sole, blob) {
        Ok(tree) => tree,
        Err(fault) if fault.number == 0 => return Err(AllocError),
        Err(_) => return Ok(None),
    };
    match path_by(alloc, &tree, word.as_bytes()) {
        Ok(path) => Ok(Some(path)),
        Err(PathFault::NoMemory) => Err(AllocError),
        Err(_) => Ok(None),
    }
}
