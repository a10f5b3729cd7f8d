//! Paths by aliases (Devicetree Specification v0.4, section 3.3).
ghost use Rattle.std.specs.Prelude.{◌≡◌, ◌<◌, ◌≤◌, ◌==◌, ◌⊎◌, ◌++◌, IfOk, IfErr, IfSome, Ok, Err, drop, length, position, take, unwrap_or};
ghost use Rattle.std.specs.Option.{option_copied};
ghost use Rattle.dt_tree.specs.NodeData.{NodeData};
ghost use Rattle.dt_questions.specs.Alias.{alias_of, checked, first_end, path_by, string_in};

use dt_tree::{Path, Tree, behind, is_path};
use std::alloc::{AllocError, Global};
use thiserror::Error;

/// Why a text is no path.
#[derive(Debug, Clone, Copy, PartialEq, Eq, Drop, Error)]
pub enum PathFault {
    #[error("out of memory")]
    NoMemory,
    #[error("no slash in front, and no alias of this name")]
    NoAlias,
    #[error("no lawful path")]
    BadPath,
}

impl From<AllocError> for PathFault {
    ghost use Rattle.std.specs.Prelude.{◌≡◌};
    ghost use Rattle.dt_questions.specs.declared.alias.PathFault.TheVariants.{NoMemory};

    ghost from_gives = { λ _ e. e ≡ NoMemory };

    fn from(_e: AllocError) -> PathFault {
        PathFault::NoMemory
    }
}

// Where the first slash is.
fn slash_in(text: &[u8]) -> Option<usize>
    ensures place { result ≡ position (λ b. b == 47) text.now }
    ensures within { IfSome result (λ end. end < length text.now) }
{
    text.iter().position(|byte| *byte == b'/')
}

/// Where the first zero is.
pub fn zero_in(value: &[u8]) -> Option<usize>
    ensures place { result ≡ position (λ b. b == 0) value.now }
    ensures within { IfSome result (λ end. end < length value.now) }
{
    value.iter().position(|byte| *byte == 0)
}

// Where the first name of a text ends: at its first slash, or at its end.
fn first_end(text: &[u8]) -> usize
    ensures value { result ≡ first_end text.now }
    ensures within { result ≤ length text.now }
{
    match slash_in(text) {
        None => text.len(),
        Some(end) => end,
    }
}

// The string that a value begins with.
fn string_in(value: &[u8]) -> Option<&[u8]>
    ensures { option_copied result ≡ string_in value.now }
{
    match zero_in(value) {
        None => None,
        Some(end) => Some(&value[..end]),
    }
}

// The path that `/aliases` has under this name.
fn alias_of<'t>(tree: &'t Tree, name: &[u8]) -> Option<&'t [u8]>
    ensures { option_copied result ≡ alias_of tree.now.root name.now }
{
    let Some(aliases) = tree.root().child(b"aliases") else {
        return None;
    };
    let Some(value) = aliases.value(name) else {
        return None;
    };
    string_in(value.as_slice())
}

// A text that has to be a path.
fn checked(alloc: Global, text: &[u8]) -> Result<Path, PathFault>
    ensures ok { IfOk result (λ path. checked text.now ≡ Ok path) }
    ensures err { IfErr result (λ e. (e ≡ PathFault.NoMemory) ⊎ (checked text.now ≡ Err e)) }
{
    if !is_path(text) {
        return Err(PathFault::BadPath);
    }
    match Path::parse(alloc, text) {
        Ok(path) => Ok(path),
        Err(_) => Err(PathFault::NoMemory),
    }
}

// Two texts that have to be a path, one behind the other.
fn joined(alloc: Global, path: &[u8], rest: &[u8]) -> Result<Path, PathFault>
    ensures ok { IfOk result (λ whole. checked (path.now ++ rest.now) ≡ Ok whole) }
    ensures err { IfErr result (λ e. (e ≡ PathFault.NoMemory) ⊎ (checked (path.now ++ rest.now) ≡ Err e)) }
{
    let mut text = Vec::from_slice(alloc, path)?;
    text.extend_from_slice(rest)?;
    checked(alloc, text.as_slice())
}

/// A text as a path: one that begins with a slash is a path itself, before any other the path stands that its first name is an
/// alias of. Whether a node stands there isn't asked. Fails with `NoAlias` where there is no such alias, with `BadPath` where what
/// comes of the text is no path, and for want of memory.
pub fn path_by(alloc: Global, tree: &Tree, text: &[u8]) -> Result<Path, PathFault>
    ensures ok { IfOk result (λ path. path_by tree.now.root text.now ≡ Ok path) }
    ensures err { IfErr result (λ e. (e ≡ PathFault.NoMemory) ⊎ (path_by tree.now.root text.now ≡ Err e)) }
{
    let end = first_end(text);
    if end == 0 {
        return checked(alloc, text);
    }
    match alias_of(tree, &text[..end]) {
        None => Err(PathFault::NoAlias),
        Some(path) => joined(alloc, path, behind(text, end)),
    }
}
