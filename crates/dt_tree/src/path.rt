ghost use Rattle.std.specs.Prelude.{◌≡◌, ◌↔◌, ◌∷◌, ◌++◌, [], IfOk, IsTrue, IsErrOf, IsOk, OnErr, ◌⊎◌, false, true};
ghost use Rattle.dt_tree.specs.Name.{are_names};
ghost use Rattle.dt_tree.specs.Path.{behind_slashes, is_path, is_slash, names_behind, path_names, text_or_root};
ghost use Rattle.dt_tree.specs.Private.Edits.{names_in};
ghost use Rattle.std.specs.List.{slice_split};

use crate::error::TreeError;
use crate::name::{Name, is_name};
use std::alloc::{AllocError, Global};
use std::marker::Model;

/// The path from the root to a node: `/`, or one or more times `/` and a name.
#[derive(Debug, Drop)]
pub struct Path {
    text: Vec<u8>,
}

impl Model for Path {
    ghost use Rattle.std.specs.Prelude.{List, ℕ, IsTrue};
    ghost use Rattle.dt_tree.specs.Path.{is_path};

    ghost Value = { List ℕ };

    ghost view = { λ a. a.text.items };

    ghost invariant = { λ a. IsTrue (is_path a.text.items) };
}

fn are_names_between(rest: &[u8]) -> bool
    ensures { result ≡ are_names (slice_split is_slash rest.now) }
{
    rest.split(|byte| *byte == b'/').all(|name| is_name(name))
}

fn are_names_behind(rest: &[u8]) -> bool
    ensures { result ≡ are_names (names_behind rest.now) }
{
    if rest.is_empty() {
        return true;
    }
    are_names_between(rest)
}

/// Whether the bytes are a path.
pub fn is_path(bytes: &[u8]) -> bool
    ensures { result ≡ is_path bytes.now }
{
    match bytes.split_first() {
        None => false,
        Some((first, rest)) => *first == b'/' && are_names_behind(rest),
    }
}

impl Path {
    /// Fails with `BadName` where the bytes are no path, or with `NoMemory`.
    pub fn parse(alloc: Global, bytes: &[u8]) -> Result<Self, TreeError>
        ensures ok { IfOk result (λ path. path ≡ bytes.now) }
        ensures valid { IsOk result → IsTrue (is_path bytes.now) }
        ensures bad { IsErrOf result TreeError.BadName ↔ (is_path bytes.now ≡ false) }
        ensures err { OnErr result (IsErrOf result TreeError.BadName ⊎ IsErrOf result TreeError.NoMemory) }
    {
        if !is_path(bytes) {
            return Err(TreeError::BadName);
        }
        let text = Vec::from_slice(alloc, bytes)?;
        Ok(Self { text })
    }

    /// The path of names that each stand behind a slash; of none, the root's.
    pub(crate) fn from_text(mut text: Vec<u8>) -> Result<Self, AllocError>
        requires { is_path (text_or_root text.items) ≡ true }
        ensures { IfOk result (λ path. path ≡ text_or_root text.items) }
    {
        if text.is_empty() {
            text.push(b'/')?;
        }
        Ok(Self { text })
    }

    /// The path to the child of this name. Nothing is tested again.
    pub fn child(&self, alloc: Global, name: &Name) -> Result<Self, AllocError>
        ensures { IfOk result (λ path. path_names path ≡ path_names self.now ++ name.now ∷ []) }
    {
        self.check();
        name.check();
        let names = self.names_text();
        let mut text = Vec::with_capacity(alloc, names.len() + 1 + name.as_bytes().len())?;
        text.extend_from_slice(names)?;
        text.push(b'/')?;
        text.extend_from_slice(name.as_bytes())?;
        Ok(Self { text })
    }

    /// The names, each behind a slash: of the root's path, nothing.
    fn names_text(&self) -> &[u8]
        ensures { result.now ≡ behind_slashes (path_names self.now) }
    {
        self.check();
        if self.text.len() == 1 {
            return &[];
        }
        self.text.as_slice()
    }

    /// The text of the names between slashes, or none for the root's path.
    pub(crate) fn names_between(&self) -> Option<&[u8]>
        ensures { names_in result ≡ path_names self.now }
    {
        self.check();
        if self.text.len() == 1 {
            return None;
        }
        Some(&self.text[1..])
    }

    /// The path's text.
    pub fn as_bytes(&self) -> &[u8]
        ensures value { result.now ≡ self.now }
        ensures valid { IsTrue (is_path self.now) }
    {
        self.text.as_slice()
    }

    /// Costs nothing: tells a caller's proof that the path is lawful.
    pub fn check(&self)
        ensures { is_path self.now ≡ true }
    {
        let _ = &self.text;
    }

    /// An equal path.
    pub fn copy(&self, alloc: Global) -> Result<Self, AllocError>
        ensures { IfOk result (λ path. path ≡ self.now) }
    {
        Ok(Self {
            text: Vec::from_slice(alloc, self.text.as_slice())?,
        })
    }
}

impl PartialEq for Path {
    ghost use Rattle.std.specs.Cmp.{partial_equiv_from_equiv};
    ghost use Rattle.std.specs.Cmp.Lexicographic.{pointwise, nat_list_eq_equiv};
    ghost use Rattle.std.specs.Prelude.{nat_eq};

    ghost eq = { pointwise nat_eq };

    ghost laws = { partial_equiv_from_equiv nat_list_eq_equiv };

    fn eq(&self, other: &Path) -> bool {
        self.text.as_slice() == other.text.as_slice()
    }
}

impl Eq for Path {
    ghost use Rattle.std.specs.Cmp.Lexicographic.{nat_list_eq_equiv};

    ghost laws = { nat_list_eq_equiv };
}
