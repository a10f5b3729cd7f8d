ghost use Rattle.std.specs.Prelude.{◌≡◌, ◌↔◌, IfOk, IsTrue, IsErrOf, IsOk, OnErr, ◌⊎◌, false, true};
ghost use Rattle.std.specs.List.{list_all};
ghost use Rattle.std.specs.Option.{option_copied};
ghost use Rattle.dt_tree.specs.Name.{is_name, is_name_byte};

use crate::error::TreeError;
use crate::limits::MAX_NAME_LEN;
use std::alloc::{AllocError, Global};
use std::marker::Model;

/// The name of a node or of a property: 1 to 255 bytes out of letters, digits and `,._+*#?@-`.
#[derive(Debug, Drop)]
pub struct Name {
    bytes: Vec<u8>,
}

impl Model for Name {
    ghost use Rattle.std.specs.Prelude.{List, ℕ, IsTrue};
    ghost use Rattle.dt_tree.specs.Name.{is_name};

    ghost Value = { List ℕ };

    ghost view = { λ a. a.bytes.items };

    ghost invariant = { λ a. IsTrue (is_name a.bytes.items) };
}

fn is_name_byte(byte: u8) -> bool
    ensures { result ≡ is_name_byte byte }
{
    matches!(byte, b'a'..=b'z' | b'A'..=b'Z' | b'0'..=b'9' | b',' | b'.' | b'_' | b'+' | b'*' | b'#' | b'?' | b'@' | b'-')
}

fn are_name_bytes(bytes: &[u8]) -> bool
    ensures { result ≡ list_all is_name_byte bytes.now }
{
    bytes.iter().all(|byte| is_name_byte(*byte))
}

/// Whether the bytes are a name.
pub fn is_name(bytes: &[u8]) -> bool
    ensures { result ≡ is_name bytes.now }
{
    if bytes.is_empty() {
        return false;
    }
    if bytes.len() > MAX_NAME_LEN {
        return false;
    }
    are_name_bytes(bytes)
}

impl Name {
    /// Fails with `BadName` where the bytes are no name, or with `NoMemory`.
    pub fn new(alloc: Global, bytes: &[u8]) -> Result<Self, TreeError>
        ensures ok { IfOk result (λ name. name ≡ bytes.now) }
        ensures valid { IsOk result → IsTrue (is_name bytes.now) }
        ensures bad { IsErrOf result TreeError.BadName ↔ (is_name bytes.now ≡ false) }
        ensures err { OnErr result (IsErrOf result TreeError.BadName ⊎ IsErrOf result TreeError.NoMemory) }
    {
        if !is_name(bytes) {
            return Err(TreeError::BadName);
        }
        let bytes = Vec::from_slice(alloc, bytes)?;
        Ok(Self { bytes })
    }

    /// The characters, each a byte.
    pub fn as_bytes(&self) -> &[u8]
        ensures value { result.now ≡ self.now }
        ensures valid { IsTrue (is_name self.now) }
    {
        self.bytes.as_slice()
    }

    /// Costs nothing: tells a caller's proof that the name is lawful.
    pub fn check(&self)
        ensures { is_name self.now ≡ true }
    {
        let _ = &self.bytes;
    }

    /// An equal name.
    pub fn copy(&self, alloc: Global) -> Result<Self, AllocError>
        ensures { IfOk result (λ name. name ≡ self.now) }
    {
        Ok(Self {
            bytes: Vec::from_slice(alloc, self.bytes.as_slice())?,
        })
    }
}

/// A copy of bytes that are known to be a name: only memory can lack.
pub fn lawful_name(alloc: Global, bytes: &[u8]) -> Result<Name, AllocError>
    requires { is_name bytes.now ≡ true }
    ensures { IfOk result (λ name. name ≡ bytes.now) }
{
    Ok(Name {
        bytes: Vec::from_slice(alloc, bytes)?,
    })
}

/// An equal name, where there is one.
pub fn copy_name(alloc: Global, name: Option<&Name>) -> Result<Option<Name>, AllocError>
    ensures { IfOk result (λ copied. copied ≡ option_copied name.entry) }
{
    match name {
        None => Ok(None),
        Some(name) => Ok(Some(name.copy(alloc)?)),
    }
}

impl PartialEq for Name {
    ghost use Rattle.std.specs.Cmp.{partial_equiv_from_equiv};
    ghost use Rattle.std.specs.Cmp.Lexicographic.{pointwise, nat_list_eq_equiv};
    ghost use Rattle.std.specs.Prelude.{nat_eq};

    ghost eq = { pointwise nat_eq };

    ghost laws = { partial_equiv_from_equiv nat_list_eq_equiv };

    fn eq(&self, other: &Name) -> bool {
        self.bytes.as_slice() == other.bytes.as_slice()
    }
}

impl Eq for Name {
    ghost use Rattle.std.specs.Cmp.Lexicographic.{nat_list_eq_equiv};

    ghost laws = { nat_list_eq_equiv };
}
