//! The numbers by which nodes name one another.
ghost use Rattle.std.specs.Prelude.{◌≡◌, ◌∷◌, ◌++◌, IfOk};
ghost use Rattle.std.specs.Option.{option_map};
ghost use Rattle.dt_tree.specs.Phandle.{phandle_from, phandle_in, phandle_of};
ghost use Rattle.dt_tree.specs.Private.Answered.{IsWritten};
ghost use Rattle.dt_tree.specs.Private.PhandleWalk.{has_phandle, phandle_or_zero, greatest_below, path_below};

use crate::bytes::Bytes;
use crate::cells::cell_in;
use crate::node::Node;
use std::alloc::{AllocError, Global};

fn phandle_from(number: u32) -> Option<u32>
    ensures { result ≡ phandle_from number }
{
    if number == 0 {
        return None;
    }
    if number == u32::MAX {
        return None;
    }
    Some(number)
}

/// The phandle that bytes give: four of them, the greatest first, that are neither 0 nor 0xffffffff.
pub fn phandle_in(bytes: &[u8]) -> Option<u32>
    ensures { result ≡ phandle_in bytes.now }
{
    match cell_in(bytes) {
        None => None,
        Some(cell) => phandle_from(cell),
    }
}

impl Bytes {
    /// The value of a property `phandle` as a phandle.
    pub fn phandle(&self) -> Option<u32>
        ensures { result ≡ phandle_in self.now }
    {
        phandle_in(self.as_slice())
    }
}

impl Node {
    /// The phandle in the node's property `phandle`. That a reserved node has none is left to the caller.
    pub fn phandle(&self) -> Option<u32>
        ensures { result ≡ phandle_of self.now.properties }
    {
        match self.value(b"phandle") {
            None => None,
            Some(value) => value.phandle(),
        }
    }

    pub(crate) fn has_phandle(&self, phandle: u32) -> bool
        ensures { result ≡ has_phandle self.now.properties phandle }
    {
        match self.phandle() {
            None => false,
            Some(own) => own == phandle,
        }
    }

    pub(crate) fn phandle_or_zero(&self) -> u32
        ensures { result ≡ phandle_or_zero self.now.properties }
    {
        match self.phandle() {
            None => 0,
            Some(phandle) => phandle,
        }
    }

    pub(crate) fn greatest_below(&self) -> u32
        ensures { result ≡ greatest_below self.now }
    {
        let mut most = self.phandle_or_zero();
        for child in self.children() {
            most = most.max(child.greatest_below());
        }
        most
    }

    /// The names from this node down to the first with a phandle, each behind a slash.
    pub(crate) fn path_below(
        &self,
        alloc: Global,
        phandle: u32,
    ) -> Result<Option<Vec<u8>>, AllocError>
        ensures { IfOk result (λ found. IsWritten (path_below self.now phandle) (option_map (λ text. text.items) found)) }
    {
        if self.has_phandle(phandle) {
            return Ok(Some(Vec::new(alloc)));
        }
        for child in self.children() {
            if let Some(below) = child.path_below(alloc, phandle)? {
                return Ok(Some(behind_name(alloc, child.name_bytes(), below)?));
            }
        }
        Ok(None)
    }
}

/// The text of a path, with one more name in front.
pub(crate) fn behind_name(alloc: Global, name: &[u8], below: Vec<u8>) -> Result<Vec<u8>, AllocError>
    ensures { IfOk result (λ text. text.items ≡ 47 ∷ (name.now ++ below.items)) }
{
    let mut text = Vec::new(alloc);
    text.push(b'/')?;
    text.extend_from_slice(name)?;
    text.extend_from_slice(below.as_slice())?;
    Ok(text)
}
