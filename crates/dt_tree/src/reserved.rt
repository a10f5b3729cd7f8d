//! The phandles of a whole tree, whose reserved nodes have none.
ghost use Rattle.std.specs.Prelude.{◌≡◌, IfOk};
ghost use Rattle.std.specs.Option.{option_map};
ghost use Rattle.dt_tree.specs.Path.{path_names};
ghost use Rattle.dt_tree.specs.Phandle.{is_reserved_name};
ghost use Rattle.dt_tree.specs.Private.Answered.{IsWritten};
ghost use Rattle.dt_tree.specs.Private.PhandleWalk.{greatest_in_tree, path_in_tree};

use crate::node::Node;
use crate::path::Path;
use crate::phandle::behind_name;
use std::alloc::{AllocError, Global};

/// Whether the root's child of this name is reserved: `__symbols__`, `__fixups__` or `__local_fixups__`.
pub fn is_reserved_name(name: &[u8]) -> bool
    ensures { result ≡ is_reserved_name name.now }
{
    name == b"__symbols__".as_slice()
        || name == b"__fixups__".as_slice()
        || name == b"__local_fixups__".as_slice()
}

impl Node {
    /// The greatest phandle of the tree below this root, or 0.
    pub(crate) fn greatest_in_tree(&self) -> u32
        ensures { result ≡ greatest_in_tree self.now }
    {
        let mut most = self.phandle_or_zero();
        for child in self.children() {
            if !is_reserved_name(child.name_bytes()) {
                most = most.max(child.greatest_below());
            }
        }
        most
    }

    /// The names of the path of the first node of the tree with a phandle, each behind a slash.
    fn path_in_tree(&self, alloc: Global, phandle: u32) -> Result<Option<Vec<u8>>, AllocError>
        ensures { IfOk result (λ found. IsWritten (path_in_tree self.now phandle) (option_map (λ text. text.items) found)) }
    {
        if self.has_phandle(phandle) {
            return Ok(Some(Vec::new(alloc)));
        }
        for top in self.children() {
            if !is_reserved_name(top.name_bytes()) {
                if let Some(below) = top.path_below(alloc, phandle)? {
                    return Ok(Some(behind_name(alloc, top.name_bytes(), below)?));
                }
            }
        }
        Ok(None)
    }

    /// The path to the first node of the tree with a phandle.
    pub(crate) fn path_to(&self, alloc: Global, phandle: u32) -> Result<Option<Path>, AllocError>
        ensures { IfOk result (λ found. option_map path_names found ≡ path_in_tree self.now phandle) }
    {
        self.check();
        match self.path_in_tree(alloc, phandle)? {
            None => Ok(None),
            Some(text) => Ok(Some(Path::from_text(text)?)),
        }
    }
}
