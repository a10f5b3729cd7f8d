//! An index of rows by a node and a name.
ghost use Rattle.std.specs.Prelude.{◌≡◌, length};
ghost use Rattle.indexmap.specs.IndexSet.{index_set_len};

use dt_tree::key::KeyName;
use indexmap::IndexSet;
use std::hash::RandomState;

/// The row that stands for a key, and the stamp of the body that defined the key last.
#[derive(Clone, Copy)]
pub struct IndexEntry {
    pub row: Option<usize>,
    pub stamp: usize,
}

/// Rows by a node and a name below it. A key that was met keeps its entry, also where its row is forgotten.
#[derive(Drop)]
pub struct Index<'d> {
    // a whole word in front: the hasher takes words faster than bytes
    pub(crate) keys: IndexSet<(usize, KeyName<'d>), RandomState>,
    pub(crate) entries: Vec<IndexEntry>,
    ghost even: { length entries.items ≡ index_set_len keys },
}
