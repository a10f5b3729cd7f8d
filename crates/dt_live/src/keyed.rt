//! What an index answers, and how it changes. Each call hashes its key once.
ghost use Rattle.std.specs.Prelude.{◌≡◌, ◌+◌, ◌<◌, ℕ, List, None, Some, OnOk, OnErr, IfOk, length, slice_set};
ghost use Rattle.dt_live.specs.Index.{DefinesRow, IsSetAt, SetsRow, absent, entry_of, row_of, stamp_of, slot_of};

use crate::index::{Index, IndexEntry};
use dt_tree::key::KeyName;
use indexmap::IndexSet;
use std::alloc::{AllocError, Global};
use std::hash::RandomState;

const ABSENT: IndexEntry = IndexEntry {
    row: None,
    stamp: 0,
};

impl<'d> Index<'d> {
    /// An empty index.
    pub fn new(alloc: Global, hasher: RandomState) -> Self
        ensures rows { (n : ℕ) (k : List ℕ) → row_of result n k ≡ None }
        ensures stamps { (n : ℕ) (k : List ℕ) → stamp_of result n k ≡ 0 }
    {
        Index {
            keys: IndexSet::with_hasher(alloc, hasher),
            entries: Vec::new(alloc),
        }
    }

    /// The row of a name.
    pub fn get(&self, node: usize, name: &'d [u8]) -> Option<usize>
        ensures { result ≡ row_of self.now node name.now }
    {
        match self.keys.get_index_of(&(node, KeyName { bytes: name })) {
            Some(slot) => self.entries[slot].row,
            None => None,
        }
    }

    // The entry of a key, which is made where the key wasn't met.
    fn slot(&mut self, node: usize, name: &'d [u8]) -> Result<usize, AllocError>
        ensures same { (n : ℕ) (k : List ℕ) → entry_of self.new n k ≡ entry_of self.old n k }
        ensures slot { IfOk result (λ slot. slot ≡ slot_of self.new.keys.keys node name.now) }
        ensures within { IfOk result (λ slot. slot < length self.new.entries.items) }
    {
        self.entries.reserve(1)?;
        let (slot, is_new) = self.keys.insert_full((node, KeyName { bytes: name }))?;
        if is_new {
            self.entries.push(ABSENT)?;
        }
        Ok(slot)
    }

    /// Notes that a body defines a name: its row, the given one where it had none. Answers what was there before.
    pub fn define(
        &mut self,
        node: usize,
        name: &'d [u8],
        row: usize,
        stamp: usize,
    ) -> Result<IndexEntry, AllocError>
        ensures before { IfOk result (λ entry. entry ≡ entry_of self.old node name.now) }
        ensures rows { OnOk result (DefinesRow node name.now row self.old self.new) }
        ensures stamps { OnOk result (IsSetAt node name.now stamp (stamp_of self.old) (stamp_of self.new)) }
        ensures err { OnErr result ((n : ℕ) (k : List ℕ) → entry_of self.new n k ≡ entry_of self.old n k) }
    {
        let slot = self.slot(node, name)?;
        let entry = self.entries[slot];
        self.entries[slot] = IndexEntry {
            row: Some(entry.row.unwrap_or(row)),
            stamp,
        };
        Ok(entry)
    }

    /// Notes the row of a name, in place of the one that it had.
    pub fn insert(&mut self, node: usize, name: &'d [u8], row: usize) -> Result<(), AllocError>
        ensures rows { OnOk result (SetsRow node name.now (Some row) self.old self.new) }
        ensures err { OnErr result ((n : ℕ) (k : List ℕ) → entry_of self.new n k ≡ entry_of self.old n k) }
    {
        let slot = self.slot(node, name)?;
        self.entries[slot] = IndexEntry {
            row: Some(row),
            stamp: 0,
        };
        Ok(())
    }

    /// Forgets the row of a name, and answers it. What body defined the name last stays.
    pub fn forget(&mut self, node: usize, name: &'d [u8]) -> Option<usize>
        ensures was { result ≡ row_of self.old node name.now }
        ensures rows { SetsRow node name.now None self.old self.new }
        ensures stamps { (n : ℕ) (k : List ℕ) → stamp_of self.new n k ≡ stamp_of self.old n k }
    {
        match self.keys.get_index_of(&(node, KeyName { bytes: name })) {
            Some(slot) => {
                let entry = self.entries[slot];
                self.entries[slot] = IndexEntry {
                    row: None,
                    stamp: entry.stamp,
                };
                entry.row
            }
            None => None,
        }
    }
}
