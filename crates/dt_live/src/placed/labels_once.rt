//! Whether a label stands at two nodes.
ghost use Rattle.std.specs.Prelude.{◌≡◌, ◌+◌, ◌<◌, ℕ, IsErrOf, OnOk, false, length, true};
ghost use Rattle.dt_source.specs.TreeMeaning.DtcStatements.{label_twice};
ghost use Rattle.dt_live.specs.Placed.PlacedTrees.{IsPlacedTree};
ghost use Rattle.dt_live.specs.Placed.Standing.{AreNoted, worn_labels};
ghost use Rattle.dt_live.specs.Placed.Tables.{rows_in};

use crate::Index;
use crate::placed::error::StandError;
use crate::placed::placed_tree::PlacedTree;
use std::alloc::Global;
use std::hash::RandomState;

impl<'d, V: Copy> PlacedTree<'d, V> {
    // Notes the label of a row, if it stands, unless it was noted. Hashes the label once.
    fn note_label(&self, words: &mut Index<'d>, row: usize) -> Result<(), StandError>
        requires sound { IsPlacedTree self.now }
        requires known { row < length (rows_in self.now.labels) }
        requires noted { AreNoted self.now row words.old }
        ensures noted { OnOk result (AreNoted self.now (row + 1) words.new) }
        ensures refused { (at : ℕ) → IsErrOf result (StandError.DuplicateLabel at)
            → label_twice (worn_labels self.now) ≡ true }
    {
        if !self.is_worn(row) {
            return Ok(());
        }
        let label = self.labels.rows[row];
        let before = words.define(0, label.name, row, 0)?;
        match before.row {
            Some(_) => Err(StandError::DuplicateLabel { at: label.at() }),
            None => Ok(()),
        }
    }

    // Refuses a label that stands at two nodes.
    pub(crate) fn check_labels(&self, alloc: Global, hasher: RandomState) -> Result<(), StandError>
        requires sound { IsPlacedTree self.now }
        ensures once { OnOk result (label_twice (worn_labels self.now) ≡ false) }
        ensures refused { (at : ℕ) → IsErrOf result (StandError.DuplicateLabel at)
            → label_twice (worn_labels self.now) ≡ true }
    {
        let mut words = Index::new(alloc, hasher);
        for row in 0..self.labels.rows.len() {
            self.note_label(&mut words, row)?;
        }
        Ok(())
    }
}
