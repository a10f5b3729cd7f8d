//! The labels of a tree that is shown.
ghost use Rattle.std.specs.Prelude.{◌≡◌, [], All, OnOk, map, true};
ghost use Rattle.dt_source.specs.TreeMeaning.DtcStatements.{label_twice};
ghost use Rattle.dt_live.specs.Rows.{state_of};
ghost use Rattle.dt_live.specs.Placed.Answers.{OnDuplicateLabel};
ghost use Rattle.dt_live.specs.Placed.PlacedTrees.{IsPlacedTree};
ghost use Rattle.dt_live.specs.Placed.Standing.{GivesLabel, HasNodesOf, IsWornRow, is_taken, label_of};

use crate::placed::error::StandError;
use crate::placed::placed_tree::PlacedTree;
use crate::placed::shown::Shown;

impl<'d, V: Copy> PlacedTree<'d, V> {
    // Gives the label of a row that stands, unless a node has it.
    fn show_word(&self, shown: &mut Shown<'d, V>, row: usize) -> Result<(), StandError>
        requires sound { IsPlacedTree self.now }
        requires worn { IsWornRow self.now row }
        requires shown { HasNodesOf self.now shown.old }
        ensures shown { OnOk result (HasNodesOf self.now shown.new) }
        ensures given { OnOk result (GivesLabel self.now row shown.old shown.new) }
        ensures refused { OnDuplicateLabel result (is_taken self.now row (state_of shown.old.live).labels ≡ true) }
    {
        let label = self.labels.rows[row];
        match shown.live.labelled(label.name) {
            Some(_) => Err(StandError::DuplicateLabel { at: label.at() }),
            None => match shown.numbers[label.owner] {
                Some(node) => match shown.live.give_label(label.name, node) {
                    Ok(()) => Ok(()),
                    // no node has it, so that memory is what is wanting
                    Err(_) => Err(StandError::NoMemory),
                },
                None => Ok(()),
            },
        }
    }
    // Gives the labels of rows that stand, in order, unless one of them is a label of two nodes.
    pub(crate) fn show_words(
        &self,
        shown: &mut Shown<'d, V>,
        rows: &[usize],
    ) -> Result<(), StandError>
        requires sound { IsPlacedTree self.now }
        requires worn { All (IsWornRow self.now) rows.now }
        requires shown { HasNodesOf self.now shown.old }
        requires unlabelled { (state_of shown.old.live).labels ≡ [] }
        ensures shown { OnOk result (HasNodesOf self.now shown.new) }
        ensures labels { OnOk result ((state_of shown.new.live).labels ≡ map (label_of self.now) rows.now) }
        ensures properties { OnOk result ((state_of shown.new.live).properties ≡ (state_of shown.old.live).properties) }
        ensures refused { OnDuplicateLabel result (label_twice (map (label_of self.now) rows.now) ≡ true) }
    {
        for row in rows {
            match self.show_word(shown, *row) {
                Ok(()) => {}
                Err(error) => return Err(error),
            }
        }
        Ok(())
    }
}
