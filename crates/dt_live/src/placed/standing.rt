//! What stands when all is read.
ghost use Rattle.std.specs.Prelude.{◌≡◌, ◌+◌, ◌<◌, [], IfOk, OnOk, false, length, true};
ghost use Rattle.dt_source.specs.TreeMeaning.DtcEdits.{ever_labelled};
ghost use Rattle.dt_source.specs.TreeMeaning.DtcStatements.{label_twice};
ghost use Rattle.dt_source.specs.TreeMeaning.Paths.{is_listed};
ghost use Rattle.dt_live.specs.Rows.{state_of};
ghost use Rattle.dt_live.specs.Placed.AllRead.{ShowsTree};
ghost use Rattle.dt_live.specs.Placed.Answers.{OfItsTree, OnDuplicateLabel};
ghost use Rattle.dt_live.specs.Placed.PlacedTrees.{IsOwner, IsPlacedTree, node_path};
ghost use Rattle.dt_live.specs.Placed.Standing.{AreMarked, HasNodesOf, HasProperties, shown_labels, worn_labels};
ghost use Rattle.dt_live.specs.Private.Placing.{MarksToo};
ghost use Rattle.dt_live.specs.Placed.Tables.{found_in, rows_in};

use crate::placed::error::StandError;
use crate::placed::placed_tree::PlacedTree;
use crate::placed::shown::{Shown, show_nodes};
use std::alloc::{AllocError, Global};
use std::hash::RandomState;

impl<'d, V: Copy> PlacedTree<'d, V> {
    // Shows the property of a row, if it stands.
    fn show_property(&self, shown: &mut Shown<'d, V>, row: usize) -> Result<(), AllocError>
        requires sound { IsPlacedTree self.now }
        requires known { row < length (rows_in self.now.properties) }
        requires shown { HasProperties self.now row shown.old }
        ensures { OnOk result (HasProperties self.now (row + 1) shown.new) }
    {
        let owner = self.properties.rows[row].owner;
        let name = self.properties.rows[row].name;
        match self.value_at(row) {
            Some(value) => match shown.numbers[owner] {
                Some(node) => {
                    shown.live.set_property(node, name, value, 0)?;
                    Ok(())
                }
                None => Ok(()),
            },
            None => Ok(()),
        }
    }

    // Shows the properties that stand, in the order of their places.
    fn show_properties(&self, shown: &mut Shown<'d, V>) -> Result<(), AllocError>
        requires sound { IsPlacedTree self.now }
        requires shown { HasProperties self.now 0 shown.old }
        ensures { OnOk result (HasProperties self.now (length (rows_in self.now.properties)) shown.new) }
    {
        for row in 0..self.properties.rows.len() {
            self.show_property(shown, row)?;
        }
        Ok(())
    }

    // Gives the labels that stand, in the order of the symbols.
    fn show_labels(
        &self,
        alloc: Global,
        hasher: RandomState,
        shown: &mut Shown<'d, V>,
    ) -> Result<(), StandError>
        requires sound { IsPlacedTree self.now }
        requires shown { HasNodesOf self.now shown.old }
        requires unlabelled { (state_of shown.old.live).labels ≡ [] }
        ensures shown { OnOk result (HasNodesOf self.now shown.new) }
        ensures labels { OnOk result ((state_of shown.new.live).labels ≡ shown_labels self.now) }
        ensures properties { OnOk result ((state_of shown.new.live).properties ≡ (state_of shown.old.live).properties) }
        ensures refused { OnDuplicateLabel result (label_twice (worn_labels self.now) ≡ true) }
    {
        if !self.begun {
            return Ok(());
        }
        let rows = self.label_order(alloc, hasher)?;
        self.show_words(shown, rows.as_slice())
    }

    /// What stands when all is read: nodes and properties in the order of their places, labels in that of the symbols. Refused
    /// exactly where a label stands at two nodes.
    pub fn stand(&self, alloc: Global, hasher: RandomState) -> Result<Shown<'d, V>, StandError>
        requires sound { IsPlacedTree self.now }
        ensures once { OnOk result (label_twice (worn_labels self.now) ≡ false) }
        ensures shown { IfOk result (HasNodesOf self.now) }
        ensures tree { IfOk result (ShowsTree self.now) }
        ensures refused { OnDuplicateLabel result (label_twice (worn_labels self.now) ≡ true) }
    {
        let mut shown: Shown<'d, V> = show_nodes(alloc, hasher, &self.nodes)?;
        self.show_properties(&mut shown)?;
        self.check_labels(alloc, hasher)?;
        self.show_labels(alloc, hasher, &mut shown)?;
        Ok(shown)
    }

    // Marks a node, where it stands.
    fn note(&self, shown: &Shown<'d, V>, marked: &mut Vec<bool>, node: usize)
        requires sound { IsPlacedTree self.now }
        requires node { IsOwner (rows_in self.now.nodes) (found_in self.now.nodes) node }
        requires shown { HasNodesOf self.now shown.now }
        requires count { length marked.old.items ≡ length shown.now.live.nodes.items + 1 }
        ensures count { length marked.new.items ≡ length marked.old.items }
        ensures marks { MarksToo (node_path self.now node) shown.now.live marked.old.items marked.new.items }
    {
        match shown.numbers[node] {
            Some(number) => marked[number] = true,
            None => {}
        }
    }

    /// Of each node that stands, by its number there, whether `/omit-if-no-ref/` counts for it.
    pub fn marked(&self, alloc: Global, shown: &Shown<'d, V>) -> Result<Vec<bool>, AllocError>
        requires sound { IsPlacedTree self.now }
        requires shown { HasNodesOf self.now shown.now }
        ensures { IfOk result (λ marked. OfItsTree self.now
            (λ t. AreMarked (λ p. is_listed p t.marked) shown.now.live marked.items)) }
    {
        let mut marked = vec![in alloc; false; shown.live.nodes().len() + 1]?;
        for node in self.marks.as_slice() {
            self.note(shown, &mut marked, *node);
        }
        Ok(marked)
    }

    /// Of each node that stands, by its number there, whether it ever had a label, which it may have lost.
    pub fn ever_labelled(
        &self,
        alloc: Global,
        shown: &Shown<'d, V>,
    ) -> Result<Vec<bool>, AllocError>
        requires sound { IsPlacedTree self.now }
        requires shown { HasNodesOf self.now shown.now }
        ensures { IfOk result (λ labelled. OfItsTree self.now
            (λ t. AreMarked (ever_labelled t) shown.now.live labelled.items)) }
    {
        let mut labelled = vec![in alloc; false; shown.live.nodes().len() + 1]?;
        for row in 0..self.labels.rows.len() {
            let owner = self.labels.rows[row].owner;
            self.note(shown, &mut labelled, owner);
        }
        Ok(labelled)
    }
}
