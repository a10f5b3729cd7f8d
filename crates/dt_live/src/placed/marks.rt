//! The root, the marks of `/omit-if-no-ref/`, and the fragments of a plugin.
ghost use Rattle.std.specs.Prelude.{◌≡◌, [], OnOk, false, true};
ghost use Rattle.dt_source.specs.TreeMeaning.DtcEdits.{node_has_place, with_mark};
ghost use Rattle.dt_source.specs.TreeMeaning.DtcStatements.{with_root};
ghost use Rattle.dt_live.specs.Placed.Answers.{IsEditedBy, OfItsTree};
ghost use Rattle.dt_live.specs.Placed.PlacedTrees.{IsPlacedTree, IsStanding, child_path, node_path};
ghost use Rattle.dt_live.specs.Placed.PlacedEdits.{HasSameNodes, counted_fragment};
ghost use Rattle.dt_live.specs.Placed.Tables.{rows_in};

use crate::placed::placed_tree::PlacedTree;
use std::alloc::AllocError;

impl<'d, V: Copy> PlacedTree<'d, V> {
    /// Whether the root is there.
    pub fn is_begun(&self) -> bool
        ensures begun { result ≡ self.now.begun }
        ensures tree { OfItsTree self.now (λ t. result ≡ node_has_place [] t) }
    {
        self.begun
    }

    /// The first item makes the root.
    pub fn begin(&mut self)
        requires sound { IsPlacedTree self.old }
        requires empty { self.old.begun ≡ false → rows_in self.old.nodes ≡ [] }
        ensures sound { IsPlacedTree self.new }
        ensures nodes { HasSameNodes self.old self.new }
        ensures begun { self.new.begun ≡ true }
        ensures tree { IsEditedBy with_root self.old self.new }
    {
        self.begun = true;
    }

    /// Whether a name below a node has a place.
    pub fn has_child(&self, parent: usize, name: &'d [u8]) -> bool
        requires sound { IsPlacedTree self.now }
        requires parent { IsStanding self.now parent }
        ensures { OfItsTree self.now (λ t. result ≡ node_has_place (child_path self.now parent name.now) t) }
    {
        match self.nodes.find(parent, name) {
            Some(_) => true,
            None => false,
        }
    }

    /// `/omit-if-no-ref/` counts for a node, also once it is removed and made again.
    pub fn mark(&mut self, node: usize) -> Result<(), AllocError>
        requires sound { IsPlacedTree self.old }
        requires node { IsStanding self.old node }
        ensures sound { OnOk result (IsPlacedTree self.new) }
        ensures nodes { HasSameNodes self.old self.new }
        ensures begun { self.new.begun ≡ self.old.begun }
        ensures tree { OnOk result (IsEditedBy (with_mark true (node_path self.old node)) self.old self.new) }
    {
        self.marks.push(node)?;
        Ok(())
    }

    /// How many fragments were made.
    pub fn fragments(&self) -> usize
        ensures { result ≡ self.now.fragments }
    {
        self.fragments
    }

    /// One fragment more is made.
    pub fn count_fragment(&mut self) -> Result<(), AllocError>
        requires sound { IsPlacedTree self.old }
        ensures sound { OnOk result (IsPlacedTree self.new) }
        ensures nodes { HasSameNodes self.old self.new }
        ensures begun { self.new.begun ≡ self.old.begun }
        ensures tree { OnOk result (IsEditedBy counted_fragment self.old self.new) }
    {
        match self.fragments.checked_add(1) {
            Some(fragments) => {
                self.fragments = fragments;
                Ok(())
            }
            // 2^64 fragments don't fit into memory
            None => Err(AllocError),
        }
    }
}
