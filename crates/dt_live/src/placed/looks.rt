//! The first child of a node, and the value of a property.
ghost use Rattle.std.specs.Prelude.{◌≡◌, ◌<◌, ◌≤◌, IfSome, List, length};
ghost use Rattle.dt_source.specs.TreeMeaning.Syntax.{Piece};
ghost use Rattle.dt_live.specs.Placed.PlacedTrees.{IsPlacedTree, IsStanding, dtc_tree};
ghost use Rattle.dt_live.specs.Placed.References.{IsFirstChild, IsValueOf, value_made};
ghost use Rattle.dt_live.specs.Placed.Rows.{place_at};
ghost use Rattle.dt_live.specs.Placed.Tables.{rows_in};

use crate::placed::place::is_made;
use crate::placed::placed_tree::PlacedTree;

impl<'d, V: Copy> PlacedTree<'d, V> {
    /// The first child that a node ever had, also where it was removed.
    pub fn first_child(&self, node: usize) -> Option<usize>
        requires sound { IsPlacedTree self.now }
        requires node { IsStanding self.now node }
        ensures first { (read : V → List Piece) → IsFirstChild self.now node (dtc_tree read self.now) result }
        ensures known { IfSome result (λ child. child ≤ length (rows_in self.now.nodes)) }
    {
        for row in 0..self.nodes.rows.len() {
            if self.nodes.rows[row].owner == node {
                return Some(row + 1);
            }
        }
        None
    }

    // The value at a row of a property, where it was made since its node was.
    pub(crate) fn value_at(&self, row: usize) -> Option<V>
        requires sound { IsPlacedTree self.now }
        requires known { row < length (rows_in self.now.properties) }
        ensures { result ≡ value_made (rows_in self.now.nodes) (place_at (rows_in self.now.properties) row) }
    {
        if !is_made(self.nodes.rows.as_slice(), &self.properties.rows[row]) {
            return None;
        }
        match &self.properties.rows[row].value {
            Some(value) => Some(*value),
            None => None,
        }
    }

    /// The value of the property of this name, where it stands.
    pub fn property(&self, node: usize, name: &'d [u8]) -> Option<V>
        requires sound { IsPlacedTree self.now }
        requires node { IsStanding self.now node }
        ensures { (read : V → List Piece) → IsValueOf read self.now node name.now (dtc_tree read self.now) result }
    {
        match self.properties.find(node, name) {
            Some(row) => self.value_at(row),
            None => None,
        }
    }
}
