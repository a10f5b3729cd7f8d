//! The labels that stand, in the order of the symbols.
ghost use Rattle.std.specs.Prelude.{◌≡◌, ◌+◌, ◌<◌, IfOk, OnOk, length};
ghost use Rattle.dt_live.specs.Placed.PlacedTrees.{IsPlacedTree};
ghost use Rattle.dt_live.specs.Placed.Standing.{AreOrdered, HasLabelRows};
ghost use Rattle.dt_live.specs.Placed.Tables.{rows_in};

use crate::placed::place::is_made;
use crate::placed::placed_tree::PlacedTree;
use crate::placed::shown::{Shown, show_nodes};
use crate::preorder_of;
use std::alloc::{AllocError, Global};
use std::hash::RandomState;

impl<'d, V: Copy> PlacedTree<'d, V> {
    // Has the row of a label, if it stands, as the value of a property of its node.
    fn show_label(&self, shown: &mut Shown<'d, usize>, row: usize) -> Result<(), AllocError>
        requires sound { IsPlacedTree self.now }
        requires known { row < length (rows_in self.now.labels) }
        requires shown { HasLabelRows self.now (row + 1) shown.old }
        ensures { OnOk result (HasLabelRows self.now row shown.new) }
    {
        let label = self.labels.rows[row];
        if !is_made(self.nodes.rows.as_slice(), &label) {
            return Ok(());
        }
        match shown.numbers[label.owner] {
            Some(node) => {
                shown.live.set_property(node, label.name, row, 0)?;
                Ok(())
            }
            None => Ok(()),
        }
    }

    // Has the rows of labels that stand as values, in a tree in which each label is a property of its node. The last row comes first.
    fn labels_as_properties(
        &self,
        alloc: Global,
        hasher: RandomState,
    ) -> Result<Shown<'d, usize>, AllocError>
        requires sound { IsPlacedTree self.now }
        ensures { IfOk result (HasLabelRows self.now 0) }
    {
        let mut shown: Shown<'d, usize> = show_nodes(alloc, hasher, &self.nodes)?;
        let count = self.labels.rows.len();
        for place in 0..count {
            self.show_label(&mut shown, count - 1 - place)?;
        }
        Ok(shown)
    }

    // The rows of the labels that stand, node by node in preorder, a node's last one first.
    pub(crate) fn label_order(
        &self,
        alloc: Global,
        hasher: RandomState,
    ) -> Result<Vec<usize>, AllocError>
        requires sound { IsPlacedTree self.now }
        ensures { IfOk result (λ rows. AreOrdered self.now rows.items) }
    {
        let shown = self.labels_as_properties(alloc, hasher)?;
        let order = preorder_of(alloc, &shown.live)?;
        let mut rows = Vec::with_capacity(alloc, order.properties.len())?;
        for label in order.properties.as_slice() {
            rows.push(label.value)?;
        }
        Ok(rows)
    }
}
