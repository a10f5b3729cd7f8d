//! The labels of nodes.
ghost use Rattle.std.specs.Prelude.{◌≡◌, ◌≤◌, ◌∷◌, [], OnOk, Some, if◌then◌else◌, length};
ghost use Rattle.dt_source.specs.TreeMeaning.DtcEdits.{with_labels_at};
ghost use Rattle.dt_live.specs.Placed.Answers.{IsEditedBy};
ghost use Rattle.dt_live.specs.Placed.PlacedTrees.{IsPlacedTree, IsStanding, node_path};
ghost use Rattle.dt_live.specs.Placed.PlacedEdits.{HasSameNodes};
ghost use Rattle.dt_live.specs.Placed.Rows.{is_made};

use crate::placed::place::{Place, is_made};
use crate::placed::placed_tree::PlacedTree;
use crate::placed::table::Entry;
use std::alloc::AllocError;

// Where a label was given that its node has, else where it is given now.
fn first_given(nodes: &[Place<'_, u32>], label: &Place<'_, u32>, at: u32) -> Option<u32>
    requires { label.now.owner ≤ length nodes.now }
    ensures { result ≡ (if is_made nodes.now label.now then label.now.value else Some at) }
{
    if is_made(nodes, label) {
        return label.value;
    }
    Some(at)
}

impl<'d, V: Copy> PlacedTree<'d, V> {
    /// Gives a label to a node, at the place that it has there, or behind the others. Other nodes may have it as well. Where the name
    /// or the reference begins before which it stands, in bytes, is kept of it, unless the node has the label.
    pub fn give_label(&mut self, label: &'d [u8], node: usize, at: u32) -> Result<(), AllocError>
        requires sound { IsPlacedTree self.old }
        requires node { IsStanding self.old node }
        ensures sound { OnOk result (IsPlacedTree self.new) }
        ensures nodes { HasSameNodes self.old self.new }
        ensures begun { self.new.begun ≡ self.old.begun }
        ensures tree { OnOk result (IsEditedBy (with_labels_at (label.now ∷ []) (node_path self.old node)) self.old self.new) }
    {
        let made = self.clock;
        match self.labels.enter(node, label, Some(at), made)? {
            Entry::New(row) => {
                let older = self.heads.get(0, label);
                self.older.push(older)?;
                self.heads.insert(0, label, row)?;
                Ok(())
            }
            Entry::Found(row) => {
                let given = first_given(self.nodes.rows.as_slice(), &self.labels.rows[row], at);
                let place = &mut self.labels.rows[row];
                place.value = given;
                place.made = made;
                place.removed = false;
                Ok(())
            }
        }
    }
}
