//! The labels of nodes.
ghost use Rattle.std.specs.Prelude.{◌≡◌, true, Ok, IfSome, OnOk, IsErrOf};
ghost use Rattle.dt_live.specs.Labels.{IsLabelled, IsTaken, given_label, given_labels};
ghost use Rattle.dt_live.specs.Rows.{HasSameChildStamps, HasSameNodes, HasSamePropertyStamps, IsLiveTree, IsNode, is_standing, state_of};

use crate::live_tree::{LabelRow, LiveTree};
use std::alloc::{AllocError, AllocFailed};

/// Why a label wasn't given.
#[derive(Debug, Clone, Copy, PartialEq, Eq, Drop)]
pub enum LabelError {
    NoMemory,
    DuplicateLabel,
}

impl From<AllocError> for LabelError {
    ghost use Rattle.std.specs.Prelude.{◌≡◌};
    ghost use Rattle.dt_live.specs.declared.labels.LabelError.TheVariants.{NoMemory};

    ghost from_gives = { λ _ e. e ≡ NoMemory };

    fn from(_e: AllocError) -> LabelError {
        LabelError::NoMemory
    }
}

impl<T: Drop> From<AllocFailed<T>> for LabelError {
    ghost use Rattle.std.specs.Prelude.{◌≡◌};
    ghost use Rattle.dt_live.specs.declared.labels.LabelError.TheVariants.{NoMemory};

    ghost from_gives = { λ _ e. e ≡ NoMemory };

    fn from(_e: AllocFailed<T>) -> LabelError {
        LabelError::NoMemory
    }
}

impl<'d, V: Copy> LiveTree<'d, V> {
    /// The node that has this label.
    pub fn labelled(&self, label: &'d [u8]) -> Option<usize>
        requires sound { IsLiveTree self.now }
        ensures path { IsLabelled self.now label.now result }
        ensures known { IfSome result (λ node. IsNode self.now node) }
        ensures there { IfSome result (λ node. is_standing self.now node ≡ true) }
    {
        match self.label_rows.get(0, label) {
            None => None,
            Some(row) => {
                let node = self.labels[row].node;
                if self.is_in_tree(node) {
                    Some(node)
                } else {
                    None
                }
            }
        }
    }

    /// Gives a label to a node, unless another one has it.
    pub fn give_label(&mut self, label: &'d [u8], node: usize) -> Result<(), LabelError>
        requires sound { IsLiveTree self.old }
        requires known { IsNode self.old node }
        requires stands { is_standing self.old node ≡ true }
        ensures sound { OnOk result (IsLiveTree self.new) }
        ensures kept { HasSameNodes self.old self.new }
        ensures given { OnOk result (given_label self.old node label.now ≡ Ok (state_of self.new)) }
        ensures refused { IsErrOf result LabelError.DuplicateLabel → IsTaken (given_label self.old node label.now) }
        ensures children { HasSameChildStamps self.old self.new }
        ensures properties { HasSamePropertyStamps self.old self.new }
        ensures count { self.new.stamps ≡ self.old.stamps }
    {
        match self.labelled(label) {
            Some(other) => {
                if other != node {
                    return Err(LabelError::DuplicateLabel);
                }
            }
            None => {
                let row = self.labels.len();
                self.labels.push(LabelRow { label, node })?;
                self.label_rows.insert(0, label, row)?;
            }
        }
        Ok(())
    }

    /// Gives labels to a node, in order, up to the first that another node has.
    pub fn give_labels(&mut self, labels: &[&'d [u8]], node: usize) -> Result<(), LabelError>
        requires sound { IsLiveTree self.old }
        requires known { IsNode self.old node }
        requires stands { is_standing self.old node ≡ true }
        ensures sound { OnOk result (IsLiveTree self.new) }
        ensures kept { HasSameNodes self.old self.new }
        ensures given { OnOk result (given_labels self.old node labels.now ≡ Ok (state_of self.new)) }
        ensures refused { IsErrOf result LabelError.DuplicateLabel → IsTaken (given_labels self.old node labels.now) }
        ensures children { HasSameChildStamps self.old self.new }
        ensures properties { HasSamePropertyStamps self.old self.new }
        ensures count { self.new.stamps ≡ self.old.stamps }
    {
        for label in labels {
            self.give_label(*label, node)?;
        }
        Ok(())
    }
}
