//! The nodes of the tree.
ghost use Rattle.std.specs.Prelude.{◌≡◌, ◌<◌, ◌≤◌, OnOk, IfOk, Ok, true, false};
ghost use Rattle.dt_source.specs.TreeMeaning.DtcEdits.{made_node, unmade_node, without_all_within};
ghost use Rattle.dt_source.specs.TreeMeaning.DtcStatements.{is_first};
ghost use Rattle.dt_live.specs.Placed.Answers.{IsEditedBy, IsEditedWell, OfItsTree, ShowsEdit, made_later};
ghost use Rattle.dt_live.specs.Placed.PlacedTrees.{IsPlacedTree, IsStanding, child_path, node_path};
ghost use Rattle.dt_live.specs.Placed.PlacedEdits.{Grows, IsFresh, IsMade, Keeps};

use crate::placed::error::PlaceError;
use crate::placed::place::is_row_made;
use crate::placed::placed_tree::PlacedTree;
use crate::placed::table::Entry;
use std::alloc::AllocError;

/// A node that a body makes or merges, and whether it begins there.
#[derive(Clone, Copy)]
pub struct MadeNode {
    pub node: usize,
    pub begins: bool,
}

impl<'d, V: Copy> PlacedTree<'d, V> {
    /// A child in the body with which its parent begins: one that is there is refused, and one that the body only deleted gets a
    /// second place. Where its name begins in the text, in bytes, is kept of it.
    pub fn new_node(&mut self, parent: usize, name: &'d [u8], at: u32) -> Result<usize, PlaceError>
        requires sound { IsPlacedTree self.old }
        requires parent { IsStanding self.old parent }
        requires fresh { IsFresh self.old parent }
        ensures sound { OnOk result (IsPlacedTree self.new) }
        ensures node { IfOk result (λ node. IsMade self.new parent node (child_path self.old parent name.now)) }
        ensures fresh { IfOk result (IsFresh self.new) }
        ensures grows { OnOk result (Grows self.old self.new) }
        ensures begun { self.new.begun ≡ self.old.begun }
        ensures keeps { OnOk result (Keeps parent self.old self.new) }
        ensures tree { ShowsEdit (made_node true (child_path self.old parent name.now)) self.old self.new result }
    {
        let made = match self.clock.checked_add(1) {
            Some(made) => made,
            // 2^64 nodes don't fit into memory
            None => return Err(PlaceError::NoMemory),
        };
        self.clock = made;
        match self.nodes.enter(parent, name, Some(at), made)? {
            Entry::New(row) => Ok(row + 1),
            Entry::Found(row) => {
                if is_row_made(self.nodes.rows.as_slice(), row) {
                    return Err(PlaceError::DuplicateInBody);
                }
                let row = self.nodes.renew(row, Some(at), made)?;
                Ok(row + 1)
            }
        }
    }

    /// A child in a later body: it begins, where it never had a place; else it is there, at its place. Where its name begins in the text,
    /// in bytes, is kept of it, unless it is there.
    pub fn make_node(
        &mut self,
        parent: usize,
        name: &'d [u8],
        at: u32,
    ) -> Result<MadeNode, PlaceError>
        requires sound { IsPlacedTree self.old }
        requires parent { IsStanding self.old parent }
        ensures sound { OnOk result (IsPlacedTree self.new) }
        ensures node { IfOk result (λ x. IsMade self.new parent x.node (child_path self.old parent name.now)) }
        ensures fresh { IfOk result (λ x. x.begins ≡ true → IsFresh self.new x.node) }
        ensures begun { self.new.begun ≡ self.old.begun }
        ensures keeps { OnOk result (Keeps parent self.old self.new) }
        ensures begins { OfItsTree self.old
            (λ t. IfOk result (λ x. x.begins ≡ is_first false (child_path self.old parent name.now) t)) }
        ensures tree { ShowsEdit (made_later (child_path self.old parent name.now)) self.old self.new result }
    {
        let made = match self.clock.checked_add(1) {
            Some(made) => made,
            // 2^64 nodes don't fit into memory
            None => return Err(PlaceError::NoMemory),
        };
        self.clock = made;
        match self.nodes.enter(parent, name, Some(at), made)? {
            Entry::New(row) => {
                Ok(MadeNode {
                    node: row + 1,
                    begins: true,
                })
            }
            Entry::Found(row) => {
                if self.nodes.rows[row].again {
                    return Err(PlaceError::DuplicateInBody);
                }
                let merged = MadeNode {
                    node: row + 1,
                    begins: false,
                };
                // what is below it stays
                if is_row_made(self.nodes.rows.as_slice(), row) {
                    return Ok(merged);
                }
                let place = &mut self.nodes.rows[row];
                place.value = Some(at);
                place.made = made;
                place.removed = false;
                Ok(merged)
            }
        }
    }

    /// A deleted child, in the body with which its parent begins: the name gets a place, and one that is there is refused.
    pub fn reserve_node(&mut self, parent: usize, name: &'d [u8]) -> Result<(), PlaceError>
        requires sound { IsPlacedTree self.old }
        requires parent { IsStanding self.old parent }
        requires fresh { IsFresh self.old parent }
        ensures sound { OnOk result (IsPlacedTree self.new) }
        ensures grows { OnOk result (Grows self.old self.new) }
        ensures begun { self.new.begun ≡ self.old.begun }
        ensures keeps { OnOk result (Keeps parent self.old self.new) }
        ensures tree { ShowsEdit (unmade_node true (child_path self.old parent name.now)) self.old self.new result }
    {
        match self.nodes.enter(parent, name, None, 0)? {
            Entry::New(_) => Ok(()),
            Entry::Found(row) => {
                if is_row_made(self.nodes.rows.as_slice(), row) {
                    return Err(PlaceError::DuplicateInBody);
                }
                self.nodes.renew(row, None, 0)?;
                Ok(())
            }
        }
    }

    /// A deleted child in a later body: it goes with all below it and all their labels, and they keep their places.
    pub fn remove_child(&mut self, parent: usize, name: &'d [u8])
        requires sound { IsPlacedTree self.old }
        requires parent { IsStanding self.old parent }
        ensures sound { IsPlacedTree self.new }
        ensures begun { self.new.begun ≡ self.old.begun }
        ensures keeps { Keeps parent self.old self.new }
        ensures tree { IsEditedWell (unmade_node false (child_path self.old parent name.now)) self.old self.new }
    {
        if let Some(row) = self.nodes.find(parent, name) {
            let place = &mut self.nodes.rows[row];
            if !place.again {
                place.removed = true;
            }
        }
    }

    /// A node below the root goes with all below it and all their labels, and they keep their places.
    pub fn remove_node(&mut self, node: usize)
        requires sound { IsPlacedTree self.old }
        requires below { 1 ≤ node }
        requires node { IsStanding self.old node }
        ensures sound { IsPlacedTree self.new }
        ensures begun { self.new.begun ≡ self.old.begun }
        ensures tree { IsEditedBy (without_all_within (node_path self.old node)) self.old self.new }
    {
        self.nodes.rows[node - 1].removed = true;
    }
}
