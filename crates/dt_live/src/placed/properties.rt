//! The properties of nodes.
ghost use Rattle.std.specs.Prelude.{◌≡◌, OnOk, true, false};
ghost use Rattle.dt_source.specs.TreeMeaning.DtcEdits.{made_property, unmade_property};
ghost use Rattle.dt_live.specs.Placed.Answers.{IsEditedBy, ShowsValue};
ghost use Rattle.dt_live.specs.Placed.PlacedTrees.{IsPlacedTree, IsStanding, node_path};
ghost use Rattle.dt_live.specs.Placed.PlacedEdits.{HasSameNodes};

use crate::placed::error::PlaceError;
use crate::placed::place::is_made;
use crate::placed::placed_tree::PlacedTree;
use crate::placed::table::Entry;
use std::alloc::AllocError;

impl<'d, V: Copy> PlacedTree<'d, V> {
    /// A property, in the body with which its node begins: one that is there is refused, and one that the body only deleted gets
    /// a second place.
    pub fn new_property(&mut self, node: usize, name: &'d [u8], value: V) -> Result<(), PlaceError>
        requires sound { IsPlacedTree self.old }
        requires node { IsStanding self.old node }
        ensures sound { OnOk result (IsPlacedTree self.new) }
        ensures nodes { HasSameNodes self.old self.new }
        ensures begun { self.new.begun ≡ self.old.begun }
        ensures tree { ShowsValue (made_property true (node_path self.old node) name.now) value self.old self.new result }
    {
        let made = self.clock;
        match self.properties.enter(node, name, Some(value), made)? {
            Entry::New(_) => Ok(()),
            Entry::Found(row) => {
                if is_made(self.nodes.rows.as_slice(), &self.properties.rows[row]) {
                    return Err(PlaceError::DuplicateInBody);
                }
                self.properties.renew(row, Some(value), made)?;
                Ok(())
            }
        }
    }

    /// A property in a later body: at its place, or behind the others.
    pub fn set_property(&mut self, node: usize, name: &'d [u8], value: V) -> Result<(), PlaceError>
        requires sound { IsPlacedTree self.old }
        requires node { IsStanding self.old node }
        ensures sound { OnOk result (IsPlacedTree self.new) }
        ensures nodes { HasSameNodes self.old self.new }
        ensures begun { self.new.begun ≡ self.old.begun }
        ensures tree { ShowsValue (made_property false (node_path self.old node) name.now) value self.old self.new result }
    {
        let made = self.clock;
        match self.properties.enter(node, name, Some(value), made)? {
            Entry::New(_) => Ok(()),
            Entry::Found(row) => {
                let place = &mut self.properties.rows[row];
                if place.again {
                    return Err(PlaceError::DuplicateInBody);
                }
                place.value = Some(value);
                place.made = made;
                place.removed = false;
                Ok(())
            }
        }
    }

    /// A deleted property, in the body with which its node begins: the name gets a place, and what is there stays.
    pub fn reserve_property(&mut self, node: usize, name: &'d [u8]) -> Result<(), AllocError>
        requires sound { IsPlacedTree self.old }
        requires node { IsStanding self.old node }
        ensures sound { OnOk result (IsPlacedTree self.new) }
        ensures nodes { HasSameNodes self.old self.new }
        ensures begun { self.new.begun ≡ self.old.begun }
        ensures tree { OnOk result (IsEditedBy (unmade_property true (node_path self.old node) name.now) self.old self.new) }
    {
        self.properties.enter(node, name, None, 0)?;
        Ok(())
    }

    /// A deleted property in a later body: it goes, and keeps its place.
    pub fn remove_property(&mut self, node: usize, name: &'d [u8])
        requires sound { IsPlacedTree self.old }
        requires node { IsStanding self.old node }
        ensures sound { IsPlacedTree self.new }
        ensures nodes { HasSameNodes self.old self.new }
        ensures begun { self.new.begun ≡ self.old.begun }
        ensures tree { IsEditedBy (unmade_property false (node_path self.old node) name.now) self.old self.new }
    {
        if let Some(row) = self.properties.find(node, name) {
            let place = &mut self.properties.rows[row];
            if !place.again {
                place.removed = true;
            }
        }
    }
}
