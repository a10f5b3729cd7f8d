//! The node that has a label.
ghost use Rattle.std.specs.Prelude.{◌≡◌, ◌<◌, ◌≤◌, All, IfOk, IfSome, OnOk, length};
ghost use Rattle.dt_live.specs.Placed.Answers.{OfItsTree};
ghost use Rattle.dt_live.specs.Placed.PlacedTrees.{IsPlacedTree, IsStanding};
ghost use Rattle.dt_live.specs.Placed.References.{AreHolders, IsFirstLabelled, IsFirstOf, IsShallow};
ghost use Rattle.dt_live.specs.Placed.Rows.{holds, is_there, place_at};
ghost use Rattle.dt_live.specs.Placed.Shown.{AreNumbered, HasNodes};
ghost use Rattle.dt_live.specs.Private.Placing.{ChoosesToo};
ghost use Rattle.dt_live.specs.Placed.Tables.{rows_in};

use crate::placed::place::{is_made, is_row_made};
use crate::placed::placed_tree::PlacedTree;
use crate::placed::shown::{Shown, show_nodes};
use crate::preorder_of;
use std::alloc::{AllocError, Global};
use std::hash::RandomState;

impl<'d, V: Copy> PlacedTree<'d, V> {
    /// Whether a node stands: it is there, and each one above it.
    pub fn is_standing(&self, node: usize) -> bool
        requires sound { IsPlacedTree self.now }
        requires known { node ≤ length (rows_in self.now.nodes) }
        ensures { result ≡ holds (rows_in self.now.nodes) node }
    {
        let mut at = node;
        'up: while at != 0 {
            if !is_row_made(self.nodes.rows.as_slice(), at - 1) {
                return false;
            }
            at = self.nodes.rows[at - 1].owner;
        }
        true
    }

    // Whether a row of a label stands.
    pub(crate) fn is_worn(&self, row: usize) -> bool
        requires sound { IsPlacedTree self.now }
        requires known { row < length (rows_in self.now.labels) }
        ensures { result ≡ is_there (rows_in self.now.nodes) (place_at (rows_in self.now.labels) row) }
    {
        let place = self.labels.rows[row];
        if !is_made(self.nodes.rows.as_slice(), &place) {
            return false;
        }
        self.is_standing(place.owner)
    }

    // The nodes that have a label, the one that got it last first.
    fn holders(&self, alloc: Global, label: &'d [u8]) -> Result<Vec<usize>, AllocError>
        requires sound { IsPlacedTree self.now }
        ensures holders { IfOk result (λ nodes. OfItsTree self.now (λ t. AreHolders label.now self.now t nodes.items)) }
        ensures stand { IfOk result (λ nodes. All (IsStanding self.now) nodes.items) }
    {
        let mut holders = Vec::new(alloc);
        let mut at = self.heads.get(0, label);
        'rows: while let Some(row) = at {
            if self.is_worn(row) {
                holders.push(self.labels.rows[row].owner)?;
            }
            at = self.older[row];
        }
        Ok(holders)
    }

    // Gives a node that stands itself as the value of a property.
    fn choose(&self, shown: &mut Shown<'d, usize>, node: usize) -> Result<(), AllocError>
        requires node { IsStanding self.now node }
        requires numbered { AreNumbered (rows_in self.now.nodes) (length (rows_in self.now.nodes)) shown.old }
        ensures { OnOk result (ChoosesToo (rows_in self.now.nodes) node shown.old shown.new) }
    {
        match shown.numbers[node] {
            Some(number) => {
                shown.live.set_property(number, b"".as_slice(), node, 0)?;
                Ok(())
            }
            None => Ok(()),
        }
    }

    // The nodes that stand, and of some of them each with itself as the value of a property.
    fn show_some(
        &self,
        alloc: Global,
        hasher: RandomState,
        nodes: &[usize],
    ) -> Result<Shown<'d, usize>, AllocError>
        requires sound { IsPlacedTree self.now }
        requires stand { All (IsStanding self.now) nodes.now }
        ensures { IfOk result (λ shown. HasNodes (rows_in self.now.nodes) nodes.now shown) }
    {
        let mut shown: Shown<'d, usize> = show_nodes(alloc, hasher, &self.nodes)?;
        for node in nodes {
            self.choose(&mut shown, *node)?;
        }
        Ok(shown)
    }

    // The first of some nodes in preorder: the first property of the walk is its own.
    fn first_of(
        &self,
        alloc: Global,
        hasher: RandomState,
        nodes: &[usize],
    ) -> Result<Option<usize>, AllocError>
        requires sound { IsPlacedTree self.now }
        requires stand { All (IsStanding self.now) nodes.now }
        ensures node { IfOk result (λ found. IsFirstOf self.now nodes.now found) }
        ensures there { IfOk result (λ found. IfSome found (IsStanding self.now)) }
    {
        let shown = self.show_some(alloc, hasher, nodes)?;
        let order = preorder_of(alloc, &shown.live)?;
        if order.properties.is_empty() {
            return Ok(None);
        }
        Ok(Some(order.properties[0].value))
    }

    /// The node that has a label, of several the first in preorder. Where several stand that have it, the whole tree is walked.
    pub fn labelled(
        &self,
        alloc: Global,
        hasher: RandomState,
        label: &'d [u8],
    ) -> Result<Option<usize>, AllocError>
        requires sound { IsPlacedTree self.now }
        requires shallow { IsShallow self.now }
        ensures node { IfOk result (λ found. OfItsTree self.now (λ t. IsFirstLabelled label.now self.now t found)) }
        ensures there { IfOk result (λ found. IfSome found (IsStanding self.now)) }
    {
        if !self.begun {
            return Ok(None);
        }
        let holders = self.holders(alloc, label)?;
        if holders.len() > 1 {
            return self.first_of(alloc, hasher, holders.as_slice());
        }
        if holders.is_empty() {
            return Ok(None);
        }
        Ok(Some(holders[0]))
    }
}
