//! The names of a tree's properties.
ghost use Rattle.std.specs.Prelude.{◌≡◌, ◌<◌, ◌≤◌, [], slice_get, length, min, position, OnOk, IfOk, Some};
ghost use Rattle.std.specs.Str.{bytes_eq};
ghost use Rattle.dt_tree.specs.declared.limits.TheConstants.{MAX_NAME_LEN};
ghost use Rattle.dt_tree.specs.NodeData.{property_names};
ghost use Rattle.dt_blob.specs.Blob.{names_in};
ghost use Rattle.dt_blob.specs.Steps.Table.{AreNames, with_sight, with_sights};
ghost use Rattle.dt_blob.specs.Token.{tokens_of};

use dt_tree::key::KeyName;
use dt_tree::{MAX_NAME_LEN, Name, Node, Property};
use indexmap::IndexSet;
use std::alloc::{AllocError, Global};
use std::hash::RandomState;
use std::marker::Model;

/// How many lengths of names are told apart; longer ones, of which there are none, count as the last.
const LENGTHS: usize = MAX_NAME_LEN + 1;

/// Names that differ, in order of first sight, each found without a walk. What has the length of none isn't looked up.
#[derive(Drop)]
pub(crate) struct Names<'a> {
    set: IndexSet<KeyName<'a>, RandomState>,
    lengths: [bool; LENGTHS],
}

impl<'a> Model for Names<'a> {
    ghost use Rattle.std.specs.Prelude.{List, ℕ, map};
    ghost use Rattle.dt_blob.specs.Steps.Table.{AreKept};

    ghost Value = { List (List ℕ) };

    ghost view = { λ names. map (λ name. name.bytes.now) names.set.keys };

    ghost invariant = { λ names. AreKept (map (λ name. name.bytes.now) names.set.keys) names.lengths };
}

fn place_of_length(len: usize) -> usize
    ensures value { result ≡ min len MAX_NAME_LEN }
    ensures inside { result ≤ MAX_NAME_LEN }
{
    len.min(MAX_NAME_LEN)
}

impl<'a> Names<'a> {
    /// The names in a node and below it.
    pub(crate) fn below(
        alloc: Global,
        hasher: RandomState,
        node: &'a Node,
    ) -> Result<Self, AllocError>
        ensures { IfOk result (λ names. names ≡ with_sights [] (names_in (tokens_of node.now))) }
    {
        let mut names = Self::new(alloc, hasher);
        names.note_node(node)?;
        Ok(names)
    }

    fn new(alloc: Global, hasher: RandomState) -> Self
        ensures { result ≡ [] }
    {
        Self {
            set: IndexSet::with_hasher(alloc, hasher),
            lengths: [false; LENGTHS],
        }
    }

    fn note(&mut self, name: &'a Name) -> Result<(), AllocError>
        ensures { OnOk result (self.new ≡ with_sight self.old name.now) }
    {
        name.check();
        let name = name.as_bytes();
        self.set.insert(KeyName { bytes: name })?;
        self.lengths[place_of_length(name.len())] = true;
        Ok(())
    }

    fn note_properties(&mut self, properties: &'a [Property]) -> Result<(), AllocError>
        ensures { OnOk result (self.new ≡ with_sights self.old (property_names properties.now)) }
    {
        for property in properties {
            self.note(&property.name)?;
        }
        Ok(())
    }

    fn note_node(&mut self, node: &'a Node) -> Result<(), AllocError>
        ensures { OnOk result (self.new ≡ with_sights self.old (names_in (tokens_of node.now))) }
    {
        self.note_properties(node.properties())?;
        for child in node.children() {
            self.note_node(child)?;
        }
        Ok(())
    }

    pub(crate) fn len(&self) -> usize
        ensures { result ≡ length self.now }
    {
        self.set.len()
    }

    /// The name at a place.
    pub(crate) fn get(&self, at: usize) -> &'a [u8]
        requires { at < length self.now }
        ensures { slice_get self.now at ≡ Some result.now }
    {
        self.set.as_slice()[at].bytes
    }

    /// The place of a name.
    pub(crate) fn position(&self, name: &[u8]) -> Option<usize>
        ensures { result ≡ position (bytes_eq name.now) self.now }
    {
        if !self.lengths[place_of_length(name.len())] {
            return None;
        }
        self.set.get_index_of(&KeyName { bytes: name })
    }

    /// Costs nothing: tells a caller's proof that the names are lawful and differ.
    pub(crate) fn check(&self)
        ensures { AreNames self.now }
    {
        let _ = &self.set;
    }
}
