//! A live tree: tables of rows in order of definition, and an index of each.
ghost use Rattle.std.specs.Prelude.{◌≡◌, ◌+◌, ◌-◌, ◌^◌, true, IfSome, IsNone, IsSome};
ghost use Rattle.dt_source.specs.TreeMeaning.Edits.{empty};
ghost use Rattle.dt_live.specs.ByRow.{has_all_rows};
ghost use Rattle.dt_live.specs.Rows.{HasSameChildStamps, HasSameNodes, HasSamePropertyStamps, IsLiveTree, IsNode, IsStamped, IsUnbegun, is_standing, state_of};

use crate::index::Index;
use std::alloc::Global;
use std::hash::RandomState;

/// A node: the one above it, its name, and where the definition stands that made it: the offset of its name in a text, in bytes, 0
/// where no text has one. Node 0 is the root, node n has row n - 1.
#[derive(Clone, Copy)]
pub struct NodeRow<'d> {
    pub parent: usize,
    pub name: &'d [u8],
    pub removed: bool,
    pub at: u32,
}

/// A property of a node, with its value, None where it was removed.
#[derive(Clone, Copy)]
pub struct PropertyRow<'d, V> {
    pub node: usize,
    pub name: &'d [u8],
    pub value: Option<V>,
}

/// A label and the node that it was given to.
#[derive(Clone, Copy)]
pub struct LabelRow<'d> {
    pub label: &'d [u8],
    pub node: usize,
}

/// The tree while a source edits it. Rows keep their places, so that the order of a table is the order of definition. What is
/// removed is marked, and nothing below it is visited: whether a node is in the tree is found by climbing to the root.
#[derive(Drop)]
pub struct LiveTree<'d, V> {
    pub(crate) nodes: Vec<NodeRow<'d>>,
    pub(crate) properties: Vec<PropertyRow<'d, V>>,
    pub(crate) labels: Vec<LabelRow<'d>>,
    pub(crate) node_rows: Index<'d>,
    pub(crate) property_rows: Index<'d>,
    pub(crate) label_rows: Index<'d>,
    // the last stamp: so many bodies have begun
    pub(crate) stamps: usize,
}

impl<'d, V: Copy> LiveTree<'d, V> {
    /// A root without properties and children.
    pub fn new(alloc: Global, hasher: RandomState) -> Self
        ensures sound { IsLiveTree result }
        ensures state { state_of result ≡ empty }
        ensures rows { has_all_rows result ≡ true }
        ensures stamped { IsStamped result }
        ensures unbegun { IsUnbegun result }
    {
        LiveTree {
            nodes: Vec::new(alloc),
            properties: Vec::new(alloc),
            labels: Vec::new(alloc),
            node_rows: Index::new(alloc, hasher),
            property_rows: Index::new(alloc, hasher),
            label_rows: Index::new(alloc, hasher),
            stamps: 0,
        }
    }

    /// A definition stamp for a body that begins, which no body before it had; none where stamps ran out, which 2^64 bodies would take.
    pub fn new_stamp(&mut self) -> Option<usize>
        ensures stamp { IfSome result (λ stamp. stamp ≡ self.new.stamps) }
        ensures new { IsSome result → self.new.stamps ≡ self.old.stamps + 1 }
        ensures none { IsNone result → (self.new ≡ self.old) × (self.old.stamps ≡ 2 ^ 64 - 1) }
        ensures rest { self.new ≡ record self.old { stamps = self.new.stamps } }
    {
        let stamp = self.stamps.checked_add(1)?;
        self.stamps = stamp;
        Some(stamp)
    }

    /// Whether the node is in the tree: neither it nor one above it was removed.
    pub fn is_in_tree(&self, node: usize) -> bool
        requires sound { IsLiveTree self.now }
        requires known { IsNode self.now node }
        ensures { result ≡ is_standing self.now node }
    {
        let mut at = node;
        'up: while at != 0 {
            let row = self.nodes[at - 1];
            if row.removed {
                return false;
            }
            at = row.parent;
        }
        true
    }
}
