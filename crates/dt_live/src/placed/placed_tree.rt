//! The tree while a source in dtc's language edits it.
ghost use Rattle.std.specs.Prelude.{◌≡◌, List, [], false};
ghost use Rattle.dt_source.specs.TreeMeaning.Syntax.{Piece};
ghost use Rattle.dt_source.specs.TreeMeaning.DtcEdits.{nothing};
ghost use Rattle.dt_live.specs.Placed.PlacedTrees.{IsPlacedTree, dtc_tree};
ghost use Rattle.dt_live.specs.Placed.Tables.{rows_in};

use crate::Index;
use crate::placed::table::Table;
use std::alloc::Global;
use std::hash::RandomState;

/// The rows of nodes, properties and labels, each at the place where its name was met first. What is removed is marked, and nothing
/// below it is visited: whether it stands is found by climbing to the root.
#[derive(Drop)]
pub struct PlacedTree<'d, V> {
    // node n has row n - 1; node 0 is the root; a value is where the definition stands that made the node last
    pub(crate) nodes: Table<'d, u32>,
    pub(crate) properties: Table<'d, V>,
    // a value is where the text gives the label to the node
    pub(crate) labels: Table<'d, u32>,
    // the last row of each label, at the node 0
    pub(crate) heads: Index<'d>,
    // of each row of a label the one before it
    pub(crate) older: Vec<Option<usize>>,
    // the nodes before which `/omit-if-no-ref/` counts
    pub(crate) marks: Vec<usize>,
    // a node gets a tick of its own each time that it is made
    pub(crate) clock: usize,
    pub(crate) fragments: usize,
    // whether the root is there
    pub(crate) begun: bool,
}

impl<'d, V: Copy> PlacedTree<'d, V> {
    /// Before the first item not even the root is there.
    pub fn new(alloc: Global, hasher: RandomState) -> Self
        ensures sound { IsPlacedTree result }
        ensures rows { rows_in result.nodes ≡ [] }
        ensures begun { result.begun ≡ false }
        ensures tree { (read : V → List Piece) → dtc_tree read result ≡ nothing }
    {
        PlacedTree {
            nodes: Table::new(alloc, hasher),
            properties: Table::new(alloc, hasher),
            labels: Table::new(alloc, hasher),
            heads: Index::new(alloc, hasher),
            older: Vec::new(alloc),
            marks: Vec::new(alloc),
            clock: 1,
            fragments: 0,
            begun: false,
        }
    }
}
