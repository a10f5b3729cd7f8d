//! Reference sets, learned of boards that are known to be right.
use crate::table::list_of;
use dt_blob::{BlobError, read};
use dt_check::Survey;
use dt_tree::{Node, Tree};
use std::alloc::{AllocError, Global};
use std::collections::BTreeSet;
use std::hash::RandomState;

/// What nodes have, as the lines of a reference set: a `compatible` and a property in each, with a tab between.
#[derive(Drop)]
pub struct Learned {
    lines: BTreeSet<Vec<u8>>,
}

impl Learned {
    /// Of no boards.
    pub fn new(alloc: Global) -> Self {
        Self {
            lines: BTreeSet::new(alloc),
        }
    }

    // A node without a `compatible` of text teaches nothing.
    fn add_node(&mut self, alloc: Global, node: &Node) -> Result<(), AllocError> {
        let Some(list) = list_of(alloc, node)? else {
            return Ok(());
        };
        for property in node.properties() {
            let mut line = Vec::from_slice(alloc, list.as_slice())?;
            line.push(b'\t')?;
            line.extend_from_slice(property.name.as_bytes())?;
            line.push(b'\n')?;
            self.lines.insert(line)?;
        }
        Ok(())
    }

    fn add_tree(
        &mut self,
        alloc: Global,
        hasher: RandomState,
        tree: &Tree,
    ) -> Result<(), AllocError> {
        let survey = Survey::of(alloc, hasher, tree)?;
        for placed in survey.as_slice() {
            self.add_node(alloc, placed.node())?;
        }
        Ok(())
    }

    /// Learns of the tree that a blob holds.
    pub fn add_blob(
        &mut self,
        alloc: Global,
        hasher: RandomState,
        blob: &[u8],
    ) -> Result<(), BlobError> {
        let tree = read(alloc, blob)?;
        Ok(self.add_tree(alloc, hasher, &tree)?)
    }

    /// The lines, in order.
    pub fn text(&self, alloc: Global) -> Result<Vec<u8>, AllocError> {
        let mut text = Vec::new(alloc);
        for line in self.lines.iter() {
            text.extend_from_slice(line.as_slice())?;
        }
        Ok(text)
    }
}
