//! A tree's nodes as rows, in the order in which it is read, without the reserved ones, and its devices. Node 0 is the root.

use bus_plan::MAX_DEVICES;
use dt_tree::written_paths::{Link, Parents, path_of};
use dt_tree::{Node, Property, Tree, is_reserved_name};
use std::alloc::{AllocError, Global};

/// A node, and the one above it.
#[derive(Clone, Copy)]
struct NodeRow<'t> {
    parent: usize,
    node: &'t Node,
}

impl NodeRow<'_> {
    fn has_compatible(&self) -> bool {
        self.node.value(b"compatible".as_slice()).is_some()
    }
}

/// The rows of a tree.
#[derive(Drop)]
pub(crate) struct DeviceRows<'t> {
    rows: Vec<NodeRow<'t>>,
}

impl<'t> DeviceRows<'t> {
    /// The rows of a tree.
    pub fn of(alloc: Global, tree: &'t Tree) -> Result<Self, AllocError> {
        let mut rows = DeviceRows {
            rows: Vec::new(alloc),
        };
        rows.add_tree(tree.root())?;
        Ok(rows)
    }

    fn add_tree(&mut self, root: &'t Node) -> Result<(), AllocError> {
        let row = self.add(root, 0)?;
        for top in root.children() {
            if !is_reserved_name(top.name_bytes()) {
                self.add_below(top, row)?;
            }
        }
        Ok(())
    }

    // A node and all below it.
    fn add_below(&mut self, node: &'t Node, parent: usize) -> Result<(), AllocError> {
        let row = self.add(node, parent)?;
        for child in node.children() {
            self.add_below(child, row)?;
        }
        Ok(())
    }

    fn add(&mut self, node: &'t Node, parent: usize) -> Result<usize, AllocError> {
        let row = self.rows.len();
        self.rows.push(NodeRow { parent, node })?;
        Ok(row)
    }

    // Whether the node of a row is a device.
    fn is_device(&self, row: usize) -> bool {
        match self.rows.get(row) {
            Some(found) => row > 0 && found.has_compatible(),
            None => false,
        }
    }

    /// The row of the device at a place among the devices, from 0.
    pub fn device(&self, place: usize) -> Option<usize> {
        (0..self.rows.len())
            .filter(|row| self.is_device(*row))
            .nth(place)
    }

    /// How many devices there are.
    pub fn devices(&self) -> usize {
        (0..self.rows.len())
            .filter(|row| self.is_device(*row))
            .count()
    }

    /// The first row whose node has a phandle.
    pub fn with_phandle(&self, phandle: u32) -> Option<usize> {
        self.rows
            .iter()
            .position(|row| row.node.phandle() == Some(phandle))
    }

    /// The node of a row.
    pub fn node(&self, row: usize) -> Option<&'t Node> {
        let found = self.rows.get(row)?;
        Some(found.node)
    }

    /// The property of a row's node at a place among its properties, from 0.
    pub fn property(&self, row: usize, place: usize) -> Option<&'t Property> {
        self.node(row)?.properties().get(place)
    }
}

impl<'t> Parents<'t> for DeviceRows<'t> {
    fn link(&self, row: usize) -> Option<Link<'t>> {
        let found = self.rows.get(row)?;
        Some(Link {
            name: found.node.name_bytes(),
            parent: found.parent,
        })
    }
}

/// The paths of a tree's devices, in the order of the tree: as many as a plan may have.
pub(crate) fn device_paths(alloc: Global, tree: &Tree) -> Result<Vec<Vec<u8>>, AllocError> {
    let rows = DeviceRows::of(alloc, tree)?;
    let mut paths = Vec::new(alloc);
    for row in 0..rows.rows.len() {
        if rows.is_device(row) && paths.len() < MAX_DEVICES {
            paths.push(path_of(alloc, &rows, row)?)?;
        }
    }
    Ok(paths)
}
