//! What paths ask of a table of nodes. Node 0 is the root, whose name is empty.

/// A node's name, and the node above it, or itself where none is.
#[derive(Clone, Copy)]
pub struct Link<'t> {
    pub name: &'t [u8],
    pub parent: usize,
}

/// Nodes that are found by their names.
pub trait Children<'t> {
    /// The child of this name.
    fn child(&self, node: usize, name: &'t [u8]) -> Option<usize>;
}

/// Nodes that know the one above them.
pub trait Parents<'t> {
    /// What leads up from a node, if there is such a node.
    fn link(&self, node: usize) -> Option<Link<'t>>;
}
