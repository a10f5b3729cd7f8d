ghost use Rattle.std.specs.Prelude.{◌≡◌};

use dt_tree::{Node, Path};
use std::marker::Model;

/// A device as it stands in its tree.
#[derive(Drop)]
pub struct TreeDevice<'t> {
    path: Path,
    available: bool,
    node: &'t Node,
}

impl<'t> Model for TreeDevice<'t> {
    ghost use Rattle.bus_drivers.specs.Nodes.{TreeDevice};

    ghost Value = { TreeDevice };

    ghost view = { λ d. record { path = d.path; available = d.available; properties = d.node.now.properties } };
}

impl<'t> TreeDevice<'t> {
    /// The device of these parts.
    pub fn new(path: Path, available: bool, node: &'t Node) -> Self
        ensures { result ≡ record { path = path; available = available; properties = node.now.properties } }
    {
        Self {
            path,
            available,
            node,
        }
    }

    /// Its path.
    pub fn path(&self) -> &Path
        ensures { result.now ≡ self.now.path }
    {
        &self.path
    }

    /// Whether it and each node above it is okay.
    pub fn available(&self) -> bool
        ensures { result ≡ self.now.available }
    {
        self.available
    }

    /// Its node.
    pub fn node(&self) -> &'t Node
        ensures { result.now.properties ≡ self.now.properties }
    {
        self.node
    }
}
