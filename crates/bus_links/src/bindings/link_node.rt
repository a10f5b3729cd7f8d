ghost use Rattle.std.specs.Prelude.{◌≡◌};

use dt_tree::Node;
use std::marker::Model;

/// A node of a tree among its nodes in preorder, with its name: the place of the node above it, whether it and each node above it is okay, and
/// the nearest device at or above it.
#[derive(Drop)]
pub struct LinkNode<'t> {
    node: &'t Node,
    above: usize,
    usable: bool,
    device: Option<usize>,
}

impl<'t> Model for LinkNode<'t> {
    ghost use Rattle.bus_links.specs.Bindings.LinkNodes.{LinkNode as Data};

    ghost Value = { Data };

    ghost view = { λ n. record { name = n.node.now.name; properties = n.node.now.properties; above = n.above; usable = n.usable; device = n.device } };
}

impl<'t> LinkNode<'t> {
    /// The node of these parts.
    pub fn new(node: &'t Node, above: usize, usable: bool, device: Option<usize>) -> Self
        ensures { result ≡ record {
          name = node.now.name;
          properties = node.now.properties;
          above = above;
          usable = usable;
          device = device;
        } }
    {
        Self {
            node,
            above,
            usable,
            device,
        }
    }

    /// The node itself.
    pub fn node(&self) -> &'t Node
        ensures name { result.now.name ≡ self.now.name }
        ensures properties { result.now.properties ≡ self.now.properties }
    {
        self.node
    }

    /// The place of the node above; the root's own for the root.
    pub fn above(&self) -> usize
        ensures { result ≡ self.now.above }
    {
        self.above
    }

    /// Whether it and each node above it is okay.
    pub fn usable(&self) -> bool
        ensures { result ≡ self.now.usable }
    {
        self.usable
    }

    /// The nearest device at or above it, by its place among the devices.
    pub fn device(&self) -> Option<usize>
        ensures { result ≡ self.now.device }
    {
        self.device
    }
}
