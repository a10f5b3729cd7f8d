//! Nodes that may get more children.
ghost use Rattle.std.specs.Prelude.{◌≡◌, ◌≤◌, IfOk, true};
ghost use Rattle.dt_tree.specs.declared.limits.TheConstants.{MAX_DEPTH};
ghost use Rattle.dt_tree.specs.NodeData.{node_data, child_names, property_names, siblings, height_of, none};
ghost use Rattle.dt_tree.specs.NodeView.{name_bytes};
ghost use Rattle.dt_tree.specs.Fault.{are_named};
ghost use Rattle.dt_tree.specs.Sound.{are_distinct};
ghost use Rattle.dt_live.specs.Builder.Private.NodeBuilders.{node_so_far, with_last_child};

use dt_tree::{Name, Node, Property};
use std::alloc::{AllocError, Global};

/// A node that may get more children.
#[derive(Drop)]
pub(crate) struct NodeBuilder {
    pub(crate) name: Option<Name>,
    pub(crate) properties: Vec<Property>,
    pub(crate) children: Vec<Node>,
}

impl NodeBuilder {
    /// A node without children.
    pub(crate) fn new(alloc: Global, name: Option<Name>, properties: Vec<Property>) -> NodeBuilder
        ensures { node_so_far result ≡ node_data (name_bytes name) properties.items none }
    {
        NodeBuilder {
            name,
            properties,
            children: Vec::new(alloc),
        }
    }

    /// The node, which gets no more children.
    pub(crate) fn closed(self) -> Node
        requires named { are_named self.children.items ≡ true }
        requires properties { are_distinct (property_names self.properties.items) ≡ true }
        requires children { are_distinct (child_names (siblings self.children.items)) ≡ true }
        requires height { height_of (siblings self.children.items) ≤ MAX_DEPTH }
        ensures { result ≡ node_so_far self }
    {
        let mut children = self.children;
        // a kept list has no spare room
        children.shrink_to_fit();
        Node::from_distinct(self.name, self.properties, children)
    }

    /// The same node with one more child.
    pub(crate) fn with_child(self, child: Node) -> Result<NodeBuilder, AllocError>
        ensures { IfOk result (λ node. node_so_far node ≡ with_last_child self child) }
    {
        let mut children = self.children;
        children.push(child)?;
        Ok(NodeBuilder {
            name: self.name,
            properties: self.properties,
            children,
        })
    }
}
