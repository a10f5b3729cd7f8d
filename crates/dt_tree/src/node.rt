ghost use Rattle.std.specs.Prelude.{◌≡◌, ◌<◌, ◌≤◌, ◌∷◌, ◌++◌, [], All, IsTrue, IfOk, OnOk, true, None, Some};
ghost use Rattle.std.specs.Option.{option_copied};
ghost use Rattle.dt_tree.specs.Answers.{IsRefusedAtFirst};
ghost use Rattle.dt_tree.specs.Fault.{are_named, fault_of, is_named};
ghost use Rattle.dt_tree.specs.Name.{is_name};
ghost use Rattle.dt_tree.specs.NodeData.{node_data, siblings, height_of, node_size, child_names, property_names};
ghost use Rattle.dt_tree.specs.NodeView.{name_bytes};
ghost use Rattle.dt_tree.specs.PathMap.{value_of};
ghost use Rattle.dt_tree.specs.Sound.{IsSound, are_distinct};
ghost use Rattle.dt_tree.specs.Private.Merging.{property_of};

pub(crate) mod changing;
mod merging;

use crate::bytes::Bytes;
use crate::error::TreeError;
use crate::limits::MAX_DEPTH;
use crate::making::{are_named, check_name, check_nodes, check_parts, check_properties};
use crate::name::{Name, copy_name};
use crate::property::Property;
use std::alloc::{AllocError, Global};
use std::marker::Model;

/// A node with its properties and the nodes below it. Properties and children each differ in name.
#[derive(Debug, Drop)]
pub struct Node {
    name: Option<Name>,
    properties: Vec<Property>,
    children: Vec<Node>,
}

impl Model for Node {
    ghost use Rattle.dt_tree.specs.NodeData.{NodeData, node_size};
    ghost use Rattle.dt_tree.specs.NodeCode.{coded_node};

    ghost Value = { NodeData };

    ghost coded = { coded_node };

    ghost use Rattle.dt_tree.specs.NodeView.{node_of};
    ghost use Rattle.dt_tree.specs.Sound.{IsSound};

    ghost view = { node_of };

    ghost invariant = { λ a. IsSound (node_of a) };

    ghost size = { node_size };

    ghost use Rattle.std.proofs.Common.{arith};
    ghost use Rattle.dt_tree.specs.Falls.{most_le-siblings_size};

    ghost size_decreases = { λ a h. omega (arith, most_le-siblings_size a.children.items) };
}

impl Node {
    /// Fails with the first of `BadName` (a child has no name), `DuplicateProperty`, `DuplicateNode` and
    /// `TooDeep` (over 64 levels of nodes below this one), or with `NoMemory`.
    pub fn new(
        alloc: Global,
        name: Option<Name>,
        properties: Vec<Property>,
        children: Vec<Node>,
    ) -> Result<Node, TreeError>
        ensures node { IfOk result (λ node. node ≡ node_data (name_bytes name) properties.items (siblings children.items)) }
        ensures fault { IsRefusedAtFirst (fault_of properties.items children.items) result }
    {
        check_parts(alloc, properties.as_slice(), children.as_slice())?;
        Ok(Node::from_distinct(name, properties, children))
    }

    /// The node of these parts, without a test: children have names, properties and children each differ in name, and
    /// there are at most 64 levels below the node. The caller's proof knows it.
    pub fn from_distinct(name: Option<Name>, properties: Vec<Property>, children: Vec<Node>) -> Node
        requires named { are_named children.items ≡ true }
        requires properties { are_distinct (property_names properties.items) ≡ true }
        requires children { are_distinct (child_names (siblings children.items)) ≡ true }
        requires height { height_of (siblings children.items) ≤ MAX_DEPTH }
        ensures { result ≡ node_data (name_bytes name) properties.items (siblings children.items) }
    {
        let _ = are_named(children.as_slice());
        check_name(&name);
        check_properties(properties.as_slice());
        check_nodes(children.as_slice());
        Node {
            name,
            properties,
            children,
        }
    }

    /// What the node is made of. Takes no memory.
    pub fn into_parts(self) -> (Option<Name>, Vec<Property>, Vec<Node>)
        ensures { node_data (name_bytes result.0) result.1.items (siblings result.2.items) ≡ self }
    {
        (self.name, self.properties, self.children)
    }

    /// The bytes of the name, none for the root.
    pub fn name_bytes(&self) -> &[u8]
        ensures { result.now ≡ self.now.name }
    {
        match &self.name {
            None => &[],
            Some(name) => name.as_bytes(),
        }
    }

    /// The properties, in order.
    pub fn properties(&self) -> &[Property]
        ensures { result.now ≡ self.now.properties }
    {
        self.properties.as_slice()
    }

    /// The children, in order. Each has fewer nodes than this one, so that a recursion over them ends.
    pub fn children(&self) -> &[Node]
        ensures nodes { siblings result.now ≡ self.now.children }
        ensures smaller { All (λ child. node_size child < node_size self.now) result.now }
    {
        self.children.as_slice()
    }

    /// Costs nothing: tells a caller's proof that the node and all below it are sound.
    pub fn check(&self)
        ensures { IsSound self.now }
    {
        let _ = &self.children;
    }

    /// The value of the property of this name.
    pub fn value(&self, name: &[u8]) -> Option<&Bytes>
        ensures { option_copied result ≡ value_of self.now.properties name.now }
    {
        for property in &self.properties {
            if property.name.as_bytes() == name {
                return Some(&property.value);
            }
        }
        None
    }

    /// How many levels of nodes are below this one.
    pub fn height(&self) -> usize
        ensures value { result ≡ height_of self.now.children }
        ensures bound { result ≤ MAX_DEPTH }
    {
        let mut most = 0;
        for child in &self.children {
            most = most.max(child.height() + 1);
        }
        most
    }

    /// An equal node.
    pub fn copy(&self, alloc: Global) -> Result<Node, AllocError>
        ensures { IfOk result (λ node. node ≡ self.now) }
    {
        let mut children = Vec::new(alloc);
        for child in &self.children {
            children.push(child.copy(alloc)?)?;
        }
        self.with_children(alloc, children)
    }

    /// A node of copies of the name and the properties, and of these children.
    fn with_children(&self, alloc: Global, children: Vec<Node>) -> Result<Node, AllocError>
        requires { IsSound (node_data self.now.name self.now.properties (siblings children.items)) }
        ensures { IfOk result (λ node. node ≡ node_data self.now.name self.now.properties (siblings children.items)) }
    {
        let name = copy_name(alloc, self.name.as_ref())?;
        let properties = copy_properties(alloc, self.properties.as_slice())?;
        Ok(Node {
            name,
            properties,
            children,
        })
    }

    pub(crate) fn is_named(&self) -> bool
        ensures value { result ≡ is_named self.now }
        ensures name { IsTrue result → is_name self.now.name ≡ true }
    {
        match &self.name {
            None => false,
            Some(name) => {
                name.check();
                true
            }
        }
    }
}

fn copy_properties(alloc: Global, properties: &[Property]) -> Result<Vec<Property>, AllocError>
    ensures { IfOk result (λ copied. copied.items ≡ properties.now) }
{
    let mut copied = Vec::new(alloc);
    for property in properties {
        push_property(alloc, &mut copied, &property.name, &property.value)?;
    }
    Ok(copied)
}

/// Puts a property of copies of these last.
fn push_property(
    alloc: Global,
    properties: &mut Vec<Property>,
    name: &Name,
    value: &Bytes,
) -> Result<(), AllocError>
    ensures { OnOk result (properties.new.items ≡ properties.old.items ++ property_of name.now value.now ∷ []) }
{
    let name = name.copy(alloc)?;
    let value = value.copy(alloc)?;
    properties.push(Property { name, value })?;
    Ok(())
}

/// Puts a copy of the node last.
fn push_copy(alloc: Global, nodes: &mut Vec<Node>, node: &Node) -> Result<(), AllocError>
    ensures { OnOk result (nodes.new.items ≡ nodes.old.items ++ node.now ∷ []) }
{
    nodes.push(node.copy(alloc)?)?;
    Ok(())
}
