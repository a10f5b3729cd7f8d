//! Names of few siblings, compared with each other: up to so many that takes less than a set does.
ghost use Rattle.std.specs.Prelude.{◌≡◌};
ghost use Rattle.dt_tree.specs.NodeData.{siblings, child_names, property_names};
ghost use Rattle.dt_tree.specs.Sound.{are_distinct, is_among};

use crate::node::Node;
use crate::property::Property;
use crate::slices::behind;

/// So many siblings are few.
pub(crate) const FEW: usize = 16;

fn is_property_among(name: &[u8], properties: &[Property]) -> bool
    ensures { result ≡ is_among name.now (property_names properties.now) }
{
    for property in properties {
        if property.name.as_bytes() == name {
            return true;
        }
    }
    false
}

fn is_node_among(name: &[u8], nodes: &[Node]) -> bool
    ensures { result ≡ is_among name.now (child_names (siblings nodes.now)) }
{
    for node in nodes {
        if node.name_bytes() == name {
            return true;
        }
    }
    false
}

/// Takes no memory.
pub(crate) fn differ_in_properties(properties: &[Property]) -> bool
    ensures { result ≡ are_distinct (property_names properties.now) }
{
    for (at, property) in properties.iter().enumerate() {
        let others = behind(properties, at + 1);
        if is_property_among(property.name.as_bytes(), others) {
            return false;
        }
    }
    true
}

/// Takes no memory.
pub(crate) fn differ_in_nodes(nodes: &[Node]) -> bool
    ensures { result ≡ are_distinct (child_names (siblings nodes.now)) }
{
    for (at, node) in nodes.iter().enumerate() {
        let others = behind(nodes, at + 1);
        if is_node_among(node.name_bytes(), others) {
            return false;
        }
    }
    true
}
