//! What a node has, by name.
ghost use Rattle.std.specs.Prelude.{◌≡◌, List, ℕ, IfOk, option_copied, true};
ghost use Rattle.dt_tree.specs.NodeData.{child_names, property_names, siblings};
ghost use Rattle.dt_tree.specs.PathMap.{child_named, value_of};
ghost use Rattle.dt_tree.specs.Sound.{are_distinct};
ghost use Rattle.dt_tree.specs.Private.Merging.{named};

use dt_tree::{Bytes, Node, Property};
use std::alloc::{AllocError, Global};
use std::collections::BTreeMap;

/// The values of properties.
pub(crate) fn values_by_name<'a>(
    alloc: Global,
    properties: &'a [Property],
) -> Result<BTreeMap<&'a [u8], &'a Bytes>, AllocError>
    requires { are_distinct (property_names properties.now) ≡ true }
    ensures { IfOk result (λ values. (k : List ℕ) → option_copied (named values k) ≡ value_of properties.now k) }
{
    let mut values = BTreeMap::new(alloc);
    for property in properties {
        values.insert(property.name.as_bytes(), &property.value)?;
    }
    Ok(values)
}

/// Nodes side by side.
pub(crate) fn nodes_by_name<'a>(
    alloc: Global,
    nodes: &'a [Node],
) -> Result<BTreeMap<&'a [u8], &'a Node>, AllocError>
    requires { are_distinct (child_names (siblings nodes.now)) ≡ true }
    ensures { IfOk result (λ found. (k : List ℕ) → option_copied (named found k) ≡ child_named (siblings nodes.now) k) }
{
    let mut found = BTreeMap::new(alloc);
    for node in nodes {
        found.insert(node.name_bytes(), node)?;
    }
    Ok(found)
}
