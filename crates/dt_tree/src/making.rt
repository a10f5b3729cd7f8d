//! The checks that a new node has to pass.
ghost use Rattle.std.specs.Prelude.{◌≡◌, ◌+◌, ◌||◌, ◌==◌, ℕ, List, not, IfOk, OnOk, IsTrue, true, length, None, Some};
ghost use Rattle.dt_tree.specs.Answers.{IsRefusedAtFirst};
ghost use Rattle.dt_tree.specs.NodeData.{siblings, child_names, property_names, height_of};
ghost use Rattle.dt_tree.specs.Sound.{are_distinct, IsSoundBelow};
ghost use Rattle.std.specs.Str.{bytes_eq};
ghost use Rattle.dt_tree.specs.Private.Seen.{has_name};
ghost use Rattle.dt_tree.specs.Fault.{are_named, fault_of};
ghost use Rattle.dt_tree.specs.Name.{is_name, are_names};
ghost use Rattle.dt_tree.specs.NodeView.{name_bytes};

use crate::error::TreeError;
use crate::few::{FEW, differ_in_nodes, differ_in_properties};
use crate::limits::MAX_DEPTH;
use crate::name::Name;
use crate::node::Node;
use crate::property::Property;
use std::alloc::{AllocError, Global};
use std::collections::BTreeSet;

/// Adds the name to those that were met, and answers whether it is new.
fn note_name<'a>(seen: &mut BTreeSet<&'a [u8]>, name: &'a [u8]) -> Result<bool, AllocError>
    ensures new { IfOk result (λ new. new ≡ not (has_name seen.old name.now)) }
    ensures noted { OnOk result ((n : List ℕ) → has_name seen.new n ≡ (bytes_eq name.now n || has_name seen.old n)) }
{
    Ok(seen.insert(name)?)
}

/// The first fault of a node of these parts.
pub(crate) fn check_parts(
    alloc: Global,
    properties: &[Property],
    children: &[Node],
) -> Result<(), TreeError>
    ensures { IsRefusedAtFirst (fault_of properties.now children.now) result }
{
    if !are_named(children) {
        return Err(TreeError::BadName);
    }
    if !are_distinct_properties(alloc, properties)? {
        return Err(TreeError::DuplicateProperty);
    }
    if !are_distinct_nodes(alloc, children)? {
        return Err(TreeError::DuplicateNode);
    }
    if height_of_all(children) > MAX_DEPTH {
        return Err(TreeError::TooDeep);
    }
    Ok(())
}

fn are_distinct_properties(alloc: Global, properties: &[Property]) -> Result<bool, AllocError>
    ensures { IfOk result (λ distinct. distinct ≡ are_distinct (property_names properties.now)) }
{
    if properties.len() <= FEW {
        return Ok(differ_in_properties(properties));
    }
    let mut seen = BTreeSet::new(alloc);
    for property in properties {
        if !note_name(&mut seen, property.name.as_bytes())? {
            return Ok(false);
        }
    }
    Ok(true)
}

fn are_distinct_nodes(alloc: Global, nodes: &[Node]) -> Result<bool, AllocError>
    ensures { IfOk result (λ distinct. distinct ≡ are_distinct (child_names (siblings nodes.now))) }
{
    if nodes.len() <= FEW {
        return Ok(differ_in_nodes(nodes));
    }
    let mut seen = BTreeSet::new(alloc);
    for node in nodes {
        if !note_name(&mut seen, node.name_bytes())? {
            return Ok(false);
        }
    }
    Ok(true)
}

pub(crate) fn are_named(nodes: &[Node]) -> bool
    ensures value { result ≡ are_named nodes.now }
    ensures names { IsTrue result → are_names (child_names (siblings nodes.now)) ≡ true }
{
    for node in nodes {
        if !node.is_named() {
            return false;
        }
    }
    true
}

fn height_of_all(nodes: &[Node]) -> usize
    ensures { result ≡ height_of (siblings nodes.now) }
{
    let mut most = 0;
    for node in nodes {
        most = most.max(node.height() + 1);
    }
    most
}

pub(crate) fn check_properties(properties: &[Property])
    ensures { are_names (property_names properties.now) ≡ true }
{
    for property in properties {
        property.name.check();
    }
}

pub(crate) fn check_nodes(nodes: &[Node])
    ensures { IsSoundBelow (siblings nodes.now) }
{
    for node in nodes {
        node.check();
    }
}

pub(crate) fn check_name(name: &Option<Name>)
    ensures { IsTrue (length (name_bytes name.now) == 0 || is_name (name_bytes name.now)) }
{
    match name {
        None => {}
        Some(name) => name.check(),
    }
}
