//! One node merged into another, or into the node at a path. Both are only read: what is made is new.
ghost use Rattle.std.specs.Prelude.{◌≡◌, ◌<◌, ◌≤◌, ◌++◌, [], List, ℕ, IfOk, OnOk, None, length, option_copied, set, true, unwrap_or};
ghost use Rattle.dt_tree.specs.Answers.{IsRefusedBy};
ghost use Rattle.dt_tree.specs.NodeData.{child_names, height_of, property_names, siblings};
ghost use Rattle.dt_tree.specs.PathMap.{child_named, value_of};
ghost use Rattle.dt_tree.specs.Sound.{IsSound, are_distinct};
ghost use Rattle.dt_tree.specs.Private.Answered.{merged_over};
ghost use Rattle.dt_tree.specs.Private.Edits.{change_at, names_in};
ghost use Rattle.dt_tree.specs.Private.Merging.{merge_refusal, merged, merged_properties, named, new_nodes, new_properties};

use crate::bytes::Bytes;
use crate::error::TreeError;
use crate::limits::MAX_DEPTH;
use crate::name::copy_name;
use crate::node::changing::{place_of_child, split_first_name};
use crate::node::{Node, push_copy, push_property};
use crate::property::Property;
use std::alloc::{AllocError, Global};
use std::collections::BTreeMap;

fn values_by_name<'a>(
    alloc: Global,
    properties: &'a [Property],
) -> Result<BTreeMap<&'a [u8], &'a Bytes>, AllocError>
    requires { are_distinct (property_names properties.now) ≡ true }
    ensures { IfOk result (λ values. (k : List ℕ) → option_copied (named values k) ≡ value_of properties.now k) }
{
    let mut values = BTreeMap::new(alloc);
    for property in properties {
        values.insert(property.name.as_bytes(), &property.value)?;
    }
    Ok(values)
}

fn children_by_name<'a>(
    alloc: Global,
    children: &'a [Node],
) -> Result<BTreeMap<&'a [u8], &'a Node>, AllocError>
    requires { are_distinct (child_names (siblings children.now)) ≡ true }
    ensures { IfOk result (λ nodes. (k : List ℕ) → option_copied (named nodes k) ≡ child_named (siblings children.now) k) }
{
    let mut nodes = BTreeMap::new(alloc);
    for child in children {
        nodes.insert(child.name_bytes(), child)?;
    }
    Ok(nodes)
}

/// Puts copies of those of their properties last whose names are not among ours.
fn push_new_properties(
    alloc: Global,
    merged: &mut Vec<Property>,
    ours: &[Property],
    theirs: &[Property],
) -> Result<(), AllocError>
    requires { are_distinct (property_names ours.now) ≡ true }
    ensures { OnOk result (merged.new.items ≡ merged.old.items ++ new_properties (property_names ours.now) theirs.now) }
{
    let ours = values_by_name(alloc, ours)?;
    for property in theirs {
        if !ours.contains_key(property.name.as_bytes()) {
            push_property(alloc, merged, &property.name, &property.value)?;
        }
    }
    Ok(())
}

/// Their value for the property where they have one, or its own.
fn merged_value<'a>(property: &'a Property, theirs: &BTreeMap<&'a [u8], &'a Bytes>) -> &'a Bytes
    ensures { result.now ≡ unwrap_or (option_copied (named theirs.now property.now.name)) property.now.value }
{
    match theirs.get(property.name.as_bytes()) {
        Some(value) => value,
        None => &property.value,
    }
}

/// Our properties, with their values where they have one, and then those that only they have.
fn merge_properties(
    alloc: Global,
    ours: &[Property],
    theirs: &[Property],
) -> Result<Vec<Property>, AllocError>
    requires ours { are_distinct (property_names ours.now) ≡ true }
    requires theirs { are_distinct (property_names theirs.now) ≡ true }
    ensures { IfOk result (λ properties. properties.items ≡ merged_properties ours.now theirs.now) }
{
    let values = values_by_name(alloc, theirs)?;
    let mut merged = Vec::new(alloc);
    for property in ours {
        push_property(
            alloc,
            &mut merged,
            &property.name,
            merged_value(property, &values),
        )?;
    }
    push_new_properties(alloc, &mut merged, ours, theirs)?;
    Ok(merged)
}

/// Puts copies of those of their nodes last whose names are not among ours.
fn push_new_nodes(
    alloc: Global,
    merged: &mut Vec<Node>,
    ours: &[Node],
    theirs: &[Node],
) -> Result<(), AllocError>
    requires { are_distinct (child_names (siblings ours.now)) ≡ true }
    ensures { OnOk result (merged.new.items ≡ merged.old.items ++ new_nodes (child_names (siblings ours.now)) theirs.now) }
{
    let ours = children_by_name(alloc, ours)?;
    for node in theirs {
        if !ours.contains_key(node.name_bytes()) {
            push_copy(alloc, merged, node)?;
        }
    }
    Ok(())
}

/// Puts copies of the nodes last.
fn push_copies(alloc: Global, copies: &mut Vec<Node>, nodes: &[Node]) -> Result<(), AllocError>
    ensures { OnOk result (copies.new.items ≡ copies.old.items ++ nodes.now) }
{
    for node in nodes {
        push_copy(alloc, copies, node)?;
    }
    Ok(())
}

/// Copies of the nodes, with this one in the place of one of them.
fn copies_with(
    alloc: Global,
    nodes: &[Node],
    at: usize,
    node: Node,
) -> Result<Vec<Node>, AllocError>
    requires { at < length nodes.now }
    ensures { IfOk result (λ copies. copies.items ≡ set nodes.now at node) }
{
    let mut copies = Vec::new(alloc);
    push_copies(alloc, &mut copies, &nodes[..at])?;
    copies.push(node)?;
    push_copies(alloc, &mut copies, &nodes[at + 1..])?;
    Ok(copies)
}

impl Node {
    /// This node with the other's properties and children merged into it.
    fn merged(&self, alloc: Global, other: &Node) -> Result<Node, AllocError>
        ensures { IfOk result (λ node. node ≡ merged self.now other.now) }
    {
        self.check();
        other.check();
        let theirs = children_by_name(alloc, other.children.as_slice())?;
        let mut children = Vec::new(alloc);
        for child in &self.children {
            let made = match theirs.get(child.name_bytes()) {
                Some(other) => child.merged(alloc, other),
                None => child.copy(alloc),
            };
            children.push(made?)?;
        }
        push_new_nodes(
            alloc,
            &mut children,
            self.children.as_slice(),
            other.children.as_slice(),
        )?;
        self.merged_with(alloc, other, children)
    }

    /// A node of the name, of the properties with the other's merged into them, and of these children.
    fn merged_with(
        &self,
        alloc: Global,
        other: &Node,
        children: Vec<Node>,
    ) -> Result<Node, AllocError>
        requires { IsSound (merged_over self.now other.now (siblings children.items)) }
        ensures { IfOk result (λ node. node ≡ merged_over self.now other.now (siblings children.items)) }
    {
        self.check();
        other.check();
        let name = copy_name(alloc, self.name.as_ref())?;
        let properties = merge_properties(
            alloc,
            self.properties.as_slice(),
            other.properties.as_slice(),
        )?;
        Ok(Node {
            name,
            properties,
            children,
        })
    }

    /// This node with the other merged into it, where there may be so many levels below it.
    fn merged_here(&self, alloc: Global, room: usize, other: &Node) -> Result<Node, TreeError>
        requires low { height_of self.now.children ≤ room }
        ensures merged { IfOk result (λ node. node ≡ merged self.now other.now) }
        ensures low { IfOk result (λ node. height_of node.children ≤ room) }
        ensures fault { IsRefusedBy (merge_refusal [] room other.now self.now) result }
    {
        if other.height() > room {
            return Err(TreeError::TooDeep);
        }
        Ok(self.merged(alloc, other)?)
    }

    /// This node with the other merged into the node that these names lead to. There may be so many levels below this node.
    pub(crate) fn merged_below(
        &self,
        alloc: Global,
        room: usize,
        names: Option<&[u8]>,
        other: &Node,
    ) -> Result<Node, TreeError>
        requires low { height_of self.now.children ≤ room }
        requires bound { room ≤ MAX_DEPTH }
        ensures merged { IfOk result (λ node. node ≡ change_at (names_in names.entry) (λ n. merged n other.now) self.now) }
        ensures low { IfOk result (λ node. height_of node.children ≤ room) }
        ensures fault { IsRefusedBy (merge_refusal (names_in names.entry) room other.now self.now) result }
    {
        self.check();
        match names {
            None => self.merged_here(alloc, room, other),
            Some(names) => {
                let (first, rest) = split_first_name(names);
                let children = self.children();
                match place_of_child(children, first) {
                    None => Err(TreeError::NoSuchPath),
                    Some(at) => {
                        let child = children[at].merged_below(alloc, room - 1, rest, other)?;
                        child.check();
                        let children = copies_with(alloc, children, at, child)?;
                        Ok(self.with_children(alloc, children)?)
                    }
                }
            }
        }
    }
}
