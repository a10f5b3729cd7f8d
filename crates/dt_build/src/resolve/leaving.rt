//! What is left of a tree from which nodes go.
ghost use Rattle.std.specs.Prelude.{◌≡◌, ◌++◌, All, IfOk, OnOk, map};
ghost use Rattle.std.specs.List.{filter};
ghost use Rattle.dt_live.specs.Rows.{IsLiveTree, IsNode, is_standing, node_path};
ghost use Rattle.dt_build.specs.Resolve.Private.Gone.{IsThereIn, Leaves, part_targets, standing_properties, standing_targets};

use crate::resolve::parts::{target_at, target_count, targets_behind};
use dt_live::{LiveTree, NodeProperty};
use dt_source::{Part, Value};
use std::alloc::{AllocError, Global};

/// Removes nodes, each with all below it.
pub(crate) fn remove_nodes<'d, 't>(live: &mut LiveTree<'d, &'d Value<'t>>, gone: &[usize])
    requires sound { IsLiveTree live.old }
    requires gone { All (IsThereIn live.old) gone.now }
    ensures sound { IsLiveTree live.new }
    ensures left { Leaves (map (node_path live.old) gone.now) live.old live.new }
{
    for node in gone {
        if live.is_in_tree(*node) {
            live.remove_node(*node);
        }
    }
}

/// The nodes of a list that are left.
pub(crate) fn left_nodes<'d, 't>(
    alloc: Global,
    live: &LiveTree<'d, &'d Value<'t>>,
    nodes: &[usize],
) -> Result<Vec<usize>, AllocError>
    requires sound { IsLiveTree live.now }
    requires known { All (λ n. IsNode live.now n) nodes.now }
    ensures { IfOk result (λ left. left.items ≡ filter (is_standing live.now) nodes.now) }
{
    let mut left = Vec::with_capacity(alloc, nodes.len())?;
    for node in nodes {
        if live.is_in_tree(*node) {
            left.push(*node)?;
        }
    }
    Ok(left)
}

/// The properties that are left, and the targets of their values.
#[derive(Drop)]
pub(crate) struct LeftProperties<'d, 't> {
    pub(crate) properties: Vec<NodeProperty<'d, &'d Value<'t>>>,
    pub(crate) targets: Vec<Option<usize>>,
}

// Puts the targets of a value behind others.
fn push_targets(
    left: &mut Vec<Option<usize>>,
    value: &[Part<'_>],
    targets: &[Option<usize>],
) -> Result<(), AllocError>
    ensures { OnOk result (left.new.items ≡ left.old.items ++ part_targets value.now targets.now) }
{
    let mut used = 0;
    for part in value {
        let count = target_count(part);
        if count == 1 {
            left.push(target_at(targets, used))?;
        }
        used += count;
    }
    Ok(())
}

/// The properties of a list whose nodes are left, and their targets.
pub(crate) fn left_properties<'d, 't>(
    alloc: Global,
    live: &LiveTree<'d, &'d Value<'t>>,
    properties: &[NodeProperty<'d, &'d Value<'t>>],
    targets: &[Option<usize>],
) -> Result<LeftProperties<'d, 't>, AllocError>
    requires sound { IsLiveTree live.now }
    requires known { All (λ x. IsNode live.now x.node) properties.now }
    ensures properties { IfOk result (λ left. left.properties.items ≡ standing_properties live.now properties.now) }
    ensures targets { IfOk result (λ left. left.targets.items ≡ standing_targets live.now properties.now targets.now) }
{
    let mut left = LeftProperties {
        properties: Vec::with_capacity(alloc, properties.len())?,
        targets: Vec::with_capacity(alloc, targets.len())?,
    };
    let mut behind = targets;
    for property in properties {
        let parts = property.value.parts.as_slice();
        if live.is_in_tree(property.node) {
            left.properties.push(*property)?;
            push_targets(&mut left.targets, parts, behind)?;
        }
        behind = targets_behind(parts, behind);
    }
    Ok(left)
}
