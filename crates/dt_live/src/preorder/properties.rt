//! The properties of a tree, node by node.
ghost use Rattle.std.specs.Prelude.{◌≡◌, ◌<◌, ◌++◌, ℕ, All, IfOk, OnOk, length};
ghost use Rattle.std.specs.List.{flat_map};
ghost use Rattle.dt_live.specs.Rows.{property_at};
ghost use Rattle.dt_live.specs.Private.Lists.{list_count};
ghost use Rattle.dt_live.specs.Private.Walks.{ArePropertyRows, held_at, held_by};

use crate::live_tree::PropertyRow;
use crate::preorder::lists::Lists;
use std::alloc::{AllocError, Global};

/// A property of a node.
#[derive(Clone, Copy)]
pub struct NodeProperty<'d, V> {
    pub node: usize,
    pub name: &'d [u8],
    pub value: V,
}

// The rows of each node's properties.
fn rows_by_node<'d, V: Copy>(
    alloc: Global,
    count: usize,
    rows: &[PropertyRow<'d, V>],
) -> Result<Lists, AllocError>
    requires { (i : ℕ) → i < length rows.now → (property_at rows.now i).node < count }
    ensures count { IfOk result (λ lists. list_count lists ≡ count) }
    ensures lists { IfOk result (λ lists. ArePropertyRows rows.now lists) }
{
    let mut lists = Lists::new(alloc, count)?;
    for (place, row) in rows.iter().enumerate() {
        lists.push(row.node, place)?;
    }
    Ok(lists)
}

fn put_node_properties<'d, V: Copy>(
    node_properties: &mut Vec<NodeProperty<'d, V>>,
    rows: &[PropertyRow<'d, V>],
    places: &[usize],
) -> Result<(), AllocError>
    requires { All (λ i. i < length rows.now) places.now }
    ensures { OnOk result (node_properties.new.items ≡ node_properties.old.items ++ held_at rows.now places.now) }
{
    for place in places {
        let row = &rows[*place];
        if let Some(value) = row.value {
            node_properties.push(NodeProperty {
                node: row.node,
                name: row.name,
                value,
            })?;
        }
    }
    Ok(())
}

/// The properties of nodes, in the nodes' order, without those that were removed.
pub(crate) fn properties_in_preorder<'d, V: Copy>(
    alloc: Global,
    count: usize,
    rows: &[PropertyRow<'d, V>],
    order: &[usize],
) -> Result<Vec<NodeProperty<'d, V>>, AllocError>
    requires known { (i : ℕ) → i < length rows.now → (property_at rows.now i).node < count }
    requires nodes { All (λ n. n < count) order.now }
    ensures { IfOk result (λ node_properties. node_properties.items ≡ flat_map (held_by rows.now) order.now) }
{
    let by_node = rows_by_node(alloc, count, rows)?;
    let mut node_properties = Vec::new(alloc);
    for node in order {
        put_node_properties(&mut node_properties, rows, by_node.of(*node))?;
    }
    Ok(node_properties)
}
