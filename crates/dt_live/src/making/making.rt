//! The nodes of a live tree, each made once.
ghost use Rattle.std.specs.Prelude.{◌≡◌, ◌+◌, ◌<◌, All, IfOk, None, OnOk, codes, length, true};
ghost use Rattle.std.specs.Int.{to_be_bytes, w32};
ghost use Rattle.dt_tree.specs.Name.{is_name};
ghost use Rattle.dt_live.specs.Builder.Builders.{built_lists};
ghost use Rattle.dt_live.specs.Builder.Standing.{walked};
ghost use Rattle.dt_live.specs.Making.Made.{IsInPreorder, IsRest};
ghost use Rattle.dt_live.specs.Making.Private.Walks.{AreMade, AreOfNode, IsWalk};

use crate::builder::TreeBuilder;
use crate::making::values::Values;
use crate::{LiveTree, NodeProperty, Preorder};
use dt_tree::{Bytes, Property, lawful_name};
use std::alloc::{AllocError, Global};

// ---- the properties of one node
// The properties of a run, and room for so many more.
fn run_properties<'d, V: Copy, M: Values<V>>(
    alloc: Global,
    values: &mut M,
    run: &[NodeProperty<'d, V>],
    room: usize,
) -> Result<Vec<Property>, AllocError>
    requires ready { M.is_ready values.old }
    requires named { All (λ x. is_name x.name.now ≡ true) run.now }
    ensures ready { OnOk result (M.is_ready values.new) }
    ensures made { OnOk result (M.made values.new ≡ M.made values.old) }
    ensures properties { IfOk result (AreOfNode (M.bytes_of values.old) (M.bytes_of values.new) run.now None) }
{
    let mut properties = Vec::with_capacity(alloc, run.len().saturating_add(room))?;
    for node_property in run {
        let name = lawful_name(alloc, node_property.name)?;
        let value = values.next(alloc, node_property.value)?;
        properties.push(Property { name, value })?;
    }
    Ok(properties)
}

fn phandle_property(alloc: Global, phandle: u32) -> Result<Property, AllocError>
    ensures name { IfOk result (λ property. property.name ≡ codes "phandle") }
    ensures value { IfOk result (λ property. property.value ≡ to_be_bytes w32 phandle) }
{
    Ok(Property {
        name: lawful_name(alloc, b"phandle".as_slice())?,
        value: Bytes::from_vec(Vec::from_slice(alloc, &phandle.to_be_bytes())?),
    })
}

// The properties of a node: those of its run, and a new phandle last.
fn node_properties<'d, V: Copy, M: Values<V>>(
    alloc: Global,
    values: &mut M,
    node: usize,
    run: &[NodeProperty<'d, V>],
) -> Result<Vec<Property>, AllocError>
    requires ready { M.is_ready values.old }
    requires named { All (λ x. is_name x.name.now ≡ true) run.now }
    ensures ready { OnOk result (M.is_ready values.new) }
    ensures made { OnOk result (M.made values.new ≡ M.made values.old) }
    ensures properties { IfOk result (AreMade M.made M.bytes_of values.old values.new node run.now) }
{
    match values.new_phandle(node) {
        None => run_properties(alloc, values, run, 0),
        Some(phandle) => {
            let mut properties = run_properties(alloc, values, run, 1)?;
            properties.push(phandle_property(alloc, phandle)?)?;
            Ok(properties)
        }
    }
}

// ---- nodes
/// A tree in the making: so many of its nodes were made, and so many of its properties used.
#[derive(Drop)]
struct Walk {
    builder: TreeBuilder,
    node: usize,
    property: usize,
}

// One node more, behind all before it.
fn with_node<'d, V: Copy, M: Values<V>>(
    alloc: Global,
    live: &LiveTree<'d, V>,
    in_preorder: &Preorder<'d, V>,
    values: &mut M,
    walk: Walk,
) -> Result<Walk, AllocError>
    requires ready { M.is_ready values.old }
    requires order { IsInPreorder live.now in_preorder.now (M.made values.old) }
    requires walk { IsWalk live.now in_preorder.now (M.made values.old) (M.bytes_of values.old) walk }
    requires more { walk.node < length in_preorder.now.nodes.items }
    ensures ready { OnOk result (M.is_ready values.new) }
    ensures made { OnOk result (M.made values.new ≡ M.made values.old) }
    ensures walk { IfOk result (IsWalk live.now in_preorder.now (M.made values.old) (M.bytes_of values.new)) }
    ensures node { IfOk result (λ next. next.node ≡ walk.node + 1) }
{
    let node = in_preorder.nodes[walk.node];
    let row = live.nodes()[node - 1];
    let name = lawful_name(alloc, row.name)?;
    let depth = live.depth(node);
    let run = in_preorder.run_of(node, walk.property);
    let properties = node_properties(alloc, values, node, run)?;
    Ok(Walk {
        builder: walk.builder.push(alloc, depth, name, properties)?,
        node: walk.node + 1,
        property: walk.property + run.len(),
    })
}

/// The tree of a live tree in preorder, whose values are made one after the other.
pub fn make_nodes<'d, V: Copy, M: Values<V>>(
    alloc: Global,
    live: &LiveTree<'d, V>,
    in_preorder: &Preorder<'d, V>,
    values: &mut M,
) -> Result<TreeBuilder, AllocError>
    requires ready { M.is_ready values.old }
    requires order { IsInPreorder live.now in_preorder.now (M.made values.old) }
    requires rest { IsRest live.now in_preorder.now (M.made values.old) (M.bytes_of values.old) 0 0 }
    ensures { IfOk result (λ builder. built_lists builder ≡ walked (M.made values.old).lists) }
{
    let run = in_preorder.run_of(0, 0);
    let properties = node_properties(alloc, values, 0, run)?;
    let mut walk = Walk {
        builder: TreeBuilder::new(alloc, properties),
        node: 1,
        property: run.len(),
    };
    while walk.node < in_preorder.nodes.len() {
        walk = with_node(alloc, live, in_preorder, values, walk)?;
    }
    Ok(walk.builder)
}
