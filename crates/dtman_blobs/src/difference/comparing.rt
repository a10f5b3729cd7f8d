//! Two trees compared, node by node.
ghost use Rattle.std.specs.Prelude.{◌≡◌, ◌↔◌, ◌++◌, List, ℕ, false, option_copied, IfOk, IsTrue, OnOk};
ghost use Rattle.dt_tree.specs.PathMap.{value_of};
ghost use Rattle.dt_tree.specs.Private.Merging.{named};
ghost use Rattle.dtman_blobs.specs.Difference.Named.{named_by};
ghost use Rattle.dtman_blobs.specs.Difference.SameBoard.{IsSameBoard, is_own_phandle};
ghost use Rattle.dtman_blobs.specs.Difference.Comparison.{is_same};
ghost use Rattle.dtman_blobs.specs.Difference.Private.Sights.{differences_between, named_in, nodes_of_one, own_between, properties_of_one, tree_differences, twice_copied};
ghost use Rattle.dtman_blobs.specs.Difference.Private.Differences.{node_differences};
ghost use Rattle.dtman_blobs.specs.Difference.Private.Tests.{is_same_value, is_alone};

use crate::difference::by_name::{nodes_by_name, values_by_name};
use crate::difference::difference::{Difference, Side, Thing, tell};
use crate::difference::naming::{Naming, path_below};
use crate::difference::parts::{Seen, are_same};
use dt_tree::{Bytes, Node, Property, Tree};
use std::alloc::{AllocError, Global};
use std::collections::BTreeMap;
use std::hash::RandomState;

/// A node, and what the phandles of its tree name.
#[derive(Drop)]
struct Sight<'a, 't> {
    node: &'t Node,
    naming: &'a Naming<'t>,
}

/// Whether a property of this name gives its node's phandle, and so doesn't count.
pub fn is_own_phandle(name: &[u8]) -> bool
    ensures { result ≡ is_own_phandle name.now }
{
    name == b"phandle".as_slice() || name == b"linux,phandle".as_slice()
}

fn is_same_value(
    naming: &Naming<'_>,
    other_naming: &Naming<'_>,
    property: &Property,
    other: Option<&&Bytes>,
) -> bool
    ensures { result ≡ is_same_value (named_by naming.now)
        (named_by other_naming.now) property.now (twice_copied other.entry) }
{
    let Some(other) = other else {
        return false;
    };
    let name = property.name.as_bytes();
    are_same(
        Seen::of(naming, name, property.value.as_slice()),
        Seen::of(other_naming, name, other.as_slice()),
    )
}

// Whether a property counts, and the other node hasn't the same.
fn is_alone(
    ours: &Sight<'_, '_>,
    theirs: &Sight<'_, '_>,
    their_values: &BTreeMap<&[u8], &Bytes>,
    property: &Property,
) -> bool
    requires { (k : List ℕ) → option_copied (named their_values.now k) ≡ value_of theirs.now.node.now.properties k }
    ensures { result ≡ is_alone (named_in ours.now) (named_in theirs.now) theirs.now.node.now.properties property.now }
{
    let name = property.name.as_bytes();
    if is_own_phandle(name) {
        return false;
    }
    !is_same_value(ours.naming, theirs.naming, property, their_values.get(name))
}

fn add_properties<'t>(
    alloc: Global,
    differences: &mut Vec<Difference<'t>>,
    side: Side,
    path: &[u8],
    ours: &Sight<'_, 't>,
    theirs: &Sight<'_, 't>,
) -> Result<(), AllocError>
    ensures { OnOk result (differences.new.items ≡ differences.old.items
        ++ properties_of_one side path.now ours.now theirs.now) }
{
    theirs.node.check();
    let values = values_by_name(alloc, theirs.node.properties())?;
    for property in ours.node.properties() {
        if is_alone(ours, theirs, &values, property) {
            tell(alloc, differences, side, path, Thing::Property(property))?;
        }
    }
    Ok(())
}

fn add_nodes<'t>(
    alloc: Global,
    differences: &mut Vec<Difference<'t>>,
    side: Side,
    path: &[u8],
    ours: &'t Node,
    theirs: &'t Node,
) -> Result<(), AllocError>
    ensures { OnOk result (differences.new.items ≡ differences.old.items
        ++ nodes_of_one side path.now ours.now theirs.now) }
{
    theirs.check();
    let others = nodes_by_name(alloc, theirs.children())?;
    for node in ours.children() {
        if !others.contains_key(node.name_bytes()) {
            tell(alloc, differences, side, path, Thing::Node(node))?;
        }
    }
    Ok(())
}

// What one of the two has alone.
fn add_own<'t>(
    alloc: Global,
    differences: &mut Vec<Difference<'t>>,
    path: &[u8],
    first: &Sight<'_, 't>,
    second: &Sight<'_, 't>,
) -> Result<(), AllocError>
    ensures { OnOk result (differences.new.items ≡ differences.old.items
        ++ own_between path.now first.now second.now) }
{
    add_properties(alloc, differences, Side::First, path, first, second)?;
    add_properties(alloc, differences, Side::Second, path, second, first)?;
    add_nodes(
        alloc,
        differences,
        Side::First,
        path,
        first.node,
        second.node,
    )?;
    add_nodes(
        alloc,
        differences,
        Side::Second,
        path,
        second.node,
        first.node,
    )
}

// What the two have alone, and below them those of one path.
fn add_node<'t>(
    alloc: Global,
    differences: &mut Vec<Difference<'t>>,
    path: &[u8],
    first: &Sight<'_, 't>,
    second: &Sight<'_, 't>,
) -> Result<(), AllocError>
    ensures { OnOk result (differences.new.items ≡ differences.old.items
        ++ differences_between path.now first.now second.now) }
{
    add_own(alloc, differences, path, first, second)?;
    second.node.check();
    let others = nodes_by_name(alloc, second.node.children())?;
    for child in first.node.children() {
        if let Some(other) = others.get(child.name_bytes()) {
            let below = path_below(alloc, path, child.name_bytes())?;
            let child = Sight {
                node: child,
                naming: first.naming,
            };
            let other = Sight {
                node: *other,
                naming: second.naming,
            };
            add_node(alloc, differences, below.as_slice(), &child, &other)?;
        }
    }
    Ok(())
}

/// What differs between two trees.
#[derive(Drop)]
pub struct Comparison<'t> {
    /// Whether the reservations are the same, in their order.
    pub same_reserves: bool,
    /// Whether the same processor boots.
    pub same_boot_cpu: bool,
    /// What one of the trees has and the other hasn't, node by node.
    pub differences: Vec<Difference<'t>>,
}

impl Comparison<'_> {
    /// Whether the two are the same board.
    pub fn is_same(&self) -> bool
        ensures { result ≡ is_same self.now }
    {
        self.same_reserves && self.same_boot_cpu && self.differences.is_empty()
    }
}

fn are_same_reserves(first: &[(u64, u64)], second: &[(u64, u64)]) -> bool
    ensures { IsTrue result ↔ (first.now ≡ second.now) }
{
    first == second
}

fn node_differences<'t>(
    alloc: Global,
    hasher: RandomState,
    first: &'t Tree,
    second: &'t Tree,
) -> Result<Vec<Difference<'t>>, AllocError>
    ensures { IfOk result (λ differences. differences.items ≡ tree_differences first.now second.now) }
{
    let naming = Naming::of(alloc, hasher, first)?;
    let second_naming = Naming::of(alloc, hasher, second)?;
    let mut differences = Vec::new(alloc);
    let first = Sight {
        node: first.root(),
        naming: &naming,
    };
    let second = Sight {
        node: second.root(),
        naming: &second_naming,
    };
    add_node(alloc, &mut differences, b"", &first, &second)?;
    Ok(differences)
}

/// Compares two trees. They are the same exactly where nothing differs.
pub fn compare<'t>(
    alloc: Global,
    hasher: RandomState,
    first: &'t Tree,
    second: &'t Tree,
) -> Result<Comparison<'t>, AllocError>
    ensures { IfOk result (λ comparison. IsTrue (is_same comparison) ↔ IsSameBoard first.now second.now) }
{
    first.check();
    second.check();
    let differences = node_differences(alloc, hasher, first, second)?;
    Ok(Comparison {
        same_reserves: are_same_reserves(first.reserves(), second.reserves()),
        same_boot_cpu: first.boot_cpu() == second.boot_cpu(),
        differences,
    })
}
