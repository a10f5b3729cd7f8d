//! A tree without the properties that repeat the names of their nodes.
ghost use Rattle.std.specs.Prelude.{◌≡◌, ◌++◌, ◌∷◌, [], IfOk};
ghost use Rattle.std.specs.Str.{bytes_eq};
ghost use Rattle.dt_tree.specs.NodeView.{name_bytes};
ghost use Rattle.dtman_check.specs.OwnNames.{once, once_node, once_tree, repeats};

use dt_check::base_name;
use dt_tree::{Name, Node, Property, Tree};
use std::alloc::{AllocError, Global};

/// The tree without each property `name` that says as a string what its node is called up to the unit address (Devicetree
/// Specification v0.4, section 2.3, `name`): dtc leaves these out, whatever it read. All else is as it was.
pub fn named_once(alloc: Global, tree: Tree) -> Result<Tree, AllocError>
    ensures { IfOk result (λ answer. answer ≡ once_tree tree) }
{
    tree.check();
    let (reserves, boot_cpu, root) = tree.into_parts();
    let root = node_once(alloc, root)?;
    match Tree::new(reserves, boot_cpu, root) {
        Ok(answer) => Ok(answer),
        Err(_) => unreachable!(),
    }
}

fn node_once(alloc: Global, node: Node) -> Result<Node, AllocError>
    ensures { IfOk result (λ answer. answer ≡ once_node node) }
{
    node.check();
    let (name, mut properties, children) = node.into_parts();
    drop_repeated(&name, &mut properties);
    let mut answers = Vec::with_capacity(alloc, children.len())?;
    for child in children {
        answers.push(node_once(alloc, child)?)?;
    }
    Ok(Node::from_distinct(name, properties, answers))
}

// The bytes of a node's name, none for the root.
fn bytes_of(name: &Option<Name>) -> &[u8]
    ensures { result.now ≡ name_bytes name.now }
{
    match name {
        None => &[],
        Some(name) => name.as_bytes(),
    }
}

fn drop_repeated(name: &Option<Name>, properties: &mut Vec<Property>)
    ensures { properties.new.items ≡ once (name_bytes name.now) properties.old.items }
{
    let called = bytes_of(name);
    properties.retain(|property| !repeats_name(called, property));
}

/// Whether a property is `name`, and says as a string what a node of this name is called up to the unit address.
pub fn repeats_name(name: &[u8], property: &Property) -> bool
    ensures { result ≡ repeats name.now property.now }
{
    property.name.as_bytes() == b"name".as_slice()
        && is_string(property.value.as_slice(), base_name(name))
}

// Whether a value is this text as a string.
fn is_string(value: &[u8], text: &[u8]) -> bool
    ensures { result ≡ bytes_eq value.now (text.now ++ 0 ∷ []) }
{
    let Some((last, rest)) = value.split_last() else {
        return false;
    };
    *last == 0 && rest == text
}
