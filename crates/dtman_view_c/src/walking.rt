//! Walks over a view.
ghost use Rattle.std.specs.Prelude.{◌≡◌, ◌∷◌, ◌++◌, [], List, length, ℕ};
ghost use Rattle.dt_tree.specs.NodeData.{NodeData, Siblings, more};
ghost use Rattle.dt_tree.specs.declared.property.Property.{Property};
ghost use Rattle.dt_tree.specs.TreeData.{TreeData};
ghost use Rattle.dt_patch.specs.View.Order.{StandsIn, TellsNext};
ghost use Rattle.dt_patch.specs.View.Parents.{IsAt, TellsAt};
ghost use Rattle.dt_patch.specs.View.Shows.{Views};
ghost use Rattle.dt_patch.specs.View.Standing.{HasNoNode, HasNoProperty, PropertiesFrom, StandFrom, StandsAt};
ghost use Rattle.dtman_view_c.specs.Told.{TellsNode, TellsProperty, bad_offset, done, nothing};
ghost use Rattle.dt_patch.specs.View.Places.{TellsNodes, TellsProperties};

use crate::told::{ViewTold, done, failed, node_told, property_told};
use dt_patch::view::{NodeOffset, PropertyOffset, View};

/// The first child of a node.
#[unsafe(no_mangle)]
pub extern "C" fn dtman_view_first_child(view: &View<'_>, node: usize) -> ViewTold
    ensures tells { TellsNode (λ answer. (d : NodeData) → StandsAt view.now node d
        → TellsNodes view.now answer d.children) result }
    ensures refused { HasNoNode view.now node → result ≡ bad_offset }
{
    node_told(view.first_child(NodeOffset { at: node }))
}

/// The next child of the same parent.
#[unsafe(no_mangle)]
pub extern "C" fn dtman_view_next_sibling(view: &View<'_>, node: usize) -> ViewTold
    ensures tells { TellsNode (λ answer. (name : List ℕ) (ps : List Property) (children rest : Siblings)
        → StandFrom view.now node (more name ps children rest) → TellsNodes view.now answer rest) result }
    ensures refused { HasNoNode view.now node → result ≡ bad_offset }
{
    node_told(view.next_sibling(NodeOffset { at: node }))
}

/// The next node in the order of the blob.
#[unsafe(no_mangle)]
pub extern "C" fn dtman_view_next_node(view: &View<'_>, node: usize) -> ViewTold
    ensures tells { TellsNode (λ answer. (d : NodeData) (later : List NodeData) → StandsIn view.now node d later
        → TellsNext view.now answer later) result }
    ensures refused { HasNoNode view.now node → result ≡ bad_offset }
{
    node_told(view.next_node(NodeOffset { at: node }))
}

/// The parent of a node.
#[unsafe(no_mangle)]
pub extern "C" fn dtman_view_parent(view: &View<'_>, node: usize) -> ViewTold
    ensures root { (tree : TreeData) → Views view.now tree → IsAt view.now tree.root [] node → result ≡ nothing }
    ensures below { TellsNode (λ answer. (tree : TreeData) (path : List (List ℕ)) (name : List ℕ) → Views view.now tree
        → IsAt view.now tree.root (path ++ name ∷ []) node → TellsAt view.now tree.root path answer) result }
    ensures refused { HasNoNode view.now node → result ≡ bad_offset }
{
    node_told(view.parent(NodeOffset { at: node }))
}

/// How many nodes are round a node.
#[unsafe(no_mangle)]
pub extern "C" fn dtman_view_depth(view: &View<'_>, node: usize) -> ViewTold
    ensures stands { (tree : TreeData) (path : List (List ℕ)) → Views view.now tree → IsAt view.now tree.root path node
        → result ≡ done (length path) }
    ensures refused { HasNoNode view.now node → result ≡ bad_offset }
{
    match view.depth(NodeOffset { at: node }) {
        Ok(depth) => done(depth),
        Err(error) => failed(error),
    }
}

/// The first property of a node.
#[unsafe(no_mangle)]
pub extern "C" fn dtman_view_first_property(view: &View<'_>, node: usize) -> ViewTold
    ensures tells { TellsProperty (λ answer. (d : NodeData) → StandsAt view.now node d
        → TellsProperties view.now answer d.properties) result }
    ensures refused { HasNoNode view.now node → result ≡ bad_offset }
{
    property_told(view.first_property(NodeOffset { at: node }))
}

/// The next property of the same node.
#[unsafe(no_mangle)]
pub extern "C" fn dtman_view_next_property(view: &View<'_>, property: usize) -> ViewTold
    ensures tells { TellsProperty (λ answer. (p : Property) (ps : List Property)
        → PropertiesFrom view.now property (p ∷ ps) → TellsProperties view.now answer ps) result }
    ensures refused { HasNoProperty view.now property → result ≡ bad_offset }
{
    property_told(view.next_property(PropertyOffset { at: property }))
}
