//! Nodes of a view by what they are looked for by.
ghost use Rattle.std.specs.Prelude.{◌≡◌, List, false, find, true};
ghost use Rattle.dt_tree.specs.NodeData.{NodeData};
ghost use Rattle.dt_tree.specs.Path.{is_path, path_names};
ghost use Rattle.dt_tree.specs.PathMap.{child_named, node_at};
ghost use Rattle.dt_tree.specs.TreeData.{TreeData};
ghost use Rattle.dt_patch.specs.View.Order.{StandsIn, from_first, has_phandle, in_order, is_compatible, TellsNext};
ghost use Rattle.dt_patch.specs.View.Aliases.{TellsAlias, alias_in};
ghost use Rattle.dt_patch.specs.View.Alike.{TellsLike, child_like};
ghost use Rattle.dt_patch.specs.View.Places.{TellsPlace};
ghost use Rattle.dt_patch.specs.View.Shows.{Views};
ghost use Rattle.dt_patch.specs.View.Standing.{HasNoNode, StandsAt};
ghost use Rattle.dtman_view_c.specs.Told.{TellsNode, bad_offset, bad_path};

use crate::told::{ViewTold, node_told};
use dt_patch::view::{NodeOffset, View};

/// The child of this name.
#[unsafe(no_mangle)]
pub extern "C" fn dtman_view_child(view: &View<'_>, node: usize, name: &[u8]) -> ViewTold
    ensures tells { TellsNode (λ answer. (d : NodeData) → StandsAt view.now node d
        → TellsPlace view.now answer (child_named d.children name.now)) result }
    ensures refused { HasNoNode view.now node → result ≡ bad_offset }
{
    node_told(view.child(NodeOffset { at: node }, name))
}

/// The node at a path.
#[unsafe(no_mangle)]
pub extern "C" fn dtman_view_find(view: &View<'_>, path: &[u8]) -> ViewTold
    ensures tells { TellsNode (λ answer. (tree : TreeData) → Views view.now tree → is_path path.now ≡ true
        → TellsPlace view.now answer (node_at tree.root (path_names path.now))) result }
    ensures bad_path { is_path path.now ≡ false → result ≡ bad_path }
{
    node_told(view.find(path))
}

/// The node at the path that an alias stands for.
#[unsafe(no_mangle)]
pub extern "C" fn dtman_view_alias(view: &View<'_>, name: &[u8]) -> ViewTold
    ensures { TellsNode (λ answer. (tree : TreeData) → Views view.now tree
        → TellsAlias view.now tree.root (alias_in tree.root name.now) answer) result }
{
    node_told(view.alias(name))
}

/// The first node with this phandle.
#[unsafe(no_mangle)]
pub extern "C" fn dtman_view_by_phandle(view: &View<'_>, phandle: u32) -> ViewTold
    ensures { TellsNode (λ answer. (tree : TreeData) → Views view.now tree
        → TellsPlace view.now answer (find (has_phandle phandle) (in_order tree.root))) result }
{
    node_told(view.by_phandle(phandle))
}

/// The next node behind this one that is compatible with a text.
#[unsafe(no_mangle)]
pub extern "C" fn dtman_view_next_compatible(view: &View<'_>, node: usize, text: &[u8]) -> ViewTold
    ensures { TellsNode (λ answer. (d : NodeData) (later : List NodeData) → StandsIn view.now node d later
        → TellsNext view.now answer (from_first (is_compatible text.now) later)) result }
{
    node_told(view.next_compatible(NodeOffset { at: node }, text))
}

/// The first child whose name is this one or, where no unit address is asked for, has one.
#[unsafe(no_mangle)]
pub extern "C" fn dtman_view_child_like(view: &View<'_>, node: usize, name: &[u8]) -> ViewTold
    ensures tells { TellsNode (λ answer. (d : NodeData) → StandsAt view.now node d
        → TellsPlace view.now answer (child_like d.children name.now)) result }
    ensures refused { HasNoNode view.now node → result ≡ bad_offset }
{
    node_told(view.child_like(NodeOffset { at: node }, name))
}

/// The node at a path as libfdt finds it.
#[unsafe(no_mangle)]
pub extern "C" fn dtman_view_find_like(view: &View<'_>, path: &[u8]) -> ViewTold
    ensures { TellsNode (λ answer. (tree : TreeData) → Views view.now tree
        → TellsLike view.now tree.root path.now answer) result }
{
    node_told(view.find_like(path))
}
