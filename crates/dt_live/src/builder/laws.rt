//! Laws of a tree's lists: functions that do nothing, whose contracts are the laws.
ghost use Rattle.std.specs.Prelude.{◌≡◌, List, true};
ghost use Rattle.dt_tree.specs.NodeData.{NodeData};
ghost use Rattle.dt_tree.specs.PathMap.{path_map};
ghost use Rattle.dt_tree.specs.Sound.{IsSound};
ghost use Rattle.dt_source.specs.TreeMeaning.MapOf.{map_of};
ghost use Rattle.dt_source.specs.TreeMeaning.Paths.{Path};
ghost use Rattle.dt_source.specs.TreeMeaning.References.{preorder};
ghost use Rattle.dt_source.specs.TreeMeaning.Resolved.{Resolved};
ghost use Rattle.dt_live.specs.Builder.Lists.{lists_of};
ghost use Rattle.dt_live.specs.Builder.Standing.{AreFollowed, AreNodes, are_apart, walked};

/// The walk puts each node down once, and each below the one before it or below a node above that: so a tree builder takes them.
pub fn walk_of_nodes()
    ensures once { (nodes : List Path) → AreNodes nodes → are_apart (preorder nodes) ≡ true }
    ensures followed { (nodes : List Path) → AreNodes nodes → AreFollowed (preorder nodes) }
{}

/// The lists of a tree say all that its path map says.
pub fn map_of_lists()
    ensures { (b : NodeData) → IsSound b → path_map b ≡ map_of (lists_of b) }
{}

/// The walk keeps the order of siblings and of a node's properties, so that the map of the lists in order of definition is that of
/// the lists in order of the walk.
pub fn order_of_siblings()
    ensures { (r : Resolved) → AreNodes r.nodes → map_of r ≡ map_of (walked r) }
{}
