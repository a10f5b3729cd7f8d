//! A whole live tree's rows and its tree as lists.
ghost use Rattle.dt_live.specs.declared.live_tree.LiveTree.{LiveTree};
ghost use Rattle.dt_live.specs.Flattened.{IsWhole, Lent};
ghost use Rattle.dt_live.specs.Laws.{AreItsNodes, AreItsProperties, HasPathsOnce};

/// The tree's nodes and properties are the rows, in order, and no two nodes have one path.
pub fn rows_of_a_flattened_tree()
    ensures nodes { (d : LiveTree Lent) → IsWhole d → AreItsNodes d }
    ensures once { (d : LiveTree Lent) → IsWhole d → HasPathsOnce d }
    ensures properties { (d : LiveTree Lent) → IsWhole d → AreItsProperties d }
{}
