//! A node with all below it, in the rows of a flattened tree.
ghost use Rattle.std.specs.Prelude.{ℕ};
ghost use Rattle.dt_live.specs.declared.live_tree.LiveTree.{LiveTree};
ghost use Rattle.dt_live.specs.Flattened.{IsOrdered, IsWhole, Lent};
ghost use Rattle.dt_live.specs.Laws.{ArePropertiesTogether, AreRunsBelow, AreRunsOfNodes, AreRunsOfProperties, AreRunsWithin, IsRunByParents};

/// The nodes below a node are those right behind it, as long as paths are longer than its own; and the properties of it and of
/// those below it stand together.
pub fn run_below()
    ensures within { (d : LiveTree Lent) → IsWhole d → IsOrdered d → AreRunsWithin d }
    ensures below { (d : LiveTree Lent) → IsWhole d → IsOrdered d → AreRunsBelow d }
    ensures nodes { (d : LiveTree Lent) → IsWhole d → IsOrdered d → AreRunsOfNodes d }
    ensures found { (d : LiveTree Lent) → IsOrdered d → ArePropertiesTogether d }
    ensures properties { (d : LiveTree Lent) → IsWhole d → IsOrdered d → AreRunsOfProperties d }
{}

/// Those below a node are told by their parents alone: rows behind it, as long as a parent doesn't stand before the node.
pub fn run_by_parents()
    ensures { (d : LiveTree Lent) → IsWhole d → IsOrdered d → (n e : ℕ) → IsRunByParents d n e }
{}
