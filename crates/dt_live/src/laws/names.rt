//! Look-ups in a whole live tree, against its tree as lists.
ghost use Rattle.std.specs.Prelude.{ℕ, List};
ghost use Rattle.dt_live.specs.declared.live_tree.LiveTree.{LiveTree};
ghost use Rattle.dt_live.specs.Rows.{IsNode};
ghost use Rattle.dt_live.specs.Flattened.{IsWhole, Lent};
ghost use Rattle.dt_live.specs.Laws.{IsChildLookUp, IsPropertyLookUp};

/// A child is found where its path is listed, and it stands at that path, behind its parent.
pub fn child_look_up()
    ensures { (d : LiveTree Lent) → IsWhole d → (n : ℕ) (k : List ℕ) → IsNode d n → IsChildLookUp d n k }
{}

/// A property is found where the node has one of that name, and the row lends its value.
pub fn property_look_up()
    ensures { (d : LiveTree Lent) → IsWhole d → (n : ℕ) (k : List ℕ) → IsNode d n → IsPropertyLookUp d n k }
{}
