//! What makes a live tree whole, and the names in its tree.
ghost use Rattle.std.specs.Prelude.{◌≡◌, [], true};
ghost use Rattle.std.specs.List.{list_all};
ghost use Rattle.dt_tree.specs.Name.{are_names};
ghost use Rattle.dt_live.specs.declared.live_tree.LiveTree.{LiveTree};
ghost use Rattle.dt_live.specs.Rows.{state_of};
ghost use Rattle.dt_live.specs.ByRow.{has_all_rows, is_named};
ghost use Rattle.dt_live.specs.Flattened.{IsWhole, Lent, lists};
ghost use Rattle.dt_live.specs.Laws.{IsWholeByRows};

/// A live tree is whole where no row was removed, no label was given, and its tree has lawful names.
pub fn whole_by_rows()
    ensures { (d : LiveTree Lent) → IsWholeByRows d }
{}

/// The tree of a whole live tree has lawful names, and no labels.
pub fn lawful_names()
    ensures rows { (d : LiveTree Lent) → IsWhole d → has_all_rows d ≡ true }
    ensures labels { (d : LiveTree Lent) → IsWhole d → (state_of d).labels ≡ [] }
    ensures nodes { (d : LiveTree Lent) → IsWhole d → list_all are_names (lists d).nodes ≡ true }
    ensures properties { (d : LiveTree Lent) → IsWhole d → list_all is_named (lists d).properties ≡ true }
{}
