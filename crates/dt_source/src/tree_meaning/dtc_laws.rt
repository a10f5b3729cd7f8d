//! What holds of each tree in dtc's language.
ghost use Rattle.std.specs.Prelude.{ℕ, Bool, List};
ghost use Rattle.dt_source.specs.TreeMeaning.Alike.{AreAlike};
ghost use Rattle.dt_source.specs.TreeMeaning.Paths.{Path};
ghost use Rattle.dt_source.specs.TreeMeaning.Syntax.{Piece, Meaning};
ghost use Rattle.dt_source.specs.TreeMeaning.Edits.{State};
ghost use Rattle.dt_source.specs.TreeMeaning.DtcEdits.{DtcTree};
ghost use Rattle.dt_source.specs.TreeMeaning.DtcLaws.{IsDtcSound, IsDtcTree, IsRestSound, Passes};

/// The tree that stands when all is read is one that a resolved tree can hold, and so is what omission leaves of it: each node is below
/// one that stands and no deeper than 64, each property and label is at a node, and none stands twice. Each name that stands passes any
/// test that all names of the source pass.
pub fn dtc_trees()
    ensures read { (test : List ℕ → Bool) (m : Meaning) (t : DtcTree) → IsDtcSound (Passes test) m t }
    ensures any { (m : Meaning) (t : DtcTree) → IsDtcTree m t }
    ensures left { (test : List ℕ → Bool) (gone : List Path) (s : State (List Piece)) → IsRestSound (Passes test) gone s }
{}

/// A source that both languages take, which is no plugin and deletes nothing, has the same nodes and properties in both, in the same
/// order.
pub fn languages_alike()
    ensures same { (m : Meaning) (t : DtcTree) (s : State (List Piece)) → AreAlike m t s }
{}
