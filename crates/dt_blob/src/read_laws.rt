//! Laws of reading, over the definitions.
ghost use Rattle.std.specs.Prelude.{◌≡◌, ◌≤◌, List, ℕ, length};
ghost use Rattle.dt_tree.specs.TreeData.{TreeData, IsTree};
ghost use Rattle.dt_blob.specs.Blob.{limit, blob_of};
ghost use Rattle.dt_blob.specs.Holds.{Holds};

/// Bytes hold at most one tree.
pub fn one_tree()
    ensures { (bytes : List ℕ) (tree other : TreeData) → Holds bytes tree → Holds bytes other → tree ≡ other }
{}

/// The blob of a tree holds that tree, where it isn't over 268,435,456 bytes.
pub fn blob_holds()
    ensures { (tree : TreeData) → IsTree tree → length (blob_of tree) ≤ limit → Holds (blob_of tree) tree }
{}
