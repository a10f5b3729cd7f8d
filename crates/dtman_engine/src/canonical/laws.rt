//! The laws.
ghost use Rattle.std.specs.Prelude.{ℕ, List, IsTrue};
ghost use Rattle.dt_text.specs.declared.lexeme.language.Language.TheVariants.{Profile};
ghost use Rattle.dt_tree.specs.TreeData.{TreeData, IsTree};
ghost use Rattle.dt_source.specs.Parse.{Says};
ghost use Rattle.dt_blob.specs.Holds.{Holds};
ghost use Rattle.dt_blob.specs.SourceText.{text_of};
ghost use Rattle.dtman_engine.specs.Canonical.Bytes.{are_bytes, HasBytes};
ghost use Rattle.dtman_engine.specs.Canonical.Conditions.{IsSourceTree};
ghost use Rattle.dtman_engine.specs.Canonical.Laws.{IsMeant, IsSaid, SaysNoOther};
ghost use Rattle.dtman_engine.specs.Canonical.SourceOf.{source_of};

/// The canonical source of a tree whose values have bytes spells a source without faults, and says the tree.
pub fn canonical_parse()
    ensures { (t : TreeData) → IsTree t → HasBytes t → Says Profile (text_of t) (source_of t) }
{}

/// A tree that bytes hold has values of bytes: each tree that was read from a blob or written into one.
pub fn held_bytes()
    ensures { (bytes : List ℕ) (t : TreeData) → IsTrue (are_bytes bytes) → Holds bytes t → HasBytes t }
{}

/// What the canonical source of a tree says means that tree, where no processor but 0 boots and its phandles are those of a source.
pub fn canonical_meaning()
    ensures { (t : TreeData) → IsTree t → IsSourceTree t → IsMeant t }
{}

/// The canonical source of such a tree says what means that tree, and nothing that it says means another.
pub fn canonical_source()
    ensures says { (t : TreeData) → IsTree t → HasBytes t → IsSourceTree t → IsSaid t }
    ensures no_other { (t : TreeData) → IsTree t → HasBytes t → IsSourceTree t → SaysNoOther t }
{}
