//! How the two languages meet.
ghost use Rattle.std.specs.Prelude.{◌≡◌, ℕ, List, true};
ghost use Rattle.std.specs.List.{filter};
ghost use Rattle.dt_source.specs.TreeMeaning.Paths.{Path, is_listed};
ghost use Rattle.dt_source.specs.TreeMeaning.Places.{what_stands};
ghost use Rattle.dt_source.specs.TreeMeaning.Seen.{AreNodesRemoved, ArePropertiesRemoved, IsNodeMade, IsPropertyMade, Keyed, Value, Valued, are_once, properties_once, seen, with_path};

/// Where no path has two places, dtc's edits of nodes are the profile's, seen at their places, and no path gets a second one. What
/// stands are the nodes in the order of their places; where nothing was removed, that is the profile's.
pub fn nodes_at_places()
    ensures made { (p : Path) (places nodes : List Path) → are_once places ≡ true → IsNodeMade p places nodes }
    ensures removed { (p : Path) (places nodes : List Path) → AreNodesRemoved p places nodes }
    ensures once { (p : Path) (places : List Path) → are_once places ≡ true → are_once (with_path p places) ≡ true }
    ensures stands { (places nodes : List Path) → what_stands (seen places nodes)
        ≡ filter (λ p. is_listed p nodes) places }
    ensures alike { (nodes : List Path) → what_stands (seen nodes nodes) ≡ nodes }
{}

/// The same of properties, with all that is said of removed ones but their path and name left out.
pub fn properties_at_places()
    ensures made { (p : Path) (n : List ℕ) (v : Value) (places : List Keyed) (es : List Valued)
        → properties_once places ≡ true → IsPropertyMade p n v places es }
    ensures removed { (p : Path) (places : List Keyed) (es : List Valued) → ArePropertiesRemoved p places es }
{}
