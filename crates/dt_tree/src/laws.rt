//! Laws of paths and of the path map: functions that do nothing, whose contracts are the laws.
ghost use Rattle.std.specs.Prelude.{◌≡◌, ◌≢◌, ◌⊎◌, ℕ, List, All, AllPairs, Contains, false, true};
ghost use Rattle.dt_tree.specs.Name.{are_names};
ghost use Rattle.dt_tree.specs.Path.{is_path, path_names, path_text};
ghost use Rattle.dt_tree.specs.PathMap.{tree_map, path_map, IsPathMap};
ghost use Rattle.dt_tree.specs.Answers.{has_node, is_before};
ghost use Rattle.dt_tree.specs.Preorder.{preorder};
ghost use Rattle.dt_tree.specs.TreeData.{TreeData, IsTree};

/// The map loses nothing: two trees with the same map are the same tree.
pub fn same_map_same_tree()
    ensures { (a b : TreeData) → IsTree a → IsTree b → tree_map a ≡ tree_map b → a ≡ b }
{}

/// The map of a tree has `/`, with each path the one above it, and no name twice in a list.
pub fn map_of_a_tree()
    ensures { (t : TreeData) → IsTree t → IsPathMap (path_map t.root) }
{}

/// A path's text and its names say the same, so that paths are equal exactly where their names are.
pub fn path_texts_and_names()
    ensures lawful { (names : List (List ℕ)) → are_names names ≡ true → is_path (path_text names) ≡ true }
    ensures names { (names : List (List ℕ)) → are_names names ≡ true → path_names (path_text names) ≡ names }
    ensures named { (text : List ℕ) → is_path text ≡ true → are_names (path_names text) ≡ true }
    ensures text { (text : List ℕ) → is_path text ≡ true → path_text (path_names text) ≡ text }
{}

/// Preorder is an order of the paths of a tree: of two paths one stands before the other, and not the other before it.
pub fn preorder_of_a_tree()
    ensures apart { (t : TreeData) → IsTree t → (p q : List (List ℕ)) → is_before t p q ≡ true → is_before t q p ≡ false }
    ensures total { (t : TreeData) → (p q : List (List ℕ)) → has_node t p ≡ true → has_node t q ≡ true
        → (p ≡ q) ⊎ (is_before t p q ≡ true) ⊎ (is_before t q p ≡ true) }
{}

/// The list of paths has exactly those of the tree, each once and in their order.
pub fn paths_in_preorder()
    ensures standing { (t : TreeData) → IsTree t → All (λ path. has_node t path ≡ true) (preorder t.root) }
    ensures all { (t : TreeData) → (path : List (List ℕ)) → has_node t path ≡ true → Contains (preorder t.root) path }
    ensures once { (t : TreeData) → IsTree t → AllPairs (λ p q. p ≢ q) (preorder t.root) }
    ensures ordered { (t : TreeData) → IsTree t → AllPairs (λ p q. is_before t p q ≡ true) (preorder t.root) }
{}
