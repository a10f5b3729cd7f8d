//! The node at a path, and how deep a node lies.
ghost use Rattle.std.specs.Prelude.{◌≡◌, ◌≤◌, ℕ, IfSome, List, None, Some, length, if◌then◌else◌};
ghost use Rattle.std.specs.List.{slice_split};
ghost use Rattle.dt_tree.specs.Path.{is_slash, path_names};
ghost use Rattle.dt_source.specs.TreeMeaning.Syntax.{Piece};
ghost use Rattle.dt_live.specs.Private.Following.{node_behind};
ghost use Rattle.dt_live.specs.Placed.PlacedTrees.{IsPlacedTree, IsStanding, dtc_tree, node_path};
ghost use Rattle.dt_live.specs.Placed.Rows.{place_at};
ghost use Rattle.dt_live.specs.Placed.Tables.{IsTable, found_in, rows_in};
ghost use Rattle.dt_live.specs.Placed.References.{IsNodeAt, child_in};

use crate::placed::place::is_row_made;
use crate::placed::placed_tree::PlacedTree;
use crate::placed::table::Table;

// The child of this name, where it was made and not removed.
fn child<'d>(nodes: &Table<'d, u32>, node: usize, name: &'d [u8]) -> Option<usize>
    requires table { IsTable (rows_in nodes.now) (found_in nodes.now) }
    requires grown { (k : ℕ) → (place_at (rows_in nodes.now) k).owner ≤ k }
    ensures { result ≡ child_in nodes.now node name.now }
{
    let row = nodes.find(node, name)?;
    if is_row_made(nodes.rows.as_slice(), row) {
        return Some(row + 1);
    }
    None
}

// The node behind the names between slashes, from the root on.
fn follow<'d>(nodes: &Table<'d, u32>, names: &'d [u8]) -> Option<usize>
    requires table { IsTable (rows_in nodes.now) (found_in nodes.now) }
    requires grown { (k : ℕ) → (place_at (rows_in nodes.now) k).owner ≤ k }
    ensures { result ≡ node_behind (child_in nodes.now) 0 (slice_split is_slash names.now) }
{
    let mut node = 0;
    for name in names.split(|byte| *byte == b'/') {
        node = child(nodes, node, name)?;
    }
    Some(node)
}

impl<'d, V: Copy> PlacedTree<'d, V> {
    // The root is there from the first item on.
    fn root(&self) -> Option<usize>
        ensures { result ≡ (if self.now.begun then Some 0 else None) }
    {
        if self.begun {
            return Some(0);
        }
        None
    }

    /// The node at a path, none where none stands there.
    pub fn at_path(&self, path: &'d [u8]) -> Option<usize>
        requires sound { IsPlacedTree self.now }
        ensures path { (read : V → List Piece) → IsNodeAt self.now (path_names path.now) (dtc_tree read self.now) result }
        ensures there { IfSome result (IsStanding self.now) }
    {
        if path.len() < 2 {
            return self.root();
        }
        follow(&self.nodes, &path[1..])
    }

    /// How many names the path of a node has.
    pub fn depth(&self, node: usize) -> usize
        requires sound { IsPlacedTree self.now }
        requires node { IsStanding self.now node }
        ensures { result ≡ length (node_path self.now node) }
    {
        let mut at = node;
        let mut depth = 0;
        'up: while at != 0 {
            at = self.nodes.rows[at - 1].owner;
            depth += 1;
        }
        depth
    }
}
