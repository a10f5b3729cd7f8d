//! The node at a path, and how deep a node lies.
ghost use Rattle.std.specs.Prelude.{◌≡◌, true, length, IfSome};
ghost use Rattle.dt_tree.specs.Path.{path_names};
ghost use Rattle.dt_live.specs.Rows.{IsLiveTree, IsNode, IsNodeAt, is_standing, node_path};

use crate::live_tree::LiveTree;

impl<'d, V: Copy> LiveTree<'d, V> {
    /// The node at a path.
    pub fn at_path(&self, path: &'d [u8]) -> Option<usize>
        requires sound { IsLiveTree self.now }
        ensures path { IsNodeAt self.now (path_names path.now) result }
        ensures known { IfSome result (λ node. IsNode self.now node) }
        ensures there { IfSome result (λ node. is_standing self.now node ≡ true) }
    {
        if path.len() < 2 {
            return Some(0);
        }
        self.node_rows.follow(&path[1..])
    }

    /// How many names the path of a node has.
    pub fn depth(&self, node: usize) -> usize
        requires sound { IsLiveTree self.now }
        requires known { IsNode self.now node }
        ensures { result ≡ length (node_path self.now node) }
    {
        let mut at = node;
        let mut depth = 0;
        'up: while at != 0 {
            at = self.nodes[at - 1].parent;
            depth += 1;
        }
        depth
    }
}
