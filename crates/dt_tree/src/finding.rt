//! The node at a path.
ghost use Rattle.std.specs.Prelude.{◌≡◌};
ghost use Rattle.std.specs.Option.{option_copied};
ghost use Rattle.std.specs.Str.{bytes_eq};
ghost use Rattle.std.specs.List.{slice_split};
ghost use Rattle.dt_tree.specs.Path.{is_slash, names_behind, path_names};
ghost use Rattle.dt_tree.specs.PathMap.{child_named, node_at};

use crate::node::Node;
use crate::path::Path;

impl Node {
    /// The child of this name.
    pub fn child(&self, name: &[u8]) -> Option<&Node>
        ensures { option_copied result ≡ child_named self.now.children name.now }
    {
        for child in self.children() {
            if child.name_bytes() == name {
                return Some(child);
            }
        }
        None
    }

    /// The node at a path that begins at this node. Takes no memory.
    pub fn find(&self, path: &Path) -> Option<&Node>
        ensures { option_copied result ≡ node_at self.now (path_names path.now) }
    {
        let text = path.as_bytes();
        if text.len() < 2 {
            return Some(self);
        }
        self.find_below(&text[1..])
    }

    fn find_below(&self, names: &[u8]) -> Option<&Node>
        ensures { option_copied result ≡ node_at self.now (slice_split is_slash names.now) }
    {
        let mut node = self;
        for name in names.split(|byte| *byte == b'/') {
            node = node.child(name)?;
        }
        Some(node)
    }
}
