//! Paths through an index, name by name.
ghost use Rattle.std.specs.Prelude.{◌≡◌};
ghost use Rattle.std.specs.List.{slice_split};
ghost use Rattle.dt_tree.specs.Path.{is_slash};
ghost use Rattle.dt_live.specs.Index.{row_of};
ghost use Rattle.dt_live.specs.Private.Following.{node_behind};

use crate::index::Index;

impl<'d> Index<'d> {
    /// The row behind the names between slashes, from the root on.
    pub fn follow(&self, names: &'d [u8]) -> Option<usize>
        ensures { result ≡ node_behind (row_of self.now) 0 (slice_split is_slash names.now) }
    {
        let mut node = 0;
        for name in names.split(|byte| *byte == b'/') {
            node = self.get(node, name)?;
        }
        Some(node)
    }
}
