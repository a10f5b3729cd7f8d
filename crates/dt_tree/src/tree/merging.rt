//! A node merged into a tree.
ghost use Rattle.std.specs.Prelude.{IfOk};
ghost use Rattle.dt_tree.specs.Answers.{IsChangedBy, IsRefusedBy};
ghost use Rattle.dt_tree.specs.Merged.{merge_fault, with_merged};
ghost use Rattle.dt_tree.specs.Path.{path_names};
ghost use Rattle.dt_tree.specs.PathMap.{path_map};

use crate::error::TreeError;
use crate::limits::MAX_DEPTH;
use crate::node::Node;
use crate::path::Path;
use crate::tree::Tree;
use std::alloc::Global;

impl Tree {
    /// A new tree: this one with a node's properties and children merged into the node at the path. What is there keeps its place
    /// and takes the new value; what is new goes last. Fails with `NoSuchPath`, with `TooDeep` where a node would lie deeper than
    /// 64 levels, or with `NoMemory`.
    pub fn merge(&self, alloc: Global, path: &Path, node: &Node) -> Result<Tree, TreeError>
        ensures merged { IfOk result (λ tree. IsChangedBy (with_merged (path_names path.now) node.now) self.now tree) }
        ensures fault { IsRefusedBy (merge_fault (path_map self.now.root) (path_names path.now) node.now) result }
    {
        self.root.check();
        let root = self
            .root
            .merged_below(alloc, MAX_DEPTH, path.names_between(), node)?;
        root.check();
        let mut reserves = Vec::new(alloc);
        reserves.extend_from_slice(self.reserves.as_slice())?;
        Ok(Tree {
            reserves,
            boot_cpu: self.boot_cpu,
            root,
        })
    }
}
