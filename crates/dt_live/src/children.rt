//! The children of nodes.
ghost use Rattle.std.specs.Prelude.{◌≡◌, ◌<◌, ◌==◌, not, true, IfOk, OnOk};
ghost use Rattle.dt_source.specs.TreeMeaning.Paths.{Path};
ghost use Rattle.dt_live.specs.ByRow.{KeepsRows};
ghost use Rattle.dt_live.specs.Index.{IsSetAt};
ghost use Rattle.dt_live.specs.Rows.{AddsNode, HasSameChildStamps, HasSamePropertyStamps, IsLiveTree, IsKept, IsNode, IsTaken, RemovesNode, child_of, child_path, child_stamp, is_standing, node_path};

use crate::live_tree::{LiveTree, NodeRow};
use std::alloc::AllocError;

impl<'d, V: Copy> LiveTree<'d, V> {
    /// The child of this name.
    pub fn child(&self, parent: usize, name: &'d [u8]) -> Option<usize>
        ensures { result ≡ child_of self.now parent name.now }
    {
        self.node_rows.get(parent, name)
    }

    /// The child of this name, put behind the others where it isn't there; and whether this body is the first to define it, or
    /// another one did so last. Where the definition stands is kept of the node that it makes.
    pub fn define_child(
        &mut self,
        parent: usize,
        name: &'d [u8],
        stamp: usize,
        at: u32,
    ) -> Result<(usize, bool), AllocError>
        requires sound { IsLiveTree self.old }
        requires known { IsNode self.old parent }
        requires stands { is_standing self.old parent ≡ true }
        ensures sound { OnOk result (IsLiveTree self.new) }
        ensures made { IfOk result (λ x. node_path self.new x.0 ≡ child_path self.old parent name.now) }
        ensures there { IfOk result (λ x. is_standing self.new x.0 ≡ true) }
        ensures known { IfOk result (λ x. IsNode self.new x.0) }
        ensures kept { OnOk result ((p : Path) → IsKept p self.old self.new) }
        ensures rows { OnOk result (KeepsRows self.old self.new) }
        ensures state { OnOk result (AddsNode (child_path self.old parent name.now) self.old self.new) }
        ensures first { IfOk result (λ x. x.1 ≡ not (child_stamp self.old parent name.now == stamp)) }
        ensures stamps { OnOk result (IsSetAt parent name.now stamp (child_stamp self.old) (child_stamp self.new)) }
        ensures others { HasSamePropertyStamps self.old self.new }
        ensures count { self.new.stamps ≡ self.old.stamps }
    {
        self.nodes.reserve(1)?;
        let node = self.nodes.len() + 1;
        let entry = self.node_rows.define(parent, name, node, stamp)?;
        let first = entry.stamp != stamp;
        match entry.row {
            Some(child) => Ok((child, first)),
            None => {
                self.nodes.push(NodeRow {
                    parent,
                    name,
                    removed: false,
                    at,
                })?;
                Ok((node, first))
            }
        }
    }

    /// Removes a child and all below it, where it is there.
    pub fn remove_child(&mut self, parent: usize, name: &'d [u8])
        requires sound { IsLiveTree self.old }
        requires known { IsNode self.old parent }
        requires stands { is_standing self.old parent ≡ true }
        ensures sound { IsLiveTree self.new }
        ensures kept { IsKept (node_path self.old parent) self.old self.new }
        ensures taken { IsTaken (child_path self.old parent name.now) self.old self.new }
        ensures state { RemovesNode (child_path self.old parent name.now) self.old self.new }
        ensures stamps { HasSameChildStamps self.old self.new }
        ensures others { HasSamePropertyStamps self.old self.new }
        ensures count { self.new.stamps ≡ self.old.stamps }
    {
        if let Some(node) = self.node_rows.forget(parent, name) {
            self.nodes[node - 1].removed = true;
        }
    }

    /// Removes a node below the root, and all below it.
    pub fn remove_node(&mut self, node: usize)
        requires sound { IsLiveTree self.old }
        requires known { IsNode self.old node }
        requires below { 0 < node }
        requires stands { is_standing self.old node ≡ true }
        ensures sound { IsLiveTree self.new }
        ensures taken { IsTaken (node_path self.old node) self.old self.new }
        ensures state { RemovesNode (node_path self.old node) self.old self.new }
        ensures stamps { HasSameChildStamps self.old self.new }
        ensures others { HasSamePropertyStamps self.old self.new }
        ensures count { self.new.stamps ≡ self.old.stamps }
    {
        let row = self.nodes[node - 1];
        self.remove_child(row.parent, row.name);
    }
}
