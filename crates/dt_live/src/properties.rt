//! The properties of nodes.
ghost use Rattle.std.specs.Prelude.{◌≡◌, ◌==◌, not, true, IfOk, OnOk};
ghost use Rattle.dt_source.specs.TreeMeaning.Edits.{without_property};
ghost use Rattle.dt_live.specs.ByRow.{KeepsRows};
ghost use Rattle.dt_live.specs.Index.{IsSetAt};
ghost use Rattle.dt_live.specs.Rows.{HasSameChildStamps, HasSameNodes, HasSamePropertyStamps, IsLiveTree, IsNode, SetsProperty, is_standing, node_path, property_stamp, property_of, state_of};

use crate::live_tree::{LiveTree, PropertyRow};
use std::alloc::AllocError;

impl<'d, V: Copy> LiveTree<'d, V> {
    /// The row of the property of this name.
    pub fn property(&self, node: usize, name: &'d [u8]) -> Option<usize>
        ensures { result ≡ property_of self.now node name.now }
    {
        self.property_rows.get(node, name)
    }

    /// Sets a property in its place, or behind the others; and whether this body is the first to define it, or another one did so
    /// last.
    pub fn set_property(
        &mut self,
        node: usize,
        name: &'d [u8],
        value: V,
        stamp: usize,
    ) -> Result<bool, AllocError>
        requires sound { IsLiveTree self.old }
        requires known { IsNode self.old node }
        requires stands { is_standing self.old node ≡ true }
        ensures sound { OnOk result (IsLiveTree self.new) }
        ensures kept { HasSameNodes self.old self.new }
        ensures rows { OnOk result (KeepsRows self.old self.new) }
        ensures state { OnOk result (SetsProperty (node_path self.old node) name.now value self.old self.new) }
        ensures first { IfOk result (λ x. x ≡ not (property_stamp self.old node name.now == stamp)) }
        ensures stamps { OnOk result (IsSetAt node name.now stamp (property_stamp self.old) (property_stamp self.new)) }
        ensures others { HasSameChildStamps self.old self.new }
        ensures count { self.new.stamps ≡ self.old.stamps }
    {
        self.properties.reserve(1)?;
        let row = self.properties.len();
        let entry = self.property_rows.define(node, name, row, stamp)?;
        let first = entry.stamp != stamp;
        match entry.row {
            Some(row) => self.properties[row].value = Some(value),
            None => self.properties.push(PropertyRow {
                node,
                name,
                value: Some(value),
            })?,
        }
        Ok(first)
    }

    /// Removes a property, where it is there.
    pub fn remove_property(&mut self, node: usize, name: &'d [u8])
        requires sound { IsLiveTree self.old }
        requires known { IsNode self.old node }
        requires stands { is_standing self.old node ≡ true }
        ensures sound { IsLiveTree self.new }
        ensures kept { HasSameNodes self.old self.new }
        ensures state { state_of self.new ≡ without_property (node_path self.old node) name.now (state_of self.old) }
        ensures stamps { HasSamePropertyStamps self.old self.new }
        ensures others { HasSameChildStamps self.old self.new }
        ensures count { self.new.stamps ≡ self.old.stamps }
    {
        if let Some(row) = self.property_rows.forget(node, name) {
            self.properties[row].value = None;
        }
    }
}
