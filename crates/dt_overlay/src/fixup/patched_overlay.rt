//! An overlay's rows, with the values that were changed.
ghost use Rattle.std.specs.Prelude.{◌≡◌, ◌+◌, ◌<◌, ◌≤◌, ℕ, not, length, take, drop, IfOk, IfSome, OnOk, OnErr, IsSome};
ghost use Rattle.std.specs.Int.{from_be_bytes, w32};
ghost use Rattle.dt_tree.specs.Path.{path_names};
ghost use Rattle.dt_live.specs.ByRow.{lent};
ghost use Rattle.dt_live.specs.Flattened.{IsOrdered, IsWhole};
ghost use Rattle.dt_live.specs.Rows.{IsNode, IsNodeAt, child_of, property_of};
ghost use Rattle.dt_overlay.specs.Fixup.PatchedData.{IsPatched, patched_data};
ghost use Rattle.dt_overlay.specs.Fixup.PatchedOverlay.{change_at, value_at};
ghost use Rattle.dt_overlay.specs.Fixup.Private.Marks.{KeepsMarks, MarksFree, MarksSite, is_taken};
ghost use Rattle.dt_overlay.specs.Fixup.Private.Rows.{IsWritten};

use dt_live::{LiveTree, NodeRow, PropertyRow};
use dt_tree::cell_at;
use std::alloc::AllocError;
use std::marker::Model;

/// A value that was changed, and which of its bytes are those of fixup sites.
#[derive(Drop)]
pub struct Change {
    pub(crate) bytes: Vec<u8>,
    // what lies behind its end isn't that of a site
    pub(crate) taken: Vec<bool>,
}

/// An overlay's rows, and the change of each property.
#[derive(Drop)]
pub struct PatchedOverlay<'t> {
    live: LiveTree<'t, &'t [u8]>,
    changes: Vec<Option<Change>>,
}

impl<'t> Model for PatchedOverlay<'t> {
    ghost use Rattle.std.specs.Coded.{codes};
    ghost use Rattle.indexmap.specs.Layout.{hash_set_code};
    ghost use Rattle.dt_overlay.specs.Fixup.PatchedData.{PatchedData, IsPatched, patched_data};

    ghost Value = { PatchedData };

    ghost coded = { Prim.hlevel (codes, hash_set_code) };

    ghost view = { λ p. patched_data p.live p.changes.items };

    ghost invariant = { λ p. IsPatched (patched_data p.live p.changes.items) };
}

/// The bytes of a property's value, none where it was removed.
pub(crate) fn lent<'t>(value: Option<&'t [u8]>) -> &'t [u8]
    ensures { result.now ≡ lent value.entry }
{
    match value {
        Some(bytes) => bytes,
        None => &[],
    }
}

impl<'t> PatchedOverlay<'t> {
    /// An overlay's rows, with room for the change of each property.
    pub(crate) fn new(live: LiveTree<'t, &'t [u8]>, changes: Vec<Option<Change>>) -> Self
        requires whole { IsWhole live }
        requires ordered { IsOrdered live }
        requires count { length changes.items ≡ length live.properties.items }
        ensures { result ≡ patched_data live.entry changes.items }
    {
        PatchedOverlay { live, changes }
    }

    /// Costs nothing: tells a caller's proof what is true of each patched overlay.
    pub fn check(&self)
        ensures { IsPatched self.now }
    {
        let _ = &self.live;
    }

    /// The overlay's rows as they were read.
    pub fn live(&self) -> &LiveTree<'t, &'t [u8]>
        ensures tree { result.now ≡ self.now.live }
        ensures whole { IsWhole result.now }
    {
        &self.live
    }

    /// The rows of its nodes below the root.
    pub(crate) fn nodes(&self) -> &[NodeRow<'t>]
        ensures { result.now ≡ self.now.live.nodes.items }
    {
        self.live.nodes()
    }

    /// The rows of its properties, with the values as they were read.
    pub(crate) fn properties(&self) -> &[PropertyRow<'t, &'t [u8]>]
        ensures { result.now ≡ self.now.live.properties.items }
    {
        self.live.properties()
    }

    /// The row of a node's property.
    pub(crate) fn property(&self, node: usize, name: &'t [u8]) -> Option<usize>
        ensures { result ≡ property_of self.now.live node name.now }
    {
        self.live.property(node, name)
    }

    /// A node's child of this name.
    pub(crate) fn child(&self, parent: usize, name: &'t [u8]) -> Option<usize>
        ensures { result ≡ child_of self.now.live parent name.now }
    {
        self.live.child(parent, name)
    }

    /// The node at a path.
    pub(crate) fn at_path(&self, path: &'t [u8]) -> Option<usize>
        ensures path { IsNodeAt self.now.live (path_names path.now) result }
        ensures known { IfSome result (λ node. IsNode self.now.live node) }
    {
        self.live.at_path(path)
    }

    /// The value of a property as it is now.
    pub fn value(&self, property: usize) -> &[u8]
        requires known { property < length self.now.live.properties.items }
        ensures { result.now ≡ value_at self.now property }
    {
        match &self.changes[property] {
            Some(change) => change.bytes.as_slice(),
            None => lent(self.live.properties()[property].value),
        }
    }

    /// The number in the four bytes at an offset of a property's value.
    pub(crate) fn number_at(&self, property: usize, offset: usize) -> u32
        requires known { property < length self.now.live.properties.items }
        requires fits { offset + 4 ≤ length (value_at self.now property) }
        ensures { result ≡ from_be_bytes w32 (take 4 (drop offset (value_at self.now property))) }
    {
        cell_at(self.value(property), offset)
    }

    // Makes the change of a property where there is none, with the value as it is.
    fn open(&mut self, property: usize) -> Result<(), AllocError>
        requires known { property < length self.old.live.properties.items }
        ensures live { self.new.live ≡ self.old.live }
        ensures values { (k : ℕ) → value_at self.new k ≡ value_at self.old k }
        ensures marks { KeepsMarks self.old self.new }
        ensures open { OnOk result (IsSome (change_at self.new property)) }
        ensures kept { OnErr result (self.new ≡ self.old) }
    {
        if self.changes[property].is_some() {
            return Ok(());
        }
        let alloc = *self.changes.allocator();
        let bytes = Vec::from_slice(alloc, self.value(property))?;
        self.changes[property] = Some(Change {
            bytes,
            taken: Vec::new(alloc),
        });
        Ok(())
    }

    /// Writes a number at an offset of a property's value.
    pub(crate) fn write(
        &mut self,
        property: usize,
        offset: usize,
        number: u32,
    ) -> Result<(), AllocError>
        requires known { property < length self.old.live.properties.items }
        requires fits { offset + 4 ≤ length (value_at self.old property) }
        ensures live { self.new.live ≡ self.old.live }
        ensures values { OnOk result (IsWritten property offset number self.old self.new) }
        ensures marks { OnOk result (KeepsMarks self.old self.new) }
        ensures kept { OnErr result (self.new ≡ self.old) }
    {
        self.open(property)?;
        if let Some(change) = &mut self.changes[property] {
            change.write(offset, number);
        }
        Ok(())
    }

    // Whether one of the four bytes at an offset is that of a site.
    fn is_taken(&self, property: usize, offset: usize) -> bool
        requires known { property < length self.now.live.properties.items }
        requires fits { offset + 4 ≤ length (value_at self.now property) }
        ensures { result ≡ is_taken (change_at self.now property) offset }
    {
        match &self.changes[property] {
            Some(change) => change.is_taken(offset),
            None => false,
        }
    }

    // Marks the four bytes at an offset of a property that has a change.
    fn mark(&mut self, property: usize, offset: usize) -> Result<(), AllocError>
        requires known { property < length self.old.live.properties.items }
        requires fits { offset + 4 ≤ length (value_at self.old property) }
        requires open { IsSome (change_at self.old property) }
        ensures live { self.new.live ≡ self.old.live }
        ensures values { (k : ℕ) → value_at self.new k ≡ value_at self.old k }
        ensures marks { OnOk result (MarksSite property offset self.old self.new) }
        ensures kept { OnErr result (KeepsMarks self.old self.new) }
    {
        if let Some(change) = &mut self.changes[property] {
            change.mark(offset)?;
        }
        Ok(())
    }

    /// Takes the four bytes at an offset for a site, and answers whether they were free.
    pub(crate) fn take(&mut self, property: usize, offset: usize) -> Result<bool, AllocError>
        requires known { property < length self.old.live.properties.items }
        requires fits { offset + 4 ≤ length (value_at self.old property) }
        ensures live { self.new.live ≡ self.old.live }
        ensures values { (k : ℕ) → value_at self.new k ≡ value_at self.old k }
        ensures free { IfOk result (λ free. free ≡ not (is_taken (change_at self.old property) offset)) }
        ensures marks { IfOk result (λ free. MarksFree free property offset self.old self.new) }
        ensures kept { OnErr result (KeepsMarks self.old self.new) }
    {
        if self.is_taken(property, offset) {
            return Ok(false);
        }
        self.open(property)?;
        self.mark(property, offset)?;
        Ok(true)
    }
}
