//! A value that was changed, and the bytes of its fixup sites.
ghost use Rattle.std.specs.Prelude.{◌≡◌, ◌+◌, ◌≤◌, ◌||◌, ℕ, Some, length, OnOk, OnErr};
ghost use Rattle.std.specs.Int.{to_be_bytes, w32};
ghost use Rattle.dt_source.specs.OverlayMeaning.Shifted.{written};
ghost use Rattle.dt_overlay.specs.Fixup.Private.Marks as marks;
ghost use Rattle.dt_overlay.specs.Fixup.Private.Steps.{is_marked};

use crate::fixup::patched_overlay::Change;
use std::alloc::AllocError;

impl Change {
    /// Writes a number at an offset.
    pub(crate) fn write(&mut self, offset: usize, number: u32)
        requires { offset + 4 ≤ length self.old.bytes.items }
        ensures bytes { self.new.bytes.items ≡ written offset (to_be_bytes w32 number) self.old.bytes.items }
        ensures taken { self.new.taken ≡ self.old.taken }
    {
        self.bytes[offset..offset + 4].copy_from_slice(&number.to_be_bytes());
    }

    fn is_marked(&self, index: usize) -> bool
        ensures { result ≡ is_marked (Some self.now) index }
    {
        if index < self.taken.len() {
            return self.taken[index];
        }
        false
    }

    /// Whether one of the four bytes at an offset is that of a site.
    pub(crate) fn is_taken(&self, offset: usize) -> bool
        requires { offset + 4 ≤ length self.now.bytes.items }
        ensures { result ≡ marks.is_taken (Some self.now) offset }
    {
        self.is_marked(offset)
            || self.is_marked(offset + 1)
            || self.is_marked(offset + 2)
            || self.is_marked(offset + 3)
    }

    // Makes a mark for each byte.
    fn widen(&mut self) -> Result<(), AllocError>
        ensures bytes { self.new.bytes ≡ self.old.bytes }
        ensures marks { (i : ℕ) → is_marked (Some self.new) i ≡ is_marked (Some self.old) i }
        ensures wide { OnOk result (length self.new.bytes.items ≤ length self.new.taken.items) }
    {
        let count = self.bytes.len();
        if self.taken.len() < count {
            self.taken.resize(count, false)?;
        }
        Ok(())
    }

    /// Marks the four bytes at an offset as those of a site.
    pub(crate) fn mark(&mut self, offset: usize) -> Result<(), AllocError>
        requires { offset + 4 ≤ length self.old.bytes.items }
        ensures bytes { self.new.bytes ≡ self.old.bytes }
        ensures marks { OnOk result (marks.Marks offset (Some self.old) (Some self.new)) }
        ensures kept { OnErr result ((i : ℕ) → is_marked (Some self.new) i ≡ is_marked (Some self.old) i) }
    {
        self.widen()?;
        for index in offset..offset + 4 {
            self.taken[index] = true;
        }
        Ok(())
    }
}
