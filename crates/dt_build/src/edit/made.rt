//! The fragments that a plugin made so far.
ghost use Rattle.std.specs.Prelude.{◌≡◌, ◌+◌, ◌<◌, ◌^◌, ◌-◌, ◌==◌, ◌&&◌, OnOk};
ghost use Rattle.dt_source.specs.TreeMeaning.Names.{fragment_name, is_fragment};
ghost use Rattle.dt_build.specs.Edit.Private.Made.{IsExact};

use std::alloc::{AllocError, Global};
use std::collections::BTreeSet;

/// How many fragments were made, and their names as a set.
#[derive(Drop)]
pub struct Made<'d> {
    pub names: BTreeSet<&'d [u8]>,
    pub count: usize,
}

impl<'d> Made<'d> {
    /// Before the first fragment.
    pub fn new(alloc: Global) -> Self
        ensures exact { IsExact result }
        ensures none { result.count ≡ 0 }
    {
        Made {
            names: BTreeSet::new(alloc),
            count: 0,
        }
    }

    /// Whether the name of a child is that of a fragment, which only children of the root can have.
    pub fn is_taken(&self, parent: usize, name: &'d [u8]) -> bool
        requires exact { IsExact self.now }
        ensures { result ≡ ((parent == 0) && is_fragment self.now.count name.now) }
    {
        if parent != 0 {
            return false;
        }
        self.names.contains(&name)
    }

    /// Adds the next fragment by its name.
    pub fn add(&mut self, name: &'d [u8]) -> Result<(), AllocError>
        requires exact { IsExact self.old }
        requires few { self.old.count < 2 ^ 64 - 1 }
        requires next { name.now ≡ fragment_name self.old.count }
        ensures exact { OnOk result (IsExact self.new) }
        ensures count { OnOk result (self.new.count ≡ self.old.count + 1) }
    {
        self.names.insert(name)?;
        self.count += 1;
        Ok(())
    }
}
