//! Lists of nodes or rows by their owner.
ghost use Rattle.std.specs.Prelude.{◌≡◌, ◌<◌, [], ℕ, IfOk, OnOk};
ghost use Rattle.dt_live.specs.Private.Lists.{IsPushed, list_count, list_of};

use std::alloc::{AllocError, Global};

/// A list of nodes or rows for each owner.
#[derive(Drop)]
pub struct Lists {
    pub(crate) lists: Vec<Vec<usize>>,
}

impl Lists {
    /// An empty list for each.
    pub fn new(alloc: Global, count: usize) -> Result<Self, AllocError>
        ensures count { IfOk result (λ lists. list_count lists ≡ count) }
        ensures none { IfOk result (λ lists. (n : ℕ) → list_of lists n ≡ []) }
    {
        let mut lists = Vec::with_capacity(alloc, count)?;
        for _ in 0..count {
            lists.push(Vec::new(alloc))?;
        }
        Ok(Lists { lists })
    }

    /// Puts one behind the others of its owner.
    pub fn push(&mut self, owner: usize, number: usize) -> Result<(), AllocError>
        requires { owner < list_count self.old }
        ensures count { OnOk result (list_count self.new ≡ list_count self.old) }
        ensures lists { OnOk result (IsPushed owner number self.old self.new) }
    {
        self.lists[owner].push(number)?;
        Ok(())
    }

    /// The list of an owner.
    pub fn of(&self, owner: usize) -> &[usize]
        requires { owner < list_count self.now }
        ensures { result.now ≡ list_of self.now owner }
    {
        self.lists[owner].as_slice()
    }
}
