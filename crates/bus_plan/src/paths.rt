ghost use Rattle.std.specs.Prelude.{◌≡◌, ℕ, List, ◌++◌, ◌∷◌, ◌-◌, ◌≢◌, length, take, [], AllPairs, IfOk, OnOk, OnErr, position, false};
ghost use Rattle.std.specs.List.{list_any};
ghost use Rattle.std.specs.Str.{bytes_eq};
ghost use Rattle.bus_plan.specs.Plan.{paths};
ghost use Rattle.bus_plan.specs.PlanPaths.{is_among};

use crate::planned::Planned;
use indexmap::IndexSet;
use std::alloc::{AllocError, Global};
use std::hash::RandomState;
use std::marker::Model;

/// Paths that differ, in order, each found by its bytes without a walk. The hasher is random, since paths come from
/// strangers.
#[derive(Drop)]
pub struct PathIndex {
    set: IndexSet<Vec<u8>, RandomState>,
}

impl Model for PathIndex {
    ghost use Rattle.std.specs.Prelude.{List, ℕ, map};

    ghost Value = { List (List ℕ) };

    ghost view = { λ index. map (λ path. path.items) index.set.keys };
}

impl PathIndex {
    /// No paths.
    pub fn new(alloc: Global, hasher: RandomState) -> Self
        ensures { result ≡ [] }
    {
        Self {
            set: IndexSet::with_hasher(alloc, hasher),
        }
    }

    /// The paths of these devices.
    pub fn of(alloc: Global, hasher: RandomState, devices: &[Planned]) -> Result<Self, AllocError>
        requires { AllPairs (λ a b. a ≢ b) (paths devices.now) }
        ensures { IfOk result (λ index. index ≡ paths devices.now) }
    {
        let mut index = Self::new(alloc, hasher);
        for device in devices {
            let path = device.path().as_bytes();
            index.push(alloc, path)?;
        }
        Ok(index)
    }

    /// What it hashes with.
    pub fn hasher(&self) -> RandomState {
        *self.set.hasher()
    }

    /// The place of a path.
    pub fn position(&self, path: &[u8]) -> Option<usize>
        ensures { result ≡ position (bytes_eq path.now) self.now }
    {
        self.set.get_index_of(path)
    }

    /// Whether a path is there.
    pub fn contains(&self, path: &[u8]) -> bool
        ensures { result ≡ list_any (bytes_eq path.now) self.now }
    {
        self.set.contains(path)
    }

    /// Takes the last path out again.
    pub fn forget_last(&mut self)
        ensures { self.new ≡ take (length self.old - 1) self.old }
    {
        let count = self.set.len().saturating_sub(1);
        self.set.truncate(count);
    }

    /// Puts a new path last.
    pub fn push(&mut self, alloc: Global, path: &[u8]) -> Result<(), AllocError>
        requires { list_any (bytes_eq path.now) self.old ≡ false }
        ensures ok { OnOk result (self.new ≡ self.old ++ path.now ∷ []) }
        ensures err { OnErr result (self.new ≡ self.old) }
    {
        let key = Vec::from_slice(alloc, path)?;
        self.set.insert(key)?;
        Ok(())
    }

    /// Puts a path last, unless it is there already.
    pub fn add(&mut self, alloc: Global, path: &[u8]) -> Result<(), AllocError>
        ensures { OnOk result ((q : List ℕ) → is_among q self.new ≡ is_among q (path.now ∷ self.old)) }
    {
        if self.contains(path) {
            return Ok(());
        }
        self.push(alloc, path)
    }
}
