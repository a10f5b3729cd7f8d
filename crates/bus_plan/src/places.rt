ghost use Rattle.std.specs.Prelude.{◌≡◌, ◌||◌, ℕ, true, Bool, [], OnOk};
ghost use Rattle.std.specs.List.{list_any};
ghost use Rattle.bus_plan.specs.Private.Places.{are_once};

use indexmap::IndexSet;
use std::alloc::{AllocError, Global};
use std::hash::RandomState;
use std::marker::Model;

/// Places in a list, each once, in the order in which they came.
#[derive(Drop)]
pub struct Places {
    set: IndexSet<usize, RandomState>,
}

impl Model for Places {
    ghost use Rattle.std.specs.Prelude.{List, ℕ};

    ghost Value = { List ℕ };

    ghost view = { λ places. places.set.keys };
}

impl Places {
    /// No places.
    pub fn new(alloc: Global, hasher: RandomState) -> Self
        ensures { result ≡ [] }
    {
        Self {
            set: IndexSet::with_hasher(alloc, hasher),
        }
    }

    /// The places.
    pub fn as_slice(&self) -> &[usize]
        ensures places { result.now ≡ self.now }
        ensures once { are_once self.now ≡ true }
    {
        self.set.as_slice()
    }

    /// Adds a place, unless it is there already.
    pub fn add(&mut self, place: usize) -> Result<(), AllocError>
        ensures { OnOk result ((test : ℕ → Bool) → list_any test self.new ≡ (list_any test self.old || test place)) }
    {
        self.set.insert(place)?;
        Ok(())
    }
}
