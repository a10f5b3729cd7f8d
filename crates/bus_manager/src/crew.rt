//! How many workers of a run are at work. These are plain counts: nothing rests on what they say.

use std::sync::atomic::{AtomicBool, AtomicUsize, Ordering};

/// How many workers were asked for, how many are at work, and whether memory was refused to one.
#[derive(Drop)]
pub struct Crew {
    asked: usize,
    working: AtomicUsize,
    short: AtomicBool,
}

impl Crew {
    /// One worker is at work, of so many that were asked for.
    pub fn new(asked: usize) -> Crew {
        Crew {
            asked,
            working: AtomicUsize::new(1),
            short: AtomicBool::new(false),
        }
    }

    /// Whether fewer are at work than were asked for.
    pub fn has_room(&self) -> bool {
        self.working.load(Ordering::SeqCst) < self.asked
    }

    /// A further worker begins, where there is room, and says whether there was.
    pub fn enlist(&self) -> bool {
        if self.working.fetch_add(1, Ordering::SeqCst) < self.asked {
            return true;
        }
        self.leave();
        false
    }

    /// A worker leaves.
    pub fn leave(&self) {
        self.working.fetch_sub(1, Ordering::SeqCst);
    }

    /// Memory was refused to a worker.
    pub fn run_short(&self) {
        self.short.store(true, Ordering::SeqCst);
    }

    /// Whether memory was refused to one.
    pub fn is_short(&self) -> bool {
        self.short.load(Ordering::SeqCst)
    }
}
