//! Who of a locked run's workers comes next to look for a due device. These are plain counts: nothing rests on what they say.

ghost use Rattle.std.specs.Prelude.{◌≡◌, ◌<◌, true};

use crate::crew::Crew;
use std::sync::atomic::{AtomicBool, AtomicUsize, Ordering};
use std::sync::{Condvar, MutexGuard, Wait};

/// The crew of a run, and how many of it wait. One at a time is on its way to look, woken or let begin: who then takes a device
/// sends the next one where a further device is due, so as many are awake as there is work for.
#[derive(Drop)]
pub struct Baton {
    crew: Crew,
    changed: Condvar,
    waiting: AtomicUsize,
    coming: AtomicBool,
}

impl Baton {
    /// One worker is at work, of so many that were asked for, and it comes to look.
    pub fn new(asked: usize) -> Baton {
        Baton {
            crew: Crew::new(asked),
            changed: Condvar::new(),
            waiting: AtomicUsize::new(0),
            coming: AtomicBool::new(false),
        }
    }

    /// A device is due that the caller doesn't take: one that waits is woken, where nobody is on the way. Where nobody waits
    /// either it says whether a further worker begins, which has to be let begin then.
    pub fn pass_on(&self, forks: usize) -> bool
        ensures { result ≡ true → 0 < forks }
    {
        if self.coming.swap(true, Ordering::SeqCst) {
            return false;
        }
        if self.waiting.load(Ordering::SeqCst) > 0 {
            self.changed.notify_one();
            return false;
        }
        if forks > 0 && self.crew.enlist() {
            return true;
        }
        self.coming.store(false, Ordering::SeqCst);
        false
    }

    /// A worker comes to look.
    pub fn arrive(&self) {
        self.coming.store(false, Ordering::SeqCst);
    }

    /// Lets go of the lock until a further device may be due. Whoever was on the way finds nothing either, so the next who
    /// leaves a due device behind wakes one again; that who waits is counted first keeps it from being passed over.
    pub fn wait<'b, R: Wait, T>(&self, rt: &R, guard: MutexGuard<'b, T>) -> MutexGuard<'b, T> {
        self.waiting.fetch_add(1, Ordering::SeqCst);
        self.arrive();
        let guard = self.changed.wait(rt, guard);
        self.waiting.fetch_sub(1, Ordering::SeqCst);
        self.arrive();
        guard
    }

    /// Whoever waits looks again.
    pub fn wake_all(&self) {
        self.changed.notify_all();
    }
}
