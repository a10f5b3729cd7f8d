//! A prober whose first probe waits for the second, which shows that two workers probe at once.

ghost use Rattle.bus_manager.specs.TableProber.{ShowsTable};

use bus_core::Report;
use bus_manager::{Prober, Seen, TableProber};
use bus_plan::{Device, Plan};
use std::sync::atomic::{AtomicU64, Ordering};

/// Holds its first call until the second is answered, for at most so many turns.
#[derive(Drop)]
pub struct Gate {
    begun: AtomicU64,
    answered: AtomicU64,
    // how many calls were answered when the first was let go
    let_go_at: AtomicU64,
}

const TURNS: u64 = 10_000_000;

impl Gate {
    /// Before the first call.
    pub fn new() -> Self {
        Gate {
            begun: AtomicU64::new(0),
            answered: AtomicU64::new(0),
            let_go_at: AtomicU64::new(0),
        }
    }

    /// Whether two calls were answered, the second while the first was held.
    pub fn has_overlapped(&self) -> bool {
        let answered = self.answered.load(Ordering::SeqCst);
        let let_go_at = self.let_go_at.load(Ordering::SeqCst);
        (answered, let_go_at) == (2, 1)
    }
}

impl Prober for Gate {
    type Note = Device;

    ghost attests = { λ prober plan device seen report note. ShowsTable plan device seen report note };

    fn probe(&self, plan: &Plan, device: Device, seen: &Seen) -> (Report, Device) {
        if self.begun.fetch_add(1, Ordering::SeqCst) == 0 {
            for _turn in 0..TURNS {
                if self.answered.load(Ordering::SeqCst) > 0 {
                    break;
                }
                std::thread::yield_now();
            }
            self.let_go_at
                .store(self.answered.load(Ordering::SeqCst), Ordering::SeqCst);
        }
        let answer = TableProber.probe(plan, device, seen);
        self.answered.fetch_add(1, Ordering::SeqCst);
        answer
    }
}
