//! A prober that watches the run that probes by it.

ghost use Rattle.bus_manager.specs.TableProber.{ShowsTable};

use bus_core::Report;
use bus_manager::{Prober, Seen, TableProber};
use bus_plan::{Device, Plan, Verdict};
use std::alloc::{AllocError, Global};
use std::sync::atomic::{AtomicBool, AtomicU64, Ordering};

/// Answers by the plan alone, and notes how often each device was probed, whether its probe has answered that it settles, how
/// many probes were open at once, and whether one was told of a device that can't be bound yet.
#[derive(Drop)]
pub struct Watching {
    devices: Vec<Watched>,
    open: AtomicU64,
    most_beside: AtomicU64,
    told_wrong: AtomicBool,
}

#[derive(Drop)]
struct Watched {
    probes: AtomicU64,
    settled: AtomicBool,
}

// How long a probe stays open, so that others come beside it.
const TURNS: u64 = 20;

impl Watching {
    /// No probe yet of any of so many devices.
    pub fn new(alloc: Global, count: usize) -> Result<Self, AllocError> {
        let mut devices = Vec::with_capacity(alloc, count)?;
        for _device in 0..count {
            devices.push(Watched {
                probes: AtomicU64::new(0),
                settled: AtomicBool::new(false),
            })?;
        }
        Ok(Watching {
            devices,
            open: AtomicU64::new(0),
            most_beside: AtomicU64::new(0),
            told_wrong: AtomicBool::new(false),
        })
    }

    /// The device settles.
    pub fn settle(&self, device: Device) {
        match self.devices.get(device.index()) {
            Some(watched) => watched.settled.store(true, Ordering::SeqCst),
            None => {}
        }
    }

    /// How often the device was probed.
    pub fn probes(&self, device: Device) -> u64 {
        match self.devices.get(device.index()) {
            Some(watched) => watched.probes.load(Ordering::SeqCst),
            None => 0,
        }
    }

    /// Whether a probe of the device has answered that it settles.
    pub fn has_settled(&self, device: Device) -> bool {
        match self.devices.get(device.index()) {
            Some(watched) => watched.settled.load(Ordering::SeqCst),
            None => false,
        }
    }

    /// The most probes that were open beside one that began.
    pub fn most_beside(&self) -> u64 {
        self.most_beside.load(Ordering::SeqCst)
    }

    /// Whether a probe was told of a device as bound whose own probe hadn't settled it, or whose driver fails.
    pub fn was_told_wrong(&self) -> bool {
        self.told_wrong.load(Ordering::SeqCst)
    }

    fn begin(&self, device: Device) {
        let beside = self.open.fetch_add(1, Ordering::SeqCst);
        self.most_beside.fetch_max(beside, Ordering::SeqCst);
        match self.devices.get(device.index()) {
            Some(watched) => {
                watched.probes.fetch_add(1, Ordering::SeqCst);
            }
            None => {}
        }
    }

    // Whether the device can't be bound yet.
    fn is_unbound(&self, plan: &Plan, device: Device) -> bool {
        device.index() >= plan.len()
            || plan.verdict(device) == Verdict::Fails
            || !self.has_settled(device)
    }

    fn look(&self, plan: &Plan, seen: &Seen) {
        for index in 0..self.devices.len() {
            let device = Device::new(index);
            if seen.contains(device) && self.is_unbound(plan, device) {
                self.told_wrong.store(true, Ordering::SeqCst);
            }
        }
    }

    fn stay(&self) {
        for _turn in 0..TURNS {
            std::thread::yield_now();
        }
    }
}

impl Prober for Watching {
    type Note = Device;

    ghost attests = { λ prober plan device seen report note. ShowsTable plan device seen report note };

    fn probe(&self, plan: &Plan, device: Device, seen: &Seen) -> (Report, Device) {
        self.begin(device);
        self.look(plan, seen);
        self.stay();
        let (report, note) = TableProber.probe(plan, device, seen);
        if report == Report::Settled {
            self.settle(device);
        }
        self.open.fetch_sub(1, Ordering::SeqCst);
        (report, note)
    }
}
