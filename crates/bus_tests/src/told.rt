//! What a run tells its probes, in which order, how many are open at once, and which devices it leaves alone.

use crate::cores::{opened, step};
use crate::counts::RUNS;
use crate::runs::{Sharing, run_by};
use crate::shapes::{Drivers, SHAPES, Shape, plan_text};
use crate::watching::Watching;
use bus_core::Core;
use bus_manager::{Ran, RunError, run_core};
use bus_plan::{Device, Plan, read_plan};
use std::alloc::Global;
use std::hash::RandomState;
use std::process::Abort;
use std::sync::Wait;
use std::thread::Threads;

const DRIVERS: [Drivers; 2] = [Drivers::AllBind, Drivers::SomeFail];

// That each note is of a probe of its device which answered that the device settles.
fn are_probed(rt: &impl Abort, prober: &Watching, ran: &Ran<Device>, name: &str) {
    for (index, note) in ran.notes.iter().enumerate() {
        if let Some(noted) = note {
            assert_eq!(rt; noted.index(), index, "{name}");
            assert!(rt; prober.has_settled(*noted), "{name}: /d{index}");
        }
    }
}

// That each probe was told of devices that were bound when it began, and that no more were open at once than there are workers.
fn is_told(
    rt: &impl Abort,
    prober: &Watching,
    answer: Result<Ran<Device>, RunError>,
    workers: usize,
    name: &str,
) {
    let ran = answer.expect(rt, "a run");
    are_probed(rt, prober, &ran, name);
    assert!(rt; !prober.was_told_wrong(), "{name} by {workers}");
    let beside = prober.most_beside();
    assert!(rt;
        beside < workers as u64,
        "{name} by {workers}: {beside} beside one"
    );
}

fn run_is_told<R: Threads + Wait + Sync + Abort>(
    rt: &R,
    alloc: Global,
    plan: &Plan,
    sharing: Sharing,
    workers: usize,
    name: &str,
) {
    let prober = Watching::new(alloc, plan.len()).expect(rt, "room");
    let answer = run_by(sharing, rt, alloc, plan, &prober, workers);
    is_told(rt, &prober, answer, workers, name);
}

fn runs_are_told<R: Threads + Wait + Sync + Abort>(
    rt: &R,
    alloc: Global,
    hasher: RandomState,
    shape: Shape,
    drivers: Drivers,
) {
    let text = plan_text(alloc, shape, drivers).expect(rt, "a text");
    let plan = read_plan(alloc, hasher, text.as_str().as_bytes()).expect(rt, "a plan");
    let name = format!(in alloc; "{shape:?} {drivers:?}").expect(rt, "a name");
    for (sharing, workers) in RUNS {
        run_is_told(rt, alloc, &plan, *sharing, *workers, name.as_str());
    }
}

/// By each kind of run, over each shape of a plan.
#[test]
fn probes_are_told_of_bound_devices(rt: HostRuntime) {
    let hasher = RandomState::new(&rt).expect(&rt, "a seed");
    for shape in SHAPES {
        for drivers in DRIVERS {
            runs_are_told(&rt, rt.alloc(), hasher, *shape, drivers);
        }
    }
}

// The core of a shape's plan after so many probes, or as many as it takes.
fn core_after<R: Abort>(
    rt: &R,
    alloc: Global,
    hasher: RandomState,
    shape: Shape,
    drivers: Drivers,
    probes: usize,
) -> Core {
    let text = plan_text(alloc, shape, drivers).expect(rt, "a text");
    let mut core = opened(rt, alloc, hasher, text.as_str().as_bytes());
    for _probe in 0..probes {
        let _more = step(rt, &mut core);
    }
    core
}

// The devices that have settled in a core, of which a prober is told.
fn settled_in(rt: &impl Abort, alloc: Global, core: &Core, prober: &Watching) -> Vec<Device> {
    let mut devices = Vec::new(alloc);
    for settled in core.history() {
        prober.settle(settled.device);
        devices.push(settled.device).expect(rt, "room");
    }
    devices
}

fn are_left_alone(rt: &impl Abort, prober: &Watching, devices: &[Device], name: &str) {
    for device in devices {
        let probes = prober.probes(*device);
        assert_eq!(rt; probes, 0, "{name}: /d{}", device.index());
    }
}

fn core_is_told<R: Threads + Sync + Abort>(
    rt: &R,
    alloc: Global,
    core: Core,
    workers: usize,
    name: &str,
) {
    let prober = Watching::new(alloc, core.plan().len()).expect(rt, "room");
    let before = settled_in(rt, alloc, &core, &prober);
    let answer = run_core(rt, alloc, core, &prober, workers);
    is_told(rt, &prober, answer, workers, name);
    are_left_alone(rt, &prober, before.as_slice(), name);
}

fn cores_are_told<R: Threads + Sync + Abort>(
    rt: &R,
    alloc: Global,
    hasher: RandomState,
    shape: Shape,
    drivers: Drivers,
) {
    let name = format!(in alloc; "{shape:?} {drivers:?}").expect(rt, "a name");
    for probes in [0, 1, 20, 55, 1_000] {
        for workers in [1, 2, 4, 64] {
            let core = core_after(rt, alloc, hasher, shape, drivers, probes);
            core_is_told(rt, alloc, core, workers, name.as_str());
        }
    }
}

/// A run that goes on from a core probes no device that had settled in it.
#[test]
fn settled_devices_are_left_alone(rt: HostRuntime) {
    let hasher = RandomState::new(&rt).expect(&rt, "a seed");
    for shape in SHAPES {
        for drivers in DRIVERS {
            cores_are_told(&rt, rt.alloc(), hasher, *shape, drivers);
        }
    }
}
