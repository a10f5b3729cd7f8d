//! How often a run probes each device, where memory is ample: one that can't be woken once, each other one twice at most. A
//! run that loses a worker's notes or goes on alone from nothing probes more.

use crate::runs::{Sharing, run_by};
use crate::shapes::{DEVICES, Drivers, SHAPES, Shape, is_woken, plan_text};
use crate::watching::Watching;
use bus_plan::{Device, Plan, read_plan};
use std::alloc::Global;
use std::hash::RandomState;
use std::process::Abort;
use std::sync::Wait;
use std::thread::Threads;

/// Runs by each number of workers.
pub(crate) const RUNS: &[(Sharing, usize)] = &[
    (Sharing::Board, 1),
    (Sharing::Board, 2),
    (Sharing::Board, 4),
    (Sharing::Board, 16),
    (Sharing::Board, 64),
    (Sharing::Lock, 1),
    (Sharing::Lock, 2),
    (Sharing::Lock, 4),
    (Sharing::Lock, 16),
    (Sharing::Lock, 64),
];

fn is_probed(rt: &impl Abort, prober: &Watching, shape: Shape, device: u32, workers: usize) {
    let probes = prober.probes(Device::new(device as usize));
    let most = if is_woken(shape, device) { 2 } else { 1 };
    assert!(rt;
        0 < probes && probes <= most,
        "{shape:?} by {workers}: {device} has {probes} probes"
    );
}

fn counted_run<R: Threads + Wait + Sync + Abort>(
    rt: &R,
    alloc: Global,
    shape: Shape,
    plan: &Plan,
    sharing: Sharing,
    workers: usize,
) {
    let prober = Watching::new(alloc, plan.len()).expect(rt, "room");
    let _ran = run_by(sharing, rt, alloc, plan, &prober, workers).expect(rt, "a run");
    for device in 0..DEVICES {
        is_probed(rt, &prober, shape, device, workers);
    }
}

fn counted_runs<R: Threads + Wait + Sync + Abort>(
    rt: &R,
    alloc: Global,
    hasher: RandomState,
    shape: Shape,
) {
    let text = plan_text(alloc, shape, Drivers::AllBind).expect(rt, "a text");
    let plan = read_plan(alloc, hasher, text.as_str().as_bytes()).expect(rt, "a plan");
    for (sharing, workers) in RUNS {
        counted_run(rt, alloc, shape, &plan, *sharing, *workers);
    }
}

#[test]
fn probes_no_device_too_often(rt: HostRuntime) {
    let hasher = RandomState::new(&rt).expect(&rt, "a seed");
    for shape in SHAPES {
        counted_runs(&rt, rt.alloc(), hasher, *shape);
    }
}
