//! What the engines' runs tell their probes, in which order, how many are open at once, and which devices they leave alone.

use bus_manager::Ran;
use bus_plan::Device;
use bus_tests::shapes::{DEVICES, Drivers, Shape, is_failing, needs, plan_text};
use bus_tests::watching::Watching;
use dtman_engine::{Fault, compile_bytes, plan_bytes, probe_bytes, replay_run_bytes};
use std::alloc::Global;
use std::hash::RandomState;
use std::process::Abort;
use std::thread::Threads;

const SHAPES: &[Shape] = &[
    Shape::ChainUp,
    Shape::ChainDown,
    Shape::FanOut,
    Shape::FanIn,
    Shape::Diamonds,
];

const DRIVERS: [Drivers; 2] = [Drivers::AllBind, Drivers::SomeFail];

const WORKERS: [usize; 4] = [1, 2, 4, 64];

fn add(rt: &impl Abort, text: &mut String, more: &str) {
    text.push_str(more).expect(rt, "room");
}

fn add_suppliers(rt: &impl Abort, alloc: Global, source: &mut String, shape: Shape, device: u32) {
    for supplier in 0..DEVICES {
        if needs(shape, device, supplier) {
            let phandle = format!(in alloc; " &d{supplier}").expect(rt, "a text");
            add(rt, source, phandle.as_str());
        }
    }
}

fn add_node(rt: &impl Abort, alloc: Global, source: &mut String, shape: Shape, device: u32) {
    let head = format!(in alloc;
        "d{device}: d{device} {{ compatible = \"x\"; #clock-cells = <0>; clocks = <"
    );
    let head = head.expect(rt, "a text");
    add(rt, source, head.as_str());
    add_suppliers(rt, alloc, source, shape, device);
    add(rt, source, ">; };\n");
}

// A source whose devices need each other so.
fn source(rt: &impl Abort, alloc: Global, shape: Shape) -> String {
    let mut source = String::new(alloc);
    add(rt, &mut source, "/dts-v1/;\n/ {\n");
    for device in 0..DEVICES {
        add_node(rt, alloc, &mut source, shape, device);
    }
    add(rt, &mut source, "};\n");
    source
}

fn driver_file(rt: &impl Abort, alloc: Global, drivers: Drivers) -> String {
    let mut file = String::new(alloc);
    add(rt, &mut file, "driver x x\n");
    for device in 0..DEVICES {
        if is_failing(drivers, device) {
            let line = format!(in alloc; "fail /d{device}\n").expect(rt, "a text");
            add(rt, &mut file, line.as_str());
        }
    }
    file
}

// That each probe was told of devices that were bound when it began, and that no more were open at once than there are workers.
fn is_told(
    rt: &impl Abort,
    prober: &Watching,
    answer: Result<Ran<Device>, Fault>,
    workers: usize,
    name: &str,
) {
    assert!(rt; answer.is_ok(), "{name}: no run");
    assert!(rt; !prober.was_told_wrong(), "{name} by {workers}");
    let beside = prober.most_beside();
    assert!(rt;
        beside < workers as u64,
        "{name} by {workers}: {beside} beside one"
    );
}

fn blob_is_told<R: Threads + Sync + Abort>(
    rt: &R,
    alloc: Global,
    hasher: RandomState,
    input: (&[u8], &[u8]),
    workers: usize,
    name: &str,
) {
    let (blob, drivers) = input;
    let prober = Watching::new(alloc, DEVICES as usize).expect(rt, "room");
    let answer = probe_bytes(rt, alloc, hasher, blob, drivers, &prober, workers);
    is_told(rt, &prober, answer, workers, name);
}

fn blobs_are_told<R: Threads + Sync + Abort>(
    rt: &R,
    alloc: Global,
    hasher: RandomState,
    shape: Shape,
    drivers: Drivers,
) {
    let name = format!(in alloc; "{shape:?} {drivers:?}").expect(rt, "a name");
    let text = source(rt, alloc, shape);
    let file = driver_file(rt, alloc, drivers);
    let blob = compile_bytes(alloc, hasher, text.as_bytes(), false)
        .ok()
        .expect(rt, "a blob");
    let plan = plan_bytes(alloc, hasher, blob.as_slice(), file.as_bytes())
        .ok()
        .expect(rt, "a plan");
    let wanted = plan_text(alloc, shape, drivers).expect(rt, "a text");
    assert_eq!(rt; plan.as_slice(), wanted.as_bytes(), "{name}");
    for workers in WORKERS {
        let input = (blob.as_slice(), file.as_bytes());
        blob_is_told(rt, alloc, hasher, input, workers, name.as_str());
    }
}

/// A probe of a blob's device is told of the devices that are bound when it begins.
#[test]
fn probes_of_blobs_are_told_of_bound_devices(rt: HostRuntime) {
    let hasher = RandomState::new(&rt).expect(&rt, "a seed");
    for shape in SHAPES {
        for drivers in DRIVERS {
            blobs_are_told(&rt, rt.alloc(), hasher, *shape, drivers);
        }
    }
}

// A schedule that settles each of the devices, which need no other one that isn't among those before them.
fn schedule(rt: &impl Abort, alloc: Global, settled: &[u32]) -> String {
    let mut lines = String::new(alloc);
    for device in settled {
        let both = format!(in alloc; "begin /d{device}\nfinish /d{device} settled\n");
        let both = both.expect(rt, "a text");
        add(rt, &mut lines, both.as_str());
    }
    lines
}

// Tells the prober of the devices that settle before the run.
fn tell(prober: &Watching, settled: &[u32]) {
    for device in settled {
        prober.settle(Device::new(*device as usize));
    }
}

fn are_left_alone(rt: &impl Abort, prober: &Watching, settled: &[u32], name: &str) {
    for device in settled {
        let probes = prober.probes(Device::new(*device as usize));
        assert_eq!(rt; probes, 0, "{name}: /d{device}");
    }
}

fn schedule_is_told<R: Threads + Sync + Abort>(
    rt: &R,
    alloc: Global,
    hasher: RandomState,
    row: &(Shape, &[u32]),
    drivers: Drivers,
    workers: usize,
) {
    let (shape, settled) = row;
    let name = format!(in alloc; "{shape:?} {drivers:?}").expect(rt, "a name");
    let plan = plan_text(alloc, *shape, drivers).expect(rt, "a text");
    let lines = schedule(rt, alloc, *settled);
    let (plan, lines) = (plan.as_bytes(), lines.as_bytes());
    let prober = Watching::new(alloc, DEVICES as usize).expect(rt, "room");
    tell(&prober, *settled);
    let answer = replay_run_bytes(rt, alloc, hasher, plan, lines, &prober, workers);
    is_told(rt, &prober, answer, workers, name.as_str());
    are_left_alone(rt, &prober, *settled, name.as_str());
}

// A shape, and devices that settle by a schedule in this order.
const SCHEDULES: &[(Shape, &[u32])] = &[
    (Shape::Flat, &[5, 9, 47, 0]),
    (Shape::ChainUp, &[0, 1, 2, 3]),
    (Shape::ChainDown, &[47, 46, 45]),
    (Shape::FanOut, &[0, 7, 9]),
    (Shape::FanIn, &[1, 2, 3, 9, 31]),
    (Shape::Diamonds, &[3, 2, 1, 0, 7, 11]),
];

/// A run that goes on from a schedule probes no device that the schedule settled.
#[test]
fn settled_devices_are_left_alone(rt: HostRuntime) {
    let hasher = RandomState::new(&rt).expect(&rt, "a seed");
    for row in SCHEDULES {
        for drivers in DRIVERS {
            for workers in WORKERS {
                schedule_is_told(&rt, rt.alloc(), hasher, row, drivers, workers);
            }
        }
    }
}
