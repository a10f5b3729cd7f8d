//! Drivers that come late in a schedule, and runs by workers that go on from one.

use crate::answers::printed;
use bus_manager::{Ran, TableProber};
use bus_plan::Device;
use bus_tests::replays::CLOCK_AND_UART;
use dtman_engine::{Fault, replay_bytes, replay_run_bytes};
use std::alloc::Global;
use std::hash::RandomState;
use std::process::Abort;
use std::thread::Threads;

/// The plan of row `late-driver`.
const LATE: &str = "/clk fixed ok\n/uart - - /clk\ncompatible /uart ns16550a\n";

/// A row: its name, the plan, the schedule, the report then, the end report, and which devices leave a note.
type Row = (
    &'static str,
    &'static str,
    &'static str,
    &'static str,
    &'static str,
    &'static [bool],
);

const ROWS: &[Row] = &[
    (
        "late-driver",
        LATE,
        "begin /clk\nfinish /clk settled\ndriver ns ns16550a\n",
        "/clk bound fixed\n/uart due\nbusy\n",
        "/clk bound fixed\n/uart bound ns\nquiet\n",
        &[false, true],
    ),
    (
        "late-driver-refused",
        LATE,
        "begin /clk\nfinish /clk settled\ndriver ns other\n",
        "/clk bound fixed\n/uart unmatched\nquiet\n",
        "/clk bound fixed\n/uart unmatched\nquiet\n",
        &[false, false],
    ),
    (
        "no driver came",
        LATE,
        "",
        "/clk due\n/uart unmatched\nbusy\n",
        "/clk bound fixed\n/uart unmatched\nquiet\n",
        &[true, false],
    ),
    (
        "no string is the device's",
        LATE,
        "driver ns ns16550 ns16550ab\n",
        "/clk due\n/uart unmatched\nbusy\n",
        "/clk bound fixed\n/uart unmatched\nquiet\n",
        &[true, false],
    ),
    (
        "an open flight is dropped",
        LATE,
        "driver ns other ns16550a\nbegin /uart\n",
        "/clk due\n/uart probing\nbusy\n",
        "/clk bound fixed\n/uart bound ns\nquiet\n",
        &[true, true],
    ),
    (
        "a late driver's device waits",
        LATE,
        "driver ns ns16550a\nbegin /uart\nfinish /uart missing /clk\n",
        "/clk due\n/uart waiting /clk\nbusy\n",
        "/clk bound fixed\n/uart bound ns\nquiet\n",
        &[true, true],
    ),
    (
        "the first that matches stays",
        LATE,
        "driver ns ns16550a\ndriver late ns16550a\n",
        "/clk due\n/uart due\nbusy\n",
        "/clk bound fixed\n/uart bound ns\nquiet\n",
        &[true, true],
    ),
    (
        "a device that has a driver keeps it",
        CLOCK_AND_UART,
        "driver late fixed-clock ns16550a\n",
        "/clk due\n/uart due\nbusy\n",
        "/clk bound fixed\n/uart bound ns\nquiet\n",
        &[true, true],
    ),
    (
        "one driver for two devices",
        "/a - -\n/b - - /a\ncompatible /b y\ncompatible /a x\n",
        "driver xy x y\n",
        "/a due\n/b due\nbusy\n",
        "/a bound xy\n/b bound xy\nquiet\n",
        &[true, true],
    ),
    (
        "a failed supplier",
        "/s x fail\n/d - - /s\ncompatible /d y\n",
        "begin /s\nfinish /s settled\ndriver y y\n",
        "/s failed x\n/d due\nbusy\n",
        "/s failed x\n/d waiting /s\nquiet\n",
        &[false, false],
    ),
    (
        "all has settled",
        CLOCK_AND_UART,
        "begin /clk\nfinish /clk settled\nbegin /uart\nfinish /uart settled\n",
        "/clk bound fixed\n/uart bound ns\nquiet\n",
        "/clk bound fixed\n/uart bound ns\nquiet\n",
        &[false, false],
    ),
    ("empty-plan", "", "", "quiet\n", "quiet\n", &[]),
];

fn is_replayed(rt: &impl Abort, alloc: Global, hasher: RandomState, row: &Row) {
    let (name, plan, schedule, wanted, _, _) = row;
    let answer = replay_bytes(alloc, hasher, plan.as_bytes(), schedule.as_bytes());
    let text = printed(rt, alloc, answer);
    assert_eq!(rt; text.as_slice(), wanted.as_bytes(), "{name}");
}

/// Row `late-driver` and its like.
#[test]
fn drivers_come_late(rt: HostRuntime) {
    let hasher = RandomState::new(&rt).expect(&rt, "a seed");
    for row in ROWS {
        is_replayed(&rt, rt.alloc(), hasher, row);
    }
}

fn goes_on<R: Threads + Sync>(
    rt: &R,
    alloc: Global,
    hasher: RandomState,
    files: (&str, &str),
    workers: usize,
) -> Result<Ran<Device>, Fault> {
    let (plan, schedule) = files;
    let (plan, schedule) = (plan.as_bytes(), schedule.as_bytes());
    replay_run_bytes(rt, alloc, hasher, plan, schedule, &TableProber, workers)
}

// That exactly these devices have a note, each its own.
fn are_noted(notes: &[Option<Device>], noted: &[bool]) -> bool {
    notes.len() == noted.len()
        && notes.iter().zip(noted).enumerate().all(|(index, (note, is_noted))| *note
            == is_noted.then_some(Device::new(index)))
}

fn is_run<R: Threads + Sync + Abort>(
    rt: &R,
    alloc: Global,
    hasher: RandomState,
    row: &Row,
    workers: usize,
) {
    let (name, plan, schedule, _, wanted, noted) = row;
    match goes_on(rt, alloc, hasher, (*plan, *schedule), workers) {
        Ok(ran) => {
            assert_eq!(rt; ran.report.as_slice(), wanted.as_bytes(), "{name}");
            assert!(rt; are_noted(ran.notes.as_slice(), *noted), "{name}");
        }
        Err(_) => panic!(rt; "{name}: no end report"),
    }
}

fn are_run<R: Threads + Sync + Abort>(rt: &R, alloc: Global, hasher: RandomState, workers: usize) {
    for row in ROWS {
        is_run(rt, alloc, hasher, row, workers);
    }
}

/// The same rows, gone on with: one end report for any number of workers, and no note of what the schedule settled.
#[test]
fn runs_go_on(rt: HostRuntime) {
    let hasher = RandomState::new(&rt).expect(&rt, "a seed");
    for workers in [1, 2, 64] {
        are_run(&rt, rt.alloc(), hasher, workers);
    }
}

/// What both refuse: the plan, the schedule, and the refusal's line.
const REFUSED: &[(&str, &str, &str)] = &[
    // late-driver-refused
    (
        LATE,
        "begin /clk\nfinish /clk settled\ndriver fixed x\n",
        "error 67 KnownDriver event 3",
    ),
    // A device has a driver of this name, or one of this name came late.
    (
        LATE,
        "begin /clk\ndriver fixed ns16550a\n",
        "error 67 KnownDriver event 2",
    ),
    (
        LATE,
        "driver ns other\ndriver ns ns16550a\n",
        "error 67 KnownDriver event 2",
    ),
    (
        LATE,
        "begin /uart\ndriver ns ns16550a\n",
        "error 61 Unmatched event 1",
    ),
    // The whole schedule is read before its first event.
    (
        LATE,
        "driver fixed x\ndriver ns\n",
        "error 50 BadLine line 2",
    ),
    (LATE, "driver - ns16550a\n", "error 50 BadLine line 1"),
    (LATE, "driver\n", "error 50 BadLine line 1"),
    (
        "/uart - -\ncompatible /uart\n",
        "driver ns\n",
        "error 50 BadLine line 2",
    ),
    (
        "/uart - -\ncompatible /uart a\ncompatible /uart b\n",
        "",
        "error 52 DuplicateDevice line 3",
    ),
    (
        "/uart - -\ncompatible /nix a\n",
        "",
        "error 53 UnknownPath line 2",
    ),
    (
        "/uart ns ok\ncompatible /uart a\n",
        "",
        "error 50 BadLine line 2",
    ),
];

fn is_refused<R: Threads + Sync + Abort>(
    rt: &R,
    alloc: Global,
    hasher: RandomState,
    files: (&str, &str),
    workers: usize,
    line: &str,
) {
    let ran = goes_on(rt, alloc, hasher, files, workers);
    let told = printed(rt, alloc, ran.map(|ran| ran.report));
    assert_eq!(rt; told.as_slice(), line.as_bytes());
}

#[test]
fn late_driver_refused(rt: HostRuntime) {
    let hasher = RandomState::new(&rt).expect(&rt, "a seed");
    for &(plan, schedule, line) in REFUSED {
        let answer = replay_bytes(rt.alloc(), hasher, plan.as_bytes(), schedule.as_bytes());
        let told = printed(&rt, rt.alloc(), answer);
        assert_eq!(rt; told.as_slice(), line.as_bytes());
        is_refused(&rt, rt.alloc(), hasher, (plan, schedule), 2, line);
    }
}

/// The plan's fault comes before the schedule's, that before the event's, and the workers' comes last.
#[test]
fn workers_are_refused_last(rt: HostRuntime) {
    const MANY: &str = "error 70 TooManyWorkers";
    const ROWS: &[(&str, &str, usize, &str)] = &[
        ("/clk fixed\n", "begin /nix\n", 0, "error 50 BadLine line 1"),
        (LATE, "begin /nix\n", 0, "error 53 UnknownPath line 1"),
        (LATE, "abandon /clk\n", 65, "error 66 NotInFlight event 1"),
        (LATE, "driver ns ns16550a\n", 0, MANY),
        (LATE, "begin /clk\n", 65, MANY),
        ("", "", usize::MAX, MANY),
    ];
    let hasher = RandomState::new(&rt).expect(&rt, "a seed");
    for &(plan, schedule, workers, line) in ROWS {
        is_refused(&rt, rt.alloc(), hasher, (plan, schedule), workers, line);
    }
}
