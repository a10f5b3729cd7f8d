//! Probes by workers.

ghost use Rattle.std.specs.Prelude.{◌<◌};

use crate::gate::Gate;
use crate::replays::CLOCK_AND_UART;
use bus_manager::{Prober, Ran, RunError, TableProber, run, run_locked};
use bus_plan::{Device, Plan, read_plan};
use std::alloc::Global;
use std::hash::RandomState;
use std::process::Abort;
use std::sync::Wait;
use std::thread::Threads;

/// How the workers of a run share its bus.
#[derive(Clone, Copy, Debug, PartialEq, Eq)]
pub(crate) enum Sharing {
    Board,
    Lock,
}

const SHARINGS: [Sharing; 2] = [Sharing::Board, Sharing::Lock];

// The most workers that a run may have.
const MOST: usize = 64;

// Each sharing with one, two and the most workers.
const LAWFUL: &[(Sharing, usize)] = &[
    (Sharing::Board, 1),
    (Sharing::Board, 2),
    (Sharing::Board, MOST),
    (Sharing::Lock, 1),
    (Sharing::Lock, 2),
    (Sharing::Lock, MOST),
];

// Each sharing with numbers of workers that are refused.
const UNLAWFUL: &[(Sharing, usize)] = &[
    (Sharing::Board, 0),
    (Sharing::Board, 65),
    (Sharing::Board, usize::MAX),
    (Sharing::Lock, 0),
    (Sharing::Lock, 65),
    (Sharing::Lock, usize::MAX),
];

/// A run whose workers share its bus so.
pub(crate) fn run_by<P: Prober, R: Threads + Wait + Sync>(
    sharing: Sharing,
    rt: &R,
    alloc: Global,
    plan: &Plan,
    prober: &P,
    workers: usize,
) -> Result<Ran<P::Note>, RunError> {
    match sharing {
        Sharing::Board => run(rt, alloc, plan, prober, workers),
        Sharing::Lock => run_locked(rt, alloc, plan, prober, workers),
    }
}

// A row's name, its plan, its end report, and whether each device has settled in it.
type Row = (&'static str, &'static str, &'static str, &'static [bool]);

const ROWS: &[Row] = &[
    (
        "clock-and-uart",
        CLOCK_AND_UART,
        "/clk bound fixed\n/uart bound ns\nquiet\n",
        &[true, true],
    ),
    ("empty-plan", "", "quiet\n", &[]),
    (
        "cycle-waits",
        "/a x ok /b\n/b y ok /a\n",
        "/a waiting /b\n/b waiting /a\nquiet\n",
        &[false, false],
    ),
    (
        "failed-supplier",
        "/s x fail\n/d y ok /s\n",
        "/s failed x\n/d waiting /s\nquiet\n",
        &[true, false],
    ),
    (
        "failed-supplier",
        "/s ! -\n/d y ok /s\n",
        "/s disabled\n/d waiting /s\nquiet\n",
        &[false, false],
    ),
];

// Whether each device that should have settled left its own note, and no other one did.
fn are_noted(notes: &[Option<Device>], settled: &[bool]) -> bool {
    notes.len() == settled.len()
        && notes.iter().zip(settled).enumerate().all(|(index, (note, is_settled))| *note
            == is_settled.then_some(Device::new(index)))
}

// What a run answered.
pub fn has_run(rt: &impl Abort, name: &str, ran: &Ran<Device>, report: &str, settled: &[bool]) {
    assert!(rt; are_noted(ran.notes.as_slice(), settled), "{name}");
    assert_eq!(rt; ran.report.as_slice(), report.as_bytes(), "{name}");
}

fn runs_by<R: Threads + Wait + Sync + Abort>(
    sharing: Sharing,
    rt: &R,
    alloc: Global,
    plan: &Plan,
    workers: usize,
    row: &Row,
) {
    let (name, _, report, settled) = row;
    let ran = run_by(sharing, rt, alloc, plan, &TableProber, workers).expect(rt, "a run");
    has_run(rt, *name, &ran, *report, *settled);
}

fn row_runs<R: Threads + Wait + Sync + Abort>(
    rt: &R,
    alloc: Global,
    hasher: RandomState,
    row: &Row,
) {
    let (_, text, ..) = row;
    let plan = read_plan(alloc, hasher, text.as_bytes()).expect(rt, "a plan");
    for (sharing, workers) in LAWFUL {
        runs_by(*sharing, rt, alloc, &plan, *workers, row);
    }
}

#[test]
fn runs(rt: HostRuntime) {
    let hasher = RandomState::new(&rt).expect(&rt, "a seed");
    for row in ROWS {
        row_runs(&rt, rt.alloc(), hasher, row);
    }
}

fn is_refused<R: Threads + Wait + Sync + Abort>(
    sharing: Sharing,
    rt: &R,
    alloc: Global,
    plan: &Plan,
    workers: usize,
) {
    let answer = run_by(sharing, rt, alloc, plan, &TableProber, workers);
    let refusal = answer.err().expect(rt, "it ran");
    assert_eq!(rt; refusal, RunError::TooManyWorkers);
    assert_eq!(rt; (refusal.number(), refusal.name()), (70, "TooManyWorkers"));
}

#[test]
fn refuses_other_numbers_of_workers(rt: HostRuntime) {
    let hasher = RandomState::new(&rt).expect(&rt, "a seed");
    let plan = read_plan(rt.alloc(), hasher, b"/a x ok\n").expect(&rt, "a plan");
    for (sharing, workers) in UNLAWFUL {
        is_refused(*sharing, &rt, rt.alloc(), &plan, *workers);
    }
}

fn probes_overlap<R: Threads + Wait + Sync + Abort>(
    sharing: Sharing,
    rt: &R,
    alloc: Global,
    plan: &Plan,
) {
    let gate = Gate::new();
    let ran = run_by(sharing, rt, alloc, plan, &gate, 2).expect(rt, "a run");
    let report = "/a bound x\n/b bound y\nquiet\n";
    assert_eq!(rt; ran.report.as_slice(), report.as_bytes());
    assert!(rt; gate.has_overlapped(), "the probes overlap");
}

#[test]
fn gate_two_probes(rt: HostRuntime) {
    let hasher = RandomState::new(&rt).expect(&rt, "a seed");
    let plan = read_plan(rt.alloc(), hasher, b"/a x ok\n/b y ok\n").expect(&rt, "a plan");
    for sharing in &SHARINGS {
        probes_overlap(*sharing, &rt, rt.alloc(), &plan);
    }
}

fn push_device(rt: &impl Abort, alloc: Global, text: &mut String, index: u32) {
    let verdict = if index % 23 == 22 { "fail" } else { "ok" };
    let device = format!(in alloc; "/d{index} x {verdict}").expect(rt, "a text");
    text.push_str(device.as_str()).expect(rt, "room");
}

fn push_supplier(rt: &impl Abort, alloc: Global, text: &mut String, index: u32) {
    let supplier = format!(in alloc; " /d{index}").expect(rt, "a text");
    text.push_str(supplier.as_str()).expect(rt, "room");
}

fn push_line(rt: &impl Abort, alloc: Global, text: &mut String, index: u32)
    requires { index < 200 }
{
    push_device(rt, alloc, text, index);
    if index % 4 != 3 {
        push_supplier(rt, alloc, text, index + 1);
    }
    if index >= 8 {
        push_supplier(rt, alloc, text, index / 2);
    }
    if index == 199 {
        push_supplier(rt, alloc, text, 196);
    }
    text.push_str("\n").expect(rt, "room");
}

// 200 devices: fours that need the next one, each but the first two fours also needs a device of an earlier four, the
// last four is a cycle, and each 23rd driver fails.
fn many_devices(rt: &impl Abort, alloc: Global) -> String {
    let mut text = String::new(alloc);
    for index in 0..200u32 {
        push_line(rt, alloc, &mut text, index);
    }
    text
}

fn plan_of_many(rt: &impl Abort, alloc: Global, hasher: RandomState) -> Plan {
    let text = many_devices(rt, alloc);
    read_plan(alloc, hasher, text.as_str().as_bytes()).expect(rt, "a plan")
}

fn round_reports<R: Threads + Wait + Sync + Abort>(
    rt: &R,
    alloc: Global,
    plan: &Plan,
    round: usize,
    report: &[u8],
) {
    let workers = 1 + round % MOST;
    let sharing = SHARINGS[round % 2];
    let ran = run_by(sharing, rt, alloc, plan, &TableProber, workers).expect(rt, "a run");
    assert_eq!(rt; ran.report.as_slice(), report, "by {workers}");
}

fn has_one_report<R: Threads + Wait + Sync + Abort>(rt: &R, alloc: Global, plan: &Plan) {
    let first = run(rt, alloc, plan, &TableProber, 1).expect(rt, "a run");
    for round in 0..200usize {
        round_reports(rt, alloc, plan, round, first.report.as_slice());
    }
}

#[test]
fn one_report_by_any_workers(rt: HostRuntime) {
    let hasher = RandomState::new(&rt).expect(&rt, "a seed");
    let plan = plan_of_many(&rt, rt.alloc(), hasher);
    has_one_report(&rt, rt.alloc(), &plan);
}
