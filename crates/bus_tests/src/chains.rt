//! Chains of devices, each but the last with the next one as its supplier.

use crate::cores::{drain, opened};
use bus_core::Core;
use bus_manager::{MAX_WORKERS, Ran, TableProber, run};
use bus_plan::{Device, Plan, read_plan};
use std::alloc::Global;
use std::hash::RandomState;
use std::process::Abort;
use std::thread::Threads;

// A row's name, the number of its devices, and the most begins by which it is drained.
type Row = (&'static str, usize, usize);

const ROWS: &[Row] = &[("chain-drain", 512, 1_023), ("chain-4096", 4_096, 8_191)];

// A plan file of so many devices.
fn chain(rt: &impl Abort, alloc: Global, length: usize) -> String {
    let mut plan = String::new(alloc);
    for place in 1..length {
        let line = format!(in alloc; "/d{} x ok /d{}\n", place, place + 1).expect(rt, "a line");
        plan.push_str(line.as_str()).expect(rt, "room");
    }
    let last = format!(in alloc; "/d{} x ok\n", length).expect(rt, "a line");
    plan.push_str(last.as_str()).expect(rt, "room");
    plan
}

fn is_bound(rt: &impl Abort, core: &mut Core, row: &Row) {
    let (name, length, most_begins) = row;
    assert_eq!(rt; core.plan().len(), *length, "{name}");
    let begins = drain(rt, core);
    assert!(rt; begins <= *most_begins, "{name}");
    assert_eq!(rt; core.history().len(), *length, "{name}");
    assert!(rt; core.is_quiet(), "{name}");
}

fn is_drained(rt: &impl Abort, alloc: Global, hasher: RandomState, row: &Row) {
    let (_, length, _) = row;
    let text = chain(rt, alloc, *length);
    let mut core = opened(rt, alloc, hasher, text.as_bytes());
    is_bound(rt, &mut core, row);
}

#[test]
fn drains_chains(rt: HostRuntime) {
    let hasher = RandomState::new(&rt).expect(&rt, "a seed");
    for row in ROWS {
        is_drained(&rt, rt.alloc(), hasher, row);
    }
}

// The report of a chain whose devices are all bound.
fn bound_report(rt: &impl Abort, alloc: Global, length: usize) -> String {
    let mut report = String::new(alloc);
    for place in 1..=length {
        let line = format!(in alloc; "/d{place} bound x\n").expect(rt, "a line");
        report.push_str(line.as_str()).expect(rt, "room");
    }
    report.push_str("quiet\n").expect(rt, "room");
    report
}

fn has_bound_all(rt: &impl Abort, ran: &Ran<Device>, report: &str) {
    assert_eq!(rt; ran.report.as_slice(), report.as_bytes());
    assert!(rt; ran.notes.iter().all(|note| note.is_some()));
}

fn is_run<R: Threads + Sync + Abort>(rt: &R, alloc: Global, plan: &Plan) {
    let ran = run(rt, alloc, plan, &TableProber, MAX_WORKERS).expect(rt, "a run");
    let report = bound_report(rt, alloc, plan.len());
    has_bound_all(rt, &ran, report.as_str());
}

/// Row `chain-4096` by workers.
#[test]
fn runs_a_chain(rt: HostRuntime) {
    let hasher = RandomState::new(&rt).expect(&rt, "a seed");
    let text = chain(&rt, rt.alloc(), 4_096);
    let plan = read_plan(rt.alloc(), hasher, text.as_bytes()).expect(&rt, "a plan");
    is_run(&rt, rt.alloc(), &plan);
}
