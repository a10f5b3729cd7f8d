//! Many drivers that come late.

use bus_core::{read_schedule, replay};
use bus_plan::read_plan;
use std::alloc::Global;
use std::hash::RandomState;
use std::process::Abort;

// How many devices there are, none with a driver, and how many drivers come late: the last ones match a device each.
const DEVICES: usize = 64;

const DRIVERS: usize = 10_000;

const MATCHES: usize = 3;

fn add(rt: &impl Abort, text: &mut String, more: &str) {
    text.push_str(more).expect(rt, "room");
}

// So many strings of a vendor, behind the words of a line.
fn add_strings(rt: &impl Abort, alloc: Global, text: &mut String, vendor: usize, count: usize) {
    for number in 0..count {
        let string = format!(in alloc; " vendor{vendor},part-{number}").expect(rt, "a string");
        add(rt, text, string.as_str());
    }
    add(rt, text, "\n");
}

fn plan_file(rt: &impl Abort, alloc: Global) -> String {
    let mut text = String::new(alloc);
    for place in 0..DEVICES {
        let line = format!(in alloc; "/d{place} - -\ncompatible /d{place}").expect(rt, "a line");
        add(rt, &mut text, line.as_str());
        add_strings(rt, alloc, &mut text, place, 10);
    }
    text
}

fn add_driver(rt: &impl Abort, alloc: Global, text: &mut String, number: usize, vendor: usize) {
    let line = format!(in alloc; "driver module{number}").expect(rt, "a line");
    add(rt, text, line.as_str());
    add_strings(rt, alloc, text, vendor, 1);
}

// Drivers of vendors that no device has.
fn add_strangers(rt: &impl Abort, alloc: Global, text: &mut String) {
    for number in MATCHES..DRIVERS {
        add_driver(rt, alloc, text, number, DEVICES + number);
    }
}

fn schedule(rt: &impl Abort, alloc: Global) -> String {
    let mut text = String::new(alloc);
    add_strangers(rt, alloc, &mut text);
    for place in 0..MATCHES {
        add_driver(rt, alloc, &mut text, place, place);
    }
    text
}

fn wanted_report(rt: &impl Abort, alloc: Global) -> String {
    let mut text = String::new(alloc);
    for place in 0..DEVICES {
        let status = if place < MATCHES { "due" } else { "unmatched" };
        let line = format!(in alloc; "/d{place} {status}\n").expect(rt, "a line");
        add(rt, &mut text, line.as_str());
    }
    add(rt, &mut text, "busy\n");
    text
}

// The report of the plan once all drivers have come.
fn report(rt: &impl Abort, alloc: Global, hasher: RandomState, plan: &str, lines: &str) -> Vec<u8> {
    let plan = read_plan(alloc, hasher, plan.as_bytes()).expect(rt, "a plan");
    let events = read_schedule(alloc, &plan, lines.as_bytes()).expect(rt, "a schedule");
    match replay(alloc, plan, events.as_slice()) {
        Ok(core) => core.report(alloc).expect(rt, "a report"),
        Err(_) => panic!(rt; "a driver is refused"),
    }
}

/// Ten thousand drivers, over 64 devices of ten strings.
#[test]
fn ten_thousand_drivers_come_late(rt: HostRuntime) {
    let hasher = RandomState::new(&rt).expect(&rt, "a seed");
    let plan = plan_file(&rt, rt.alloc());
    let lines = schedule(&rt, rt.alloc());
    let told = report(&rt, rt.alloc(), hasher, plan.as_str(), lines.as_str());
    let wanted = wanted_report(&rt, rt.alloc());
    assert_eq!(rt; told.as_slice(), wanted.as_bytes());
}
