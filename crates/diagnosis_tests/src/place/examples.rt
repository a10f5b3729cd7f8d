//! That the examples of `explain` show what is told of them in detail.

use super::shown::shows;
use crate::place::refused::{Compiled, refused_by};
use dt_text::lexeme::Language;
use dtman_diagnosis::{
    BusText, Devices, TextKind, diagnose_event, diagnose_source, diagnose_text, example_of,
};
use std::alloc::Global;
use std::process::Abort;
use std::random::RandomSource;

/// A number, and a source.
const SOURCES: &[(u8, &str)] = &[
    (10, ""),
    (11, "/dts-v1/;/{a=<0x100000000>;};"),
    (12, "/dts-v1/;/{a=<(1/0)>;};"),
    (13, "/dts-v1/;/{a=/bits/ 9<1>;};"),
    (14, "/dts-v1/;/{a=<08>;};"),
    (15, "/dts-v1/;/{a=\"\\x\";};"),
    (
        16,
        "/dts-v1/;/{a=<(((((((((((((((((((((((((((((((((((((((((((((((((((((((((((((((((",
    ),
    (17, ""),
    (20, "/dts-v1/;/{a=<&b>;};"),
    (21, "/dts-v1/;/{a: x { }; a: y { };};"),
    (22, "/dts-v1/;/{a=&{/b};};"),
    (23, "/dts-v1/;/{phandle=<0>;};"),
    (24, "/dts-v1/;/{phandle=<1>; a{phandle=<1>;};};"),
    (25, "/dts-v1/;/{a; a;};"),
    (26, "/dts-v1/;/plugin/;&a{r=<&{/b}>;};"),
    (27, "/dts-v1/;/{a=<&{/__symbols__}>; __symbols__{};};"),
];

fn source_shows<R: Abort + AllocGlobal + RandomSource>(rt: &R, number: u8, source: &str) {
    let file = b"IN".as_slice();
    let compiled = Compiled {
        language: Language::Profile,
        text: source.as_bytes(),
        symbols: false,
    };
    let refused = refused_by(rt, compiled, number);
    let diagnosis = diagnose_source(rt.alloc(), file, source.as_bytes(), refused);
    let lines = example_of(number).expect(rt, "an example");
    shows(rt, rt.alloc(), diagnosis, lines);
}

#[test]
fn sources(rt: HostRuntime) {
    for row in SOURCES {
        let (number, source) = row;
        source_shows(&rt, *number, *source);
    }
}

// Nodes in one another, the innermost of them labelled, at level 64, and a child of that.
fn nested(rt: &impl Abort, alloc: Global) -> String {
    let mut source = String::from_str(alloc, "/dts-v1/;/{").expect(rt, "memory");
    for _ in 0..63 {
        source.push_str("n{").expect(rt, "memory");
    }
    source.push_str("l: n{").expect(rt, "memory");
    for _ in 0..65 {
        source.push_str("};").expect(rt, "memory");
    }
    source.push_str("\n&l{c{};};").expect(rt, "memory");
    source
}

#[test]
fn depth(rt: HostRuntime) {
    let source = nested(&rt, rt.alloc());
    source_shows(&rt, 28, source.as_str());
}

/// A number, a text of the bus, its file, and the line.
const LINES: &[(u8, &str, &str, Option<usize>)] = &[
    (50, "/a\n", "PLAN", Some(1)),
    (51, "driver a b\ndriver a c\n", "DRIVERS", Some(2)),
    (52, "/a - -\n/a - -\n", "PLAN", Some(2)),
    (53, "/a - - /b\n", "PLAN", Some(1)),
];

fn line_shows<R: Abort + AllocGlobal>(rt: &R, row: &(u8, &str, &str, Option<usize>)) {
    let (number, text, file, line) = row;
    let (file, bytes) = (file.as_bytes(), text.as_bytes());
    let kind = match number {
        51 => TextKind::Drivers,
        _ => TextKind::Plan,
    };
    let text = BusText {
        kind,
        file,
        bytes,
        devices: Devices::Plan { file, bytes },
    };
    let diagnosis = diagnose_text(rt.alloc(), text, *number, *line);
    let lines = example_of(*number).expect(rt, "an example");
    shows(rt, rt.alloc(), diagnosis, lines);
}

#[test]
fn lines(rt: HostRuntime) {
    for row in LINES {
        line_shows(&rt, row);
    }
}

// A plan of so many devices, and a line of the strings of one.
fn plan_of(rt: &impl Abort, alloc: Global, count: usize) -> String {
    let mut plan = String::from_str(alloc, "# a plan\ncompatible /d0 x\n").expect(rt, "memory");
    for place in 0..count {
        writeln!(plan, " /d{place} - -").expect(rt, "memory");
    }
    plan
}

#[test]
fn devices(rt: HostRuntime) {
    let plan = plan_of(&rt, rt.alloc(), 4_097);
    line_shows(&rt, &(56, plan.as_str(), "PLAN", None));
}

/// A number, a schedule, its event, and the report of what is before that.
const EVENTS: &[(u8, &str, usize, &str)] = &[
    (60, "begin /a\nbegin /a\n", 2, "/a probing\nbusy\n"),
    (61, "begin /a\n", 1, "/a unmatched\nquiet\n"),
    (
        63,
        "begin /a\nfinish /a settled\n",
        2,
        "/a probing\n/b unmatched\nbusy\n",
    ),
    (
        64,
        "begin /a\nfinish /a missing /b\n",
        2,
        "/a probing\n/b unmatched\nbusy\n",
    ),
    (66, "abandon /a\n", 1, "/a due\nbusy\n"),
    (67, "driver x b\n", 1, "/a due\nbusy\n"),
];

fn event_shows<R: Abort + AllocGlobal>(rt: &R, row: &(u8, &str, usize, &str)) {
    let (number, schedule, event, report) = row;
    let schedule = BusText {
        kind: TextKind::Schedule,
        file: b"SCHEDULE".as_slice(),
        bytes: schedule.as_bytes(),
        devices: Devices::Plan {
            file: b"PLAN".as_slice(),
            bytes: b"/a x ok /b\n/b - -\n".as_slice(),
        },
    };
    let report = report.as_bytes();
    let diagnosis = diagnose_event(rt.alloc(), schedule, *event, report, *number);
    let lines = example_of(*number).expect(rt, "an example");
    shows(rt, rt.alloc(), diagnosis, lines);
}

#[test]
fn events(rt: HostRuntime) {
    for row in EVENTS {
        event_shows(&rt, row);
    }
}
