//! Lines and events of schedules that are refused.

use super::shown::shows;
use dtman_diagnosis::{BusText, Devices, TextKind, before_event, diagnose_event};
use std::process::Abort;

/// A schedule, its event that is refused, the report of what is before it, and the lines of the refusal.
struct Replayed {
    schedule: &'static str,
    number: u8,
    event: usize,
    report: &'static str,
    lines: &'static str,
}

const REPLAYS: &[Replayed] = &[
    Replayed {
        schedule: "# twice\n\nbegin /uart\n\nbegin /uart\n",
        number: 60,
        event: 2,
        report: "/clk due\n/uart probing\n/led unmatched\nbusy\n",
        lines: "error 60 NotIdle event 2\nboot.schedule:5:1: the device is in flight or has settled\n  |\n5 | begin /uart\n  | ^^^^^^^^^^^\n  = before it: /uart probing\n",
    },
    Replayed {
        schedule: "begin /led",
        number: 61,
        event: 1,
        report: "/clk due\n/uart due\n/led unmatched\nbusy\n",
        lines: "error 61 Unmatched event 1\nboot.schedule:1:1: the device has no driver, or is switched off\n  |\n1 | begin /led\n  | ^^^^^^^^^^\n  = before it: /led unmatched\n",
    },
    Replayed {
        schedule: "begin /uart\nfinish /uart settled\n",
        number: 63,
        event: 2,
        report: "/clk due\n/uart probing\n/led unmatched\nbusy\n",
        lines: "error 63 NotReady event 2\nboot.schedule:2:1: a supplier of the device isn't bound\n  |\n2 | finish /uart settled\n  | ^^^^^^^^^^^^^^^^^^^^\n  = before it: /uart probing\n  = /uart needs /clk due\n",
    },
    Replayed {
        schedule: "begin /clk\nfinish /clk settled\nbegin /uart\nfinish /uart missing /clk\n",
        number: 64,
        event: 4,
        report: "/clk bound fixed\n/uart probing\n/led unmatched\nbusy\n",
        lines: "error 64 WasBound event 4\nboot.schedule:4:1: the device named is no supplier, or was bound at the begin\n  |\n4 | finish /uart missing /clk\n  | ^^^^^^^^^^^^^^^^^^^^^^^^^\n  = before it: /uart probing\n",
    },
    Replayed {
        schedule: "abandon /clk\n",
        number: 66,
        event: 1,
        report: "/clk due\n/uart due\n/led unmatched\nbusy\n",
        lines: "error 66 NotInFlight event 1\nboot.schedule:1:1: the device isn't in flight\n  |\n1 | abandon /clk\n  | ^^^^^^^^^^^^\n  = before it: /clk due\n",
    },
    // the driver of a device of the plan
    Replayed {
        schedule: "driver fixed x\n",
        number: 67,
        event: 1,
        report: "/clk due\n/uart due\n/led unmatched\nbusy\n",
        lines: "error 67 KnownDriver event 1\nboot.schedule:1:1: a driver has this name\n  |\n1 | driver fixed x\n  | ^^^^^^^^^^^^^^\n  = the other one stands at board.plan:2:6\n",
    },
    // one that came late before
    Replayed {
        schedule: "driver late x\ndriver  late y\n",
        number: 67,
        event: 2,
        report: "/clk due\n/uart due\n/led unmatched\nbusy\n",
        lines: "error 67 KnownDriver event 2\nboot.schedule:2:1: a driver has this name\n  |\n2 | driver  late y\n  | ^^^^^^^^^^^^^^\n  = the other one stands at boot.schedule:1:8\n",
    },
];

const PLAN: &[u8] = b"# a plan\n/clk fixed ok\n/uart ns ok /clk\n/led - -\n";

fn replay_shows<R: Abort + AllocGlobal>(rt: &R, row: &Replayed) {
    let schedule = BusText {
        kind: TextKind::Schedule,
        file: b"boot.schedule".as_slice(),
        bytes: row.schedule.as_bytes(),
        devices: Devices::Plan {
            file: b"board.plan".as_slice(),
            bytes: PLAN,
        },
    };
    let report = row.report.as_bytes();
    let diagnosis = diagnose_event(rt.alloc(), schedule, row.event, report, row.number);
    shows(rt, rt.alloc(), diagnosis, row.lines);
}

#[test]
fn replays(rt: HostRuntime) {
    for row in REPLAYS {
        replay_shows(&rt, row);
    }
}

/// A schedule, an event, and the lines before it.
const BEFORE: &[(&str, usize, &str)] = &[
    ("begin /a\nabandon /a\n", 1, ""),
    (
        "# a\n\nbegin /a\n \t\nabandon /a\n",
        2,
        "# a\n\nbegin /a\n \t\n",
    ),
    ("begin /a\n", 2, "begin /a\n"),
];

fn is_before(rt: &impl Abort, row: &(&str, usize, &str)) {
    let (schedule, event, before) = row;
    assert_eq!(rt;
        before_event(schedule.as_bytes(), *event),
        before.as_bytes()
    );
}

#[test]
fn events(rt: HostRuntime) {
    for row in BEFORE {
        is_before(&rt, row);
    }
}
