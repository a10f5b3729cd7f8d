//! Refusals of the bus's text files: the form that is meant, the word that is wrong, and where else a name stands.

use super::shown::shows;
use dtman_diagnosis::{BusText, Devices, TextKind, diagnose_text};
use std::process::Abort;

/// A text, the number by which it is refused, its line, and what is told of that.
struct Row {
    kind: TextKind,
    number: u8,
    line: usize,
    text: &'static str,
    lines: &'static str,
}

/// Lines that have no lawful form.
const FORMS: &[Row] = &[
    // driver files
    Row {
        kind: TextKind::Drivers,
        number: 50,
        line: 2,
        text: "driver ns ns16550a\ndrivr clk fixed\n",
        lines: "refused\nboard.drivers:2:1: `drivr` can't stand here\n  |\n2 | drivr clk fixed\n  | ^^^^^\n  = did you mean `driver`?\n  = a line is `driver NAME COMPATIBLE..` or `fail PATH`\n",
    },
    Row {
        kind: TextKind::Drivers,
        number: 50,
        line: 1,
        text: "alias clk fixed\n",
        lines: "refused\nboard.drivers:1:1: `alias` can't stand here\n  |\n1 | alias clk fixed\n  | ^^^^^\n  = a line is `driver NAME COMPATIBLE..` or `fail PATH`\n",
    },
    Row {
        kind: TextKind::Drivers,
        number: 50,
        line: 1,
        text: "driver ns\n",
        lines: "refused\nboard.drivers:1:10: the line ends, and more must follow\n  |\n1 | driver ns\n  |          ^\n  = the form is `driver NAME COMPATIBLE..`\n",
    },
    Row {
        kind: TextKind::Drivers,
        number: 50,
        line: 1,
        text: "driver - x\n",
        lines: "refused\nboard.drivers:1:8: `-` can't stand here\n  |\n1 | driver - x\n  |        ^\n  = a driver's name is up to 255 letters, digits and `,._+*#?@-`, and isn't `-`\n",
    },
    Row {
        kind: TextKind::Drivers,
        number: 50,
        line: 1,
        text: "fail uart\n",
        lines: "refused\nboard.drivers:1:6: `uart` can't stand here\n  |\n1 | fail uart\n  |      ^^^^\n  = a path is made of names, each behind a slash\n",
    },
    Row {
        kind: TextKind::Drivers,
        number: 50,
        line: 1,
        text: "fail /uart now\n",
        lines: "refused\nboard.drivers:1:12: `now` can't stand here\n  |\n1 | fail /uart now\n  |            ^^^\n  = the form is `fail PATH`\n",
    },
    Row {
        kind: TextKind::Drivers,
        number: 50,
        line: 1,
        text: "early ti,clk\n",
        lines: "refused\nboard.drivers:1:1: `early` can't stand here\n  |\n1 | early ti,clk\n  | ^^^^^\n  = lines `early` and `bus` count with `--links linux` alone\n",
    },
    Row {
        kind: TextKind::LinkDrivers,
        number: 50,
        line: 1,
        text: "early\n",
        lines: "refused\nboard.drivers:1:6: the line ends, and more must follow\n  |\n1 | early\n  |      ^\n  = the form is `early COMPATIBLE..`\n",
    },
    // plan files
    Row {
        kind: TextKind::Plan,
        number: 50,
        line: 1,
        text: "/a x okay\n",
        lines: "refused\nboard.plan:1:6: `okay` can't stand here\n  |\n1 | /a x okay\n  |      ^^^^\n  = the form is `PATH DRIVER ok|fail SUPPLIER..`, or `- -` or `! -` behind PATH\n",
    },
    Row {
        kind: TextKind::Plan,
        number: 50,
        line: 1,
        text: "/a x fall /b\n",
        lines: "refused\nboard.plan:1:6: `fall` can't stand here\n  |\n1 | /a x fall /b\n  |      ^^^^\n  = did you mean `fail`?\n  = the form is `PATH DRIVER ok|fail SUPPLIER..`, or `- -` or `! -` behind PATH\n",
    },
    Row {
        kind: TextKind::Plan,
        number: 50,
        line: 1,
        text: "/a - ok\n",
        lines: "refused\nboard.plan:1:6: `ok` can't stand here\n  |\n1 | /a - ok\n  |      ^^\n  = `-` stands behind `-` and `!`\n",
    },
    Row {
        kind: TextKind::Plan,
        number: 50,
        line: 1,
        text: "/a x ok /b /b\n",
        lines: "refused\nboard.plan:1:12: `/b` can't stand here\n  |\n1 | /a x ok /b /b\n  |            ^^\n  = each supplier stands once, and isn't the device itself\n",
    },
    Row {
        kind: TextKind::Plan,
        number: 50,
        line: 1,
        text: "/a x ok b\n",
        lines: "refused\nboard.plan:1:9: `b` can't stand here\n  |\n1 | /a x ok b\n  |         ^\n  = a path is made of names, each behind a slash\n",
    },
    Row {
        kind: TextKind::Plan,
        number: 50,
        line: 1,
        text: "compatible /a\n",
        lines: "refused\nboard.plan:1:14: the line ends, and more must follow\n  |\n1 | compatible /a\n  |              ^\n  = the form is `compatible PATH COMPATIBLE..`\n",
    },
    Row {
        kind: TextKind::Plan,
        number: 50,
        line: 1,
        text: "compatble /a x\n",
        lines: "refused\nboard.plan:1:1: `compatble` can't stand here\n  |\n1 | compatble /a x\n  | ^^^^^^^^^\n  = did you mean `compatible`?\n  = a line begins with a path, or is `compatible PATH COMPATIBLE..`\n",
    },
    // schedules
    Row {
        kind: TextKind::Schedule,
        number: 50,
        line: 2,
        text: "begin /uart\nbeginn /clk\r\n",
        lines: "refused\nboot.schedule:2:1: `beginn` can't stand here\n  |\n2 | beginn /clk\n  | ^^^^^^\n  = did you mean `begin`?\n  = a line is `begin PATH`, `finish PATH ..`, `abandon PATH` or `driver NAME COMPATIBLE..`\n",
    },
    Row {
        kind: TextKind::Schedule,
        number: 50,
        line: 1,
        text: "finish /uart setled\n",
        lines: "refused\nboot.schedule:1:14: `setled` can't stand here\n  |\n1 | finish /uart setled\n  |              ^^^^^^\n  = did you mean `settled`?\n  = the form is `finish PATH settled` or `finish PATH missing SUPPLIER`\n",
    },
    Row {
        kind: TextKind::Schedule,
        number: 50,
        line: 1,
        text: "finish /uart missing\n",
        lines: "refused\nboot.schedule:1:21: the line ends, and more must follow\n  |\n1 | finish /uart missing\n  |                     ^\n  = the form is `finish PATH settled` or `finish PATH missing SUPPLIER`\n",
    },
    Row {
        kind: TextKind::Schedule,
        number: 50,
        line: 1,
        text: "begin uart\n",
        lines: "refused\nboot.schedule:1:7: `uart` can't stand here\n  |\n1 | begin uart\n  |       ^^^^\n  = a path is made of names, each behind a slash\n",
    },
    Row {
        kind: TextKind::Schedule,
        number: 50,
        line: 1,
        text: "begin /uart /clk\n",
        lines: "refused\nboot.schedule:1:13: `/clk` can't stand here\n  |\n1 | begin /uart /clk\n  |             ^^^^\n  = the form is `begin PATH`\n",
    },
    // bytes
    Row {
        kind: TextKind::Drivers,
        number: 50,
        line: 1,
        text: "driver ns café\n",
        lines: "refused\nboard.drivers:1:14: this can't stand in a line\n  |\n1 | driver ns café\n  |              ^\n  = a line has tabs and the characters from space to tilde\n",
    },
    Row {
        kind: TextKind::Drivers,
        number: 50,
        line: 1,
        text: "driver ns x\r\r\n",
        lines: "refused\nboard.drivers:1:12: this can't stand in a line\n  |\n1 | driver ns x\\x0d\n  |            ^^^^\n  = a carriage return stands right before a line's end, and only one\n",
    },
    Row {
        kind: TextKind::Plan,
        number: 50,
        line: 1,
        text: "\u{7f}ELF\n",
        lines: "refused\nboard.plan:1:1: this can't stand in a line\n  |\n1 | \\x7fELF\n  | ^^^^\n  = it is an ELF file\n",
    },
];

/// Names that a line before has.
const TWICE: &[Row] = &[
    Row {
        kind: TextKind::Drivers,
        number: 51,
        line: 3,
        text: "# a\ndriver a b\n driver  a c\n",
        lines: "refused\nboard.drivers:3:10: a line before names this driver\n  |\n3 |  driver  a c\n  |          ^\n  = the other one stands at board.drivers:2:8\n",
    },
    Row {
        kind: TextKind::Plan,
        number: 52,
        line: 3,
        text: "/a - -\n/b - -\n  /a x ok\n",
        lines: "refused\nboard.plan:3:3: a line before has this path\n  |\n3 |   /a x ok\n  |   ^^\n  = the other one stands at board.plan:1:1\n",
    },
    Row {
        kind: TextKind::Plan,
        number: 52,
        line: 3,
        text: "/a - -\ncompatible /a x\ncompatible /a y\n",
        lines: "refused\nboard.plan:3:12: a line before has this path\n  |\n3 | compatible /a y\n  |            ^^\n  = the other one stands at board.plan:2:12\n",
    },
];

/// Paths that no device has.
const UNKNOWN: &[Row] = &[
    Row {
        kind: TextKind::Plan,
        number: 53,
        line: 2,
        text: "/soc/clk fixed ok\n/soc/uart ns ok /soc/clk0\n",
        lines: "refused\nboard.plan:2:17: no device has the path `/soc/clk0`\n  |\n2 | /soc/uart ns ok /soc/clk0\n  |                 ^^^^^^^^^\n  = paths that are like it: /soc/clk\n",
    },
    Row {
        kind: TextKind::Schedule,
        number: 53,
        line: 1,
        text: "begin /uart\n",
        lines: "refused\nboot.schedule:1:7: no device has the path `/uart`\n  |\n1 | begin /uart\n  |       ^^^^^\n  = paths that are like it: /soc/uart\n",
    },
    Row {
        kind: TextKind::Schedule,
        number: 53,
        line: 1,
        text: "finish /soc/uart missing  /soc/led\n",
        lines: "refused\nboot.schedule:1:27: no device has the path `/soc/led`\n  |\n1 | finish /soc/uart missing  /soc/led\n  |                           ^^^^^^^^\n",
    },
];

const PLAN: &[u8] = b"/soc/clk fixed ok\n/soc/uart ns ok /soc/clk\n";

fn row_shows<R: Abort + AllocGlobal>(rt: &R, row: &Row) {
    let file = match row.kind {
        TextKind::Plan => b"board.plan".as_slice(),
        TextKind::Schedule => b"boot.schedule".as_slice(),
        _ => b"board.drivers".as_slice(),
    };
    let bytes = match row.kind {
        TextKind::Plan => row.text.as_bytes(),
        _ => PLAN,
    };
    let text = BusText {
        kind: row.kind,
        file,
        bytes: row.text.as_bytes(),
        devices: Devices::Plan {
            file: b"board.plan".as_slice(),
            bytes,
        },
    };
    let diagnosis = diagnose_text(rt.alloc(), text, row.number, Some(row.line));
    shows(rt, rt.alloc(), diagnosis, row.lines);
}

#[test]
fn forms(rt: HostRuntime) {
    for row in FORMS {
        row_shows(&rt, row);
    }
}

#[test]
fn names_that_stand_twice(rt: HostRuntime) {
    for row in TWICE {
        row_shows(&rt, row);
    }
}

#[test]
fn paths_of_no_device(rt: HostRuntime) {
    for row in UNKNOWN {
        row_shows(&rt, row);
    }
}
