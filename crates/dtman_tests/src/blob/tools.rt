//! fdtget, fdtput and fdtdump over a file in memory. What is wanted is what the tools of dtc 1.6.1 print.

use super::boards::CLOCKED;
use crate::runs::{Left, left_by, run_over};
use crate::shelf::Shelf;
use std::hash::RandomState;
use std::process::Abort;
use std::thread::Threads;

const FILES: &[(&str, &[u8])] = &[("f", CLOCKED)];

/// Words, the status, and what is told and printed.
#[derive(Clone, Copy)]
struct Row {
    words: &'static [&'static str],
    status: u8,
    text: &'static [u8],
}

const ROWS: &[Row] = &[
    Row {
        words: &["fdtget", "f", "/u@1", "clocks"],
        status: 0,
        text: b"1 2\n",
    },
    Row {
        words: &["fdtget", "f", "/u", "status", "/clk", "#clock-cells"],
        status: 0,
        text: b"okay\n1\n",
    },
    Row {
        words: &["fdtget", "-t", "bx", "f", "/u", "clocks"],
        status: 0,
        text: b"0 0 0 1 0 0 0 2\n",
    },
    Row {
        words: &["fdtget", "-tx", "f", "/u", "status"],
        status: 0,
        text: b"6f 6b 61 79 0\n",
    },
    Row {
        words: &["fdtget", "-p", "f", "/u"],
        status: 0,
        text: b"clocks\nstatus\n",
    },
    Row {
        words: &["fdtget", "f", "--list", "/"],
        status: 0,
        text: b"clk\nu@1\n",
    },
    // what is asked for last is listed
    Row {
        words: &["fdtget", "-p", "-l", "f", "/"],
        status: 0,
        text: b"clk\nu@1\n",
    },
    Row {
        words: &["fdtget", "-lp", "f", "/u"],
        status: 0,
        text: b"clocks\nstatus\n",
    },
    Row {
        words: &["fdtget", "f", "/u", "none"],
        status: 1,
        text: b"Error at 'none': FDT_ERR_NOTFOUND\n",
    },
    Row {
        words: &["fdtget", "f", "/none", "x"],
        status: 1,
        text: b"Error at '/none': FDT_ERR_NOTFOUND\n",
    },
    Row {
        words: &["fdtget", "f", "none", "x"],
        status: 1,
        text: b"Error at 'none': FDT_ERR_BADPATH\n",
    },
    Row {
        words: &["fdtget", "-d", "x y", "f", "/none", "x"],
        status: 0,
        text: b"x y\n",
    },
    Row {
        words: &["fdtget", "-t", "s", "f", "/u", "clocks"],
        status: 1,
        text: b"Unterminated string\n",
    },
];

fn try_get<R: Abort + AllocGlobal + Threads + Sync>(rt: &R, hasher: RandomState, row: &Row) {
    let mut shelf = Shelf::new(rt.alloc(), FILES, hasher);
    let Left { status, text } = left_by(rt, row.words, &mut shelf);
    assert_eq!(rt; status, row.status);
    assert_eq!(rt; text.as_slice(), row.text);
}

#[test]
fn fdtget_prints_what_the_tool_prints(rt: HostRuntime) {
    let hasher = RandomState::new(&rt).expect(&rt, "a seed");
    for row in ROWS {
        try_get(&rt, hasher, row);
    }
}

/// Words and the status, and what `fdtget -p` or `-l` or a property then prints, behind what was told.
#[derive(Clone, Copy)]
struct Put {
    words: &'static [&'static str],
    status: u8,
    asked: &'static [&'static str],
    text: &'static [u8],
}

const PUTS: &[Put] = &[
    Put {
        words: &["fdtput", "-t", "s", "f", "/u", "status", "fail"],
        status: 0,
        asked: &["fdtget", "f", "/u", "status"],
        text: b"fail\n",
    },
    Put {
        words: &["fdtput", "f", "/u", "clocks", "1", "0x10"],
        status: 0,
        asked: &["fdtget", "f", "/u", "clocks"],
        text: b"1 16\n",
    },
    Put {
        words: &[
            "fdtput",
            "-p",
            "-t",
            "s",
            "f",
            "/new/below",
            "name2",
            "a",
            "b",
        ],
        status: 0,
        asked: &["fdtget", "f", "/new/below", "name2"],
        text: b"a b\n",
    },
    // a leading 0 is octal by `i` alone
    Put {
        words: &["fdtput", "-t", "i", "f", "/u", "clocks", "010", "0x10"],
        status: 0,
        asked: &["fdtget", "f", "/u", "clocks"],
        text: b"8 16\n",
    },
    Put {
        words: &["fdtput", "f", "/u", "clocks", "010"],
        status: 0,
        asked: &["fdtget", "f", "/u", "clocks"],
        text: b"10\n",
    },
    Put {
        words: &["fdtput", "-t", "i", "f", "/u", "clocks", "08"],
        status: 1,
        asked: &["fdtget", "f", "/u", "clocks"],
        text: b"Error: '08' is no number of this width\n1 2\n",
    },
    Put {
        words: &["fdtput", "-c", "f", "/new"],
        status: 0,
        asked: &["fdtget", "-l", "f", "/"],
        text: b"clk\nu@1\nnew\n",
    },
    Put {
        words: &["fdtput", "-r", "f", "/u"],
        status: 0,
        asked: &["fdtget", "-l", "f", "/"],
        text: b"clk\n",
    },
    Put {
        words: &["fdtput", "-d", "f", "/u", "status"],
        status: 0,
        asked: &["fdtget", "-p", "f", "/u"],
        text: b"clocks\n",
    },
    Put {
        words: &["fdtput", "-d", "f", "/u", "none"],
        status: 1,
        asked: &["fdtget", "-p", "f", "/u"],
        text: b"Error at '/u': FDT_ERR_NOTFOUND\nclocks\nstatus\n",
    },
    Put {
        words: &["fdtput", "-c", "f", "/u@1"],
        status: 1,
        asked: &["fdtget", "-l", "f", "/"],
        text: b"Error at 'u@1': FDT_ERR_EXISTS\nclk\nu@1\n",
    },
];

// What a run prints where the file has these bytes.
fn asked<R: Abort + AllocGlobal + Threads + Sync>(
    rt: &R,
    hasher: RandomState,
    words: &[&str],
    file: &[u8],
) -> Vec<u8> {
    let files = [("f", file)];
    let mut shelf = Shelf::new(rt.alloc(), files.as_slice(), hasher);
    left_by(rt, words, &mut shelf).text
}

// The bytes of the file behind a run, which may have written it.
fn left_in_f(closed: &Option<(Vec<u8>, Vec<u8>)>) -> &[u8] {
    match closed {
        Some((_, bytes)) => bytes.as_slice(),
        None => CLOCKED,
    }
}

fn try_put<R: Abort + AllocGlobal + Threads + Sync>(rt: &R, hasher: RandomState, row: &Put) {
    let mut shelf = Shelf::new(rt.alloc(), FILES, hasher);
    let traces = run_over(rt, row.words, &mut shelf, None);
    assert_eq!(rt; traces.status, row.status);
    let file = left_in_f(&shelf.closed);
    let printed = asked(rt, hasher, row.asked, file);
    let mut text = traces.errors.into_bytes();
    text.extend_from_slice(printed.as_slice())
        .expect(rt, "memory");
    assert_eq!(rt; text.as_slice(), row.text);
}

#[test]
fn fdtput_does_what_the_tool_does(rt: HostRuntime) {
    let hasher = RandomState::new(&rt).expect(&rt, "a seed");
    for row in PUTS {
        try_put(&rt, hasher, row);
    }
}

#[test]
fn fdtdump_prints_the_words(rt: HostRuntime) {
    let hasher = RandomState::new(&rt).expect(&rt, "a seed");
    let mut shelf = Shelf::new(rt.alloc(), FILES, hasher);
    let Left { status, text } = left_by(&rt, &["fdtdump", "f"], &mut shelf);
    assert_eq!(&rt; status, 0);
    let tail =
        b"// size_dt_struct:\t0x70\n\n/ {\n    clk {\n        #clock-cells = <0x00000001>;\n        phandle = <0x00000001>;\n    };\n    u@1 {\n        clocks = <0x00000001 0x00000002>;\n        status = \"okay\";\n    };\n};\n";
    assert!(&rt; text.as_slice().ends_with(tail.as_slice()));
}
