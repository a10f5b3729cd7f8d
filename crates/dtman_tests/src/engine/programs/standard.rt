//! Standard input and standard output as paths, and an output that nobody reads.

use super::clock_and_uart::BLOB as BOARD;
use super::compiling::BLOB;
use crate::runs::{Files, ends, run_over};
use crate::shelf::{Errors, Shelf};
use dtman_cli::run_words;
use dtman_engine::{Failed, Memory};
use std::hash::RandomState;
use std::process::Abort;
use std::thread::Threads;

const SOURCE: &[u8] = b"/dts-v1/; / { };";

const TEXT: &[u8] = b"/dts-v1/;\n\n/ {\n};\n";

const DRIVERS: &[u8] = b"driver fixed fixed-clock\ndriver ns ns16550a\n";

const PLAN: &[u8] = b"/clk fixed ok\n/uart ns ok /clk\n";

/// The files of all rows. The one named `./-` isn't standard input.
const FILES: Files = &[
    ("board.dts", SOURCE),
    ("board.dtb", BOARD),
    ("board.drivers", DRIVERS),
    ("board.plan", PLAN),
    ("./-", BLOB),
];

/// A run with something on standard input, and what it prints.
struct Run {
    words: &'static [&'static str],
    input: &'static [u8],
    printed: &'static [u8],
}

/// That a run with something on standard input prints this, and writes no file.
fn prints<R: AllocGlobal + Threads + Sync + Abort>(
    rt: &R,
    hasher: RandomState,
    words: &[&str],
    input: &[u8],
    printed: &[u8],
) {
    let mut shelf = Shelf::new(rt.alloc(), FILES, hasher);
    shelf.input = input;
    let traces = run_over(rt, words, &mut shelf, None);
    assert_eq!(rt; traces.errors.as_str(), "");
    assert_eq!(rt; traces.status, 0);
    assert_eq!(rt; traces.output.as_slice(), printed);
    assert!(rt; shelf.has_written("", b""));
}

#[test]
fn reads_and_writes_what_a_dash_stands_for(rt: HostRuntime) {
    const RUNS: &[Run] = &[
        Run {
            words: &["dtman", "compile", "-", "-"],
            input: SOURCE,
            printed: BLOB,
        },
        Run {
            words: &["dtman", "compile", "board.dts", "-"],
            input: b"",
            printed: BLOB,
        },
        Run {
            words: &["dtman", "dump", "-"],
            input: BLOB,
            printed: TEXT,
        },
        Run {
            words: &["dtman", "dump", "./-"],
            input: b"",
            printed: TEXT,
        },
        Run {
            words: &["dtman", "plan", "-", "board.drivers"],
            input: BOARD,
            printed: PLAN,
        },
        Run {
            words: &["dtman", "plan", "board.dtb", "-"],
            input: DRIVERS,
            printed: PLAN,
        },
        Run {
            words: &["dtman", "probe", "-", "board.drivers"],
            input: BOARD,
            printed: b"/clk bound fixed\n/uart bound ns\nquiet\n",
        },
        Run {
            words: &["dtman", "replay", "board.plan", "-"],
            input: b"begin /clk\n",
            printed: b"/clk probing\n/uart due\nbusy\n",
        },
        Run {
            words: &["dtman", "replay", "-", "-"],
            input: b"",
            printed: b"quiet\n",
        },
    ];
    let hasher = RandomState::new(&rt).expect(&rt, "a seed");
    for run in RUNS {
        prints(&rt, hasher, run.words, run.input, run.printed);
    }
}

/// The rule of make comes first, and standard input is no file that it names.
#[test]
fn names_no_standard_input(rt: HostRuntime) {
    let hasher = RandomState::new(&rt).expect(&rt, "a seed");
    let mut shelf = Shelf::new(rt.alloc(), FILES, hasher);
    shelf.input = SOURCE;
    let words = ["dtman", "compile", "-", "-", "--depfile", "rule"];
    let traces = run_over(&rt, words.as_slice(), &mut shelf, None);
    assert_eq!(rt; traces.status, 0);
    assert_eq!(rt; traces.output.as_slice(), BLOB);
    assert!(rt; shelf.has_written("rule", b"-:\n"));
}

/// That a run with something on standard input is refused in this way.
fn is_refused<R: AllocGlobal + Threads + Sync + Abort>(
    rt: &R,
    hasher: RandomState,
    words: &[&str],
    input: &[u8],
    told: &str,
) {
    let mut shelf = Shelf::new(rt.alloc(), FILES, hasher);
    shelf.input = input;
    ends(rt, words, &mut shelf, 1, "", told);
}

#[test]
fn tells_what_is_refused_of_standard_input(rt: HostRuntime) {
    let hasher = RandomState::new(&rt).expect(&rt, "a seed");
    let words = ["dtman", "compile", "-", "-"];
    let told = "error 10 Syntax line 1\n";
    is_refused(&rt, hasher, words.as_slice(), b"/dts-v1/; / {", told);
    // The first that reads standard input reads all of it.
    let words = ["dtman", "overlay", "-", "-", "-"];
    is_refused(&rt, hasher, words.as_slice(), BLOB, "error 30 Truncated\n");
}

#[test]
fn writes_a_file_named_dash(rt: HostRuntime) {
    let hasher = RandomState::new(&rt).expect(&rt, "a seed");
    let mut shelf = Shelf::new(rt.alloc(), FILES, hasher);
    let words = ["dtman", "compile", "board.dts", "./-"];
    let traces = run_over(&rt, words.as_slice(), &mut shelf, None);
    assert_eq!(rt; traces.status, 0);
    assert!(rt; traces.output.is_empty());
    assert!(rt; shelf.has_written("./-", BLOB));
}

#[test]
fn tells_standard_input_that_cannot_be_read(rt: HostRuntime) {
    let hasher = RandomState::new(&rt).expect(&rt, "a seed");
    let mut shelf = Shelf::new(rt.alloc(), FILES, hasher);
    shelf.fails_at = Some(0);
    let words = ["dtman", "dump", "-"];
    let traces = run_over(&rt, words.as_slice(), &mut shelf, None);
    assert_eq!(rt; traces.status, 3);
    assert_eq!(rt; traces.errors.as_str(), "error 80 CannotRead stdin\n");
}

/// That a run whose reader is gone at a call ends with status 3, and without a word.
fn ends_unread<R: AllocGlobal + Threads + Sync + Abort>(
    rt: &R,
    hasher: RandomState,
    words: &[&str],
    call: usize,
) {
    let mut shelf = Shelf::new(rt.alloc(), FILES, hasher);
    let mut output = Memory::new(rt.alloc(), b"");
    output.pace = 5;
    output.calls_left = Some(call);
    output.failing = Failed::Unread;
    let errors = Errors::new(rt.alloc());
    let status = run_words(rt.alloc(), &mut shelf, rt, &mut output, &errors, words);
    let Errors { text } = errors;
    let text = text.into_inner();
    assert_eq!(rt; status, 3);
    assert_eq!(rt; text.as_str(), "");
}

#[test]
fn an_output_that_nobody_reads_ends_the_program_quietly(rt: HostRuntime) {
    const ROWS: &[&[&str]] = &[
        &["dtman", "compile", "board.dts", "-"],
        &["dtman", "dump", "./-"],
        &["dtman", "plan", "board.dtb", "board.drivers"],
        &["dtman", "probe", "board.dtb", "board.drivers"],
        &["dtman", "replay", "board.plan", "-"],
        &["dtman", "explain", "63"],
        &["dtman", "--help"],
        &["dtman", "--version"],
    ];
    let hasher = RandomState::new(&rt).expect(&rt, "a seed");
    for words in ROWS {
        ends_unread(&rt, hasher, *words, 1);
    }
}
