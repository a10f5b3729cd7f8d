//! The exit statuses, and what goes where.
ghost use Rattle.std.specs.Prelude.{◌<◌};

use crate::runs::{Files, Row, ends, rows_end, run_over};
use crate::shelf::Shelf;
use std::hash::RandomState;
use std::process::Abort;
use std::thread::Threads;

/// The files of all rows.
const FILES: Files = &[
    ("board.plan", b"/clk fixed ok\n/uart ns ok /clk\n"),
    (
        "boot.schedule",
        b"begin /uart\nbegin /clk\nfinish /clk settled\nfinish /uart missing /clk\n",
    ),
    ("early.schedule", b"begin /uart\nfinish /uart settled\n"),
    ("empty", b""),
    ("short.dtb", b"\xd0\x0d\xfe\xed"),
];

const REPORT: &str = "/clk bound fixed\n/uart due\nbusy\n";

const REPLAY: &[&str] = &["dtman", "replay", "board.plan", "boot.schedule"];

#[test]
fn tells_refusals_on_standard_error_alone(rt: HostRuntime) {
    const ROWS: &[Row] = &[
        (REPLAY, 0, REPORT, ""),
        (&["dtman", "replay", "empty", "empty"], 0, "quiet\n", ""),
        (
            &["dtman", "replay", "board.plan", "early.schedule"],
            1,
            "",
            "error 63 NotReady event 2\n",
        ),
        (
            &["dtman", "replay", "board.plan", "board.plan"],
            1,
            "",
            "error 50 BadLine line 1\n",
        ),
        (
            &["dtman", "dump", "short.dtb"],
            1,
            "",
            "error 30 Truncated\n",
        ),
        (&["dtman", "dump", "empty"], 1, "", "error 30 Truncated\n"),
        (
            &["dtman", "dump", "nix.dtb"],
            3,
            "",
            "error 80 CannotRead nix.dtb\n",
        ),
        // All inputs are read before any is parsed, in the order of the line.
        (
            &["dtman", "replay", "boot.schedule", "nix"],
            3,
            "",
            "error 80 CannotRead nix\n",
        ),
        (
            &["dtman", "replay", "nix", "nought"],
            3,
            "",
            "error 80 CannotRead nix\n",
        ),
    ];
    rows_end(&rt, FILES, ROWS);
}

// That the words are a mistake, told on standard error, or ask for a page, which is printed.
fn is_answered<R: AllocGlobal + Threads + Sync + Abort>(
    rt: &R,
    hasher: RandomState,
    words: &[&str],
    status: u8,
) {
    let mut shelf = Shelf::new(rt.alloc(), FILES, hasher);
    let traces = run_over(rt, words, &mut shelf, None);
    assert_eq!(rt; traces.status, status);
    assert_eq!(rt; traces.output.is_empty(), status == 2);
    assert_eq!(rt; traces.errors.is_empty(), status == 0);
}

#[test]
fn tells_help_on_standard_output_and_mistakes_on_standard_error(rt: HostRuntime) {
    const ROWS: &[(&[&str], u8)] = &[
        (&["dtman", "--help"], 0),
        (&["dtman", "--version"], 0),
        (&["dtman", "explain", "64"], 0),
        (&["dtman", "explain", "99"], 2),
        (&["dtman", "explain", "NotReady"], 0),
        (&["dtman", "explain", "notready"], 0),
        (&["dtman", "explain", "NOTREADY"], 0),
        (&["dtman", "explain", "all"], 0),
        (&["dtman", "explain", "checks"], 0),
        (&["dtman", "explain"], 0),
        (&["dtman", "explain", "every"], 2),
        (&["dtman", "replay", "--help"], 0),
        (&["dtman"], 2),
        (&["dtman", "bind"], 2),
        (&["dtman", "dump"], 2),
        (&["dtman", "dump", "empty", "empty"], 2),
        (&["dtman", "overlay", "--help"], 0),
        (&["dtman", "overlay", "empty", "empty"], 2),
    ];
    let hasher = RandomState::new(&rt).expect(&rt, "a seed");
    for (words, status) in ROWS {
        is_answered(&rt, hasher, *words, *status);
    }
}

/// What is said of checks: of one with a text of its own, of one of a form, and of one that finds nothing.
#[test]
fn tells_what_checks_mean(rt: HostRuntime) {
    const ROWS: &[Row] = &[
        (
            &["dtman", "explain", "lost_ranges"],
            0,
            "lost_ranges (off)\na bus has no `ranges`, so that none of its devices has an address for the processor\nwhat to do: write `ranges;`, or the entries that translate its addresses\n",
            "",
        ),
        (
            &["dtman", "explain", "clocks_is_cell"],
            0,
            "clocks_is_cell (warning)\nthe number of cells (`#..-cells`) isn't one cell\nwhat to do: write one number in < >\n",
            "",
        ),
        (
            &["dtman", "explain", "duplicate_label"],
            0,
            "duplicate_label (error)\nit finds nothing by itself: what it is about is refused when the source is read, or other checks tell it\nwhat to do: nothing\n",
            "",
        ),
    ];
    rows_end(&rt, FILES, ROWS);
}

/// Words for which there is nothing, and what is spelled like them.
#[test]
fn tells_words_for_which_there_is_nothing(rt: HostRuntime) {
    const ROWS: &[Row] = &[
        (
            &["dtman", "explain", "99"],
            2,
            "",
            "error: no error has the number 99\n",
        ),
        (
            &["dtman", "explain", "every"],
            2,
            "",
            "error: no error or check has the name every\n",
        ),
        (
            &["dtman", "explain", "notredy"],
            2,
            "",
            "error: no error or check has the name notredy; did you mean NotReady?\n",
        ),
    ];
    rows_end(&rt, FILES, ROWS);
}

fn read_fails<R: AllocGlobal + Threads + Sync + Abort>(
    rt: &R,
    hasher: RandomState,
    call: usize,
    told: &str,
) {
    let mut shelf = Shelf::new(rt.alloc(), FILES, hasher);
    shelf.fails_at = Some(call);
    ends(rt, REPLAY, &mut shelf, 3, "", told);
}

/// Each call on an input fails in turn: the file that has the fault is told, and nothing is printed.
#[test]
fn tells_a_read_that_fails(rt: HostRuntime) {
    let hasher = RandomState::new(&rt).expect(&rt, "a seed");
    // 31 bytes by 7 and the end are 6 calls, and 11 for the 69 bytes of the schedule; each input counts its own.
    for call in 0..11usize {
        let told = if call < 6 {
            "error 80 CannotRead board.plan\n"
        } else {
            "error 80 CannotRead boot.schedule\n"
        };
        read_fails(&rt, hasher, call, told);
    }
}

fn write_fails<R: AllocGlobal + Threads + Sync + Abort>(rt: &R, hasher: RandomState, call: usize)
    requires { call < 7 }
{
    let mut shelf = Shelf::new(rt.alloc(), FILES, hasher);
    let traces = run_over(rt, REPLAY, &mut shelf, Some(call));
    let written = traces.output.as_slice();
    assert_eq!(rt; traces.status, 3, "{call}");
    assert_eq!(rt; Some(written), REPORT.as_bytes().get(..5 * call), "{call}");
    let told = "error 81 CannotWrite stdout\n";
    assert_eq!(rt; traces.errors.as_str(), told, "{call}");
}

/// Each call on standard output fails in turn: a beginning of the report is there.
#[test]
fn tells_a_write_that_fails(rt: HostRuntime) {
    let hasher = RandomState::new(&rt).expect(&rt, "a seed");
    // 33 bytes by 5 are 7 calls.
    for call in 0..7usize {
        write_fails(&rt, hasher, call);
    }
}

#[test]
fn tells_that_there_is_no_seed(rt: HostRuntime) {
    let hasher = RandomState::new(&rt).expect(&rt, "a seed");
    let mut shelf = Shelf::new(rt.alloc(), FILES, hasher);
    shelf.seed = None;
    ends(
        &rt,
        REPLAY,
        &mut shelf,
        3,
        "",
        "error 80 CannotRead random\n",
    );
}
