//! The pages of `--help`.

use crate::runs::run_over;
use crate::shelf::Shelf;
use std::hash::RandomState;
use std::process::Abort;
use std::thread::Threads;

/// That a page is printed, and that no line of it has more than 80 characters.
fn fits<R: AllocGlobal + Threads + Sync + Abort>(rt: &R, hasher: RandomState, words: &[&str]) {
    let mut shelf = Shelf::new(rt.alloc(), &[], hasher);
    let traces = run_over(rt, words, &mut shelf, None);
    assert_eq!(rt; traces.status, 0);
    let mut column = 0u8;
    for byte in traces.output.as_slice() {
        column = if *byte == b'\n' {
            0
        } else {
            column.saturating_add(1)
        };
        assert!(rt; column <= 80);
    }
}

#[test]
fn help_fits_80_columns(rt: HostRuntime) {
    const PAGES: &[&[&str]] = &[
        &["dtman", "--help"],
        &["dtman", "compile", "--help"],
        &["dtman", "cpp", "--help"],
        &["dtman", "overlay", "--help"],
        &["dtman", "dump", "--help"],
        &["dtman", "plan", "--help"],
        &["dtman", "replay", "--help"],
        &["dtman", "probe", "--help"],
        &["dtman", "why", "--help"],
        &["dtman", "needs", "--help"],
        &["dtman", "drivers", "--help"],
        &["dtman", "trace", "--help"],
        &["dtman", "check", "--help"],
        &["dtman", "diff", "--help"],
        &["dtman", "get", "--help"],
        &["dtman", "ls", "--help"],
        &["dtman", "set", "--help"],
        &["dtman", "find", "--help"],
        &["dtman", "who", "--help"],
        &["dtman", "map", "--help"],
        &["dtman", "fmt", "--help"],
        &["dtman", "lsp", "--help"],
        &["dtman", "explain", "--help"],
    ];
    let hasher = RandomState::new(&rt).expect(&rt, "a seed");
    for words in PAGES {
        fits(&rt, hasher, *words);
    }
}
