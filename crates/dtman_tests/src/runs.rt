//! Runs of the program over memory, and what they leave.

use crate::shelf::{Errors, Shelf};
use dtman_cli::run_words;
use dtman_engine::Memory;
use std::hash::RandomState;
use std::process::Abort;
use std::random::RandomSource;
use std::thread::Threads;

/// Files by their paths.
pub type Files = &'static [(&'static str, &'static [u8])];

/// A run that writes no file: its words, its status, what it prints, and what it tells on standard error.
pub type Row = (&'static [&'static str], u8, &'static str, &'static str);

/// A run that prints nothing: its words, its status, what it tells on standard error, and what stands in OUT.
pub type Writing = (&'static [&'static str], u8, &'static str, &'static [u8]);

/// What a run of the program left.
#[derive(Drop)]
pub struct Traces {
    pub status: u8,
    pub output: Vec<u8>,
    pub errors: String,
}

/// Runs the program over the files, where a call on standard output may fail.
pub fn run_over<R: AllocGlobal + Threads + Sync>(
    rt: &R,
    words: &[&str],
    shelf: &mut Shelf<'_>,
    output_fails_at: Option<usize>,
) -> Traces {
    let mut output = Memory::new(rt.alloc(), b"");
    output.pace = 5;
    output.calls_left = output_fails_at;
    let errors = Errors::new(rt.alloc());
    let status = run_words(rt.alloc(), shelf, rt, &mut output, &errors, words);
    let Memory { written, .. } = output;
    let Errors { text } = errors;
    Traces {
        status,
        output: written,
        errors: text.into_inner(),
    }
}

/// The status of a run, and one behind the other what it told, what it printed, and what stands in the file that it wrote last.
#[derive(Drop)]
pub struct Left {
    pub status: u8,
    pub text: Vec<u8>,
}

/// What a run over the shelf leaves.
pub fn left_by<R: AllocGlobal + Threads + Sync + Abort>(
    rt: &R,
    words: &[&str],
    shelf: &mut Shelf<'_>,
) -> Left {
    let Traces {
        status,
        output,
        errors,
    } = run_over(rt, words, shelf, None);
    let mut text = errors.into_bytes();
    text.extend_from_slice(output.as_slice())
        .expect(rt, "memory");
    if let Some((_, bytes)) = &shelf.closed {
        text.extend_from_slice(bytes.as_slice())
            .expect(rt, "memory");
    }
    Left { status, text }
}

fn are_left(rt: &impl Abort, traces: &Traces, status: u8, printed: &str, told: &str) {
    assert_eq!(rt; traces.errors.as_bytes(), told.as_bytes());
    assert_eq!(rt; traces.status, status);
    assert_eq!(rt; traces.output.as_slice(), printed.as_bytes());
}

/// That a run over the shelf ends with this status, prints this, and tells this on standard error.
pub fn ends<R: AllocGlobal + Threads + Sync + Abort>(
    rt: &R,
    words: &[&str],
    shelf: &mut Shelf<'_>,
    status: u8,
    printed: &str,
    told: &str,
) {
    let traces = run_over(rt, words, shelf, None);
    are_left(rt, &traces, status, printed, told);
}

/// That each row's run over the files ends as it tells.
pub fn rows_end<R: AllocGlobal + RandomSource + Threads + Sync + Abort>(
    rt: &R,
    files: Files,
    rows: &[Row],
) {
    let hasher = RandomState::new(rt).expect(rt, "a seed");
    for (words, status, printed, told) in rows {
        let mut shelf = Shelf::new(rt.alloc(), files, hasher);
        ends(rt, *words, &mut shelf, *status, *printed, *told);
    }
}

/// That the row's run over the files ends as it tells, and leaves the file OUT so.
pub fn row_writes<R: AllocGlobal + Threads + Sync + Abort>(
    rt: &R,
    files: &[(&str, &[u8])],
    hasher: RandomState,
    row: &Writing,
) {
    let (words, status, told, written) = row;
    let mut shelf = Shelf::new(rt.alloc(), files, hasher);
    ends(rt, *words, &mut shelf, *status, "", *told);
    assert!(rt; shelf.has_written("out", *written));
}

/// That each row's run does so.
pub fn rows_write<R: AllocGlobal + RandomSource + Threads + Sync + Abort>(
    rt: &R,
    files: Files,
    rows: &[Writing],
) {
    let hasher = RandomState::new(rt).expect(rt, "a seed");
    for row in rows {
        row_writes(rt, files, hasher, row);
    }
}
