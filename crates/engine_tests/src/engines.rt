//! From bytes to bytes: what each command prints.

mod channels;
mod errors;

use crate::answers::printed;
use crate::compiling::compiled;
use bus_tests::replays::{CLOCK_AND_UART, REPLAYS};
use dtman_engine::{dump_bytes, overlay_bytes, replay_bytes};
use std::alloc::Global;
use std::hash::RandomState;
use std::process::Abort;

/// A row: its name, the plan, the schedule, and what is printed.
type Row = (&'static str, &'static str, &'static str, &'static str);

// The same rows as those of the replays, of what a core's calls alone don't meet.
const FAULTS: &[Row] = &[
    (
        "the plan's fault comes first",
        "/clk fixed\n",
        "begin /nix\n",
        "error 50 BadLine line 1",
    ),
    (
        "the whole schedule is read before its first event",
        CLOCK_AND_UART,
        "finish /clk settled\nbegin /clk",
        "error 66 NotInFlight event 1",
    ),
];

fn is_replayed(rt: &impl Abort, alloc: Global, hasher: RandomState, row: &Row) {
    let (name, plan, schedule, wanted) = row;
    let answer = replay_bytes(alloc, hasher, plan.as_bytes(), schedule.as_bytes());
    let text = printed(rt, alloc, answer);
    assert_eq!(rt; text.as_slice(), wanted.as_bytes(), "{name}");
}

fn are_replayed(rt: &impl Abort, alloc: Global, hasher: RandomState, rows: &[Row]) {
    for row in rows {
        is_replayed(rt, alloc, hasher, row);
    }
}

#[test]
fn replays_the_worked_rows(rt: HostRuntime) {
    let hasher = RandomState::new(&rt).expect(&rt, "a seed");
    are_replayed(&rt, rt.alloc(), hasher, REPLAYS);
}

#[test]
fn tells_the_first_fault(rt: HostRuntime) {
    let hasher = RandomState::new(&rt).expect(&rt, "a seed");
    are_replayed(&rt, rt.alloc(), hasher, FAULTS);
}

/// The blob of the source `/ { a = <1>; };`.
const ONE_CELL: [u8; 90] = [
    0xd0, 0x0d, 0xfe, 0xed, 0, 0, 0, 0x5a, 0, 0, 0, 0x38, 0, 0, 0, 0x58, 0, 0, 0, 0x28, 0, 0, 0,
    0x11, 0, 0, 0, 0x10, 0, 0, 0, 0, 0, 0, 0, 2, 0, 0, 0, 0x20, 0, 0, 0, 0, 0, 0, 0, 0, 0, 0, 0, 0,
    0, 0, 0, 0, 0, 0, 0, 1, 0, 0, 0, 0, 0, 0, 0, 3, 0, 0, 0, 4, 0, 0, 0, 0, 0, 0, 0, 1, 0, 0, 0, 2,
    0, 0, 0, 9, 0x61, 0,
];

fn is_dumped(rt: &impl Abort, alloc: Global, blob: &[u8], wanted: &str) {
    let text = printed(rt, alloc, dump_bytes(alloc, blob));
    assert_eq!(rt; text.as_slice(), wanted.as_bytes());
}

/// Its text.
const ONE_CELL_TEXT: &str = "/dts-v1/;\n\n/ {\n\ta = <0x00000001>;\n};\n";

#[test]
fn dumps_one_cell_and_changed_blobs(rt: HostRuntime) {
    is_dumped(&rt, rt.alloc(), ONE_CELL.as_slice(), ONE_CELL_TEXT);
    is_dumped(&rt, rt.alloc(), &ONE_CELL[..89], "error 30 Truncated");
    let mut changed = ONE_CELL;
    changed[23] = 3;
    is_dumped(&rt, rt.alloc(), changed.as_slice(), "error 32 BadVersion");
}

/// The same blob in version 16, with no size where version 17 has it.
fn one_cell_in_16() -> [u8; 90] {
    let mut blob = ONE_CELL;
    blob[23] = 16;
    blob[36] = 0xff;
    blob[37] = 0xff;
    blob[38] = 0xff;
    blob[39] = 0xff;
    blob
}

fn is_overlaid(
    rt: &impl Abort,
    alloc: Global,
    hasher: RandomState,
    base: &[u8],
    overlay: &[u8],
    wanted: &[u8],
) {
    let answer = overlay_bytes(alloc, hasher, base, overlay);
    assert_eq!(rt; printed(rt, alloc, answer).as_slice(), wanted);
}

const NOTHING: &str = "/dts-v1/; / { f { target-path = \"/\"; __overlay__ { }; }; };";

/// Row `version-16`: `dump` and `overlay` take it, and the blob that `overlay` writes is of version 17.
#[test]
fn version_16(rt: HostRuntime) {
    let alloc = rt.alloc();
    let hasher = RandomState::new(&rt).expect(&rt, "a seed");
    let blob = one_cell_in_16();
    let blob = blob.as_slice();
    is_dumped(&rt, alloc, blob, ONE_CELL_TEXT);
    let nothing = compiled(&rt, alloc, hasher, NOTHING, false);
    let nothing = nothing.as_slice();
    is_overlaid(&rt, alloc, hasher, blob, nothing, ONE_CELL.as_slice());
    is_overlaid(&rt, alloc, hasher, blob, blob, b"error 40 NotOverlay");
}
