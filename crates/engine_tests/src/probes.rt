//! Plans of blobs, and probes of their devices by workers.

use crate::answers::printed;
use bus_manager::{Prober, TableProber};
use bus_tests::gate::Gate;
use dtman_engine::{plan_bytes, probe_bytes};
use std::alloc::Global;
use std::hash::RandomState;
use std::process::Abort;
use std::thread::Threads;

// `/ { clk: clk { compatible = "fixed-clock"; #clock-cells = <0>; }; uart { compatible = "ns16550a"; clocks = <&clk>; }; };`
const CLOCK_AND_UART: &[u8] =
    b"\xd0\x0d\xfe\xed\0\0\0\xeb\0\0\08\0\0\0\xc4\0\0\0(\0\0\0\x11\0\0\0\x10\0\0\0\0\0\0\0'\0\0\
\0\x8c\0\0\0\0\0\0\0\0\0\0\0\0\0\0\0\0\0\0\0\x01\0\0\0\0\0\0\0\x01clk\0\0\0\0\x03\0\0\0\
\x0c\0\0\0\0fixed-clock\0\0\0\0\x03\0\0\0\x04\0\0\0\x0b\0\0\0\0\0\0\0\x03\0\0\0\x04\0\0\0\
\x18\0\0\0\x01\0\0\0\x02\0\0\0\x01uart\0\0\0\0\0\0\0\x03\0\0\0\x09\0\0\0\0ns16550a\0\0\0\0\
\0\0\0\x03\0\0\0\x04\0\0\0 \0\0\0\x01\0\0\0\x02\0\0\0\x02\0\0\0\x09compatible\0#clock-cell\
s\0phandle\0clocks\0";

const DRIVERS: &str = "driver fixed fixed-clock\ndriver ns ns16550a\n";

// `/ { a { compatible = "x"; }; b { compatible = "y"; }; };`
const TWO_ALONE: &[u8] =
    b"\xd0\x0d\xfe\xed\0\0\0\x8b\0\0\08\0\0\0\x80\0\0\0(\0\0\0\x11\0\0\0\x10\0\0\0\0\0\0\0\x0b\0\
\0\0H\0\0\0\0\0\0\0\0\0\0\0\0\0\0\0\0\0\0\0\x01\0\0\0\0\0\0\0\x01a\0\0\0\0\0\0\x03\0\0\0\
\x02\0\0\0\0x\0\0\0\0\0\0\x02\0\0\0\x01b\0\0\0\0\0\0\x03\0\0\0\x02\0\0\0\0y\0\0\0\0\0\0\
\x02\0\0\0\x02\0\0\0\x09compatible\0";

fn is_planned(
    rt: &impl Abort,
    alloc: Global,
    hasher: RandomState,
    blob: &[u8],
    drivers: &str,
    wanted: &str,
) {
    let answer = plan_bytes(alloc, hasher, blob, drivers.as_bytes());
    let text = printed(rt, alloc, answer);
    assert_eq!(rt; text.as_slice(), wanted.as_bytes());
}

#[test]
fn plans_blobs(rt: HostRuntime) {
    const ROWS: &[(&[u8], &str, &str)] = &[
        (CLOCK_AND_UART, DRIVERS, "/clk fixed ok\n/uart ns ok /clk\n"),
        (
            TWO_ALONE,
            "",
            "/a - -\n/b - -\ncompatible /a x\ncompatible /b y\n",
        ),
        // The blob's fault comes first, then the driver file's, then the plan's.
        (b"", "driver - x\n", "error 30 Truncated"),
        (
            TWO_ALONE,
            "fail /nix\ndriver - x\n",
            "error 50 BadLine line 2",
        ),
        (
            TWO_ALONE,
            "driver x x\nfail /nix\n",
            "error 53 UnknownPath line 2",
        ),
    ];
    let hasher = RandomState::new(&rt).expect(&rt, "a seed");
    for (blob, drivers, wanted) in ROWS {
        is_planned(&rt, rt.alloc(), hasher, *blob, *drivers, *wanted);
    }
}

fn is_probed<P: Prober, R: Threads + Sync + Abort>(
    rt: &R,
    alloc: Global,
    hasher: RandomState,
    input: (&[u8], &str),
    prober: &P,
    workers: usize,
    wanted: &str,
) {
    let (blob, drivers) = input;
    let drivers = drivers.as_bytes();
    let ran = probe_bytes(rt, alloc, hasher, blob, drivers, prober, workers);
    let text = printed(rt, alloc, ran.map(|ran| ran.report));
    assert_eq!(rt; text.as_slice(), wanted.as_bytes());
}

#[test]
fn probes_blobs(rt: HostRuntime) {
    const REPORT: &str = "/clk bound fixed\n/uart bound ns\nquiet\n";
    const ROWS: &[(usize, &str)] = &[
        (1, REPORT),
        (2, REPORT),
        (64, REPORT),
        (0, "error 70 TooManyWorkers"),
        (65, "error 70 TooManyWorkers"),
    ];
    let hasher = RandomState::new(&rt).expect(&rt, "a seed");
    for (workers, wanted) in ROWS {
        let input = (CLOCK_AND_UART, DRIVERS);
        is_probed(
            &rt,
            rt.alloc(),
            hasher,
            input,
            &TableProber,
            *workers,
            *wanted,
        );
    }
}

#[test]
fn gate_two_probes(rt: HostRuntime) {
    let gate = Gate::new();
    let hasher = RandomState::new(&rt).expect(&rt, "a seed");
    let input = (TWO_ALONE, "driver one x\ndriver two y\n");
    let wanted = "/a bound one\n/b bound two\nquiet\n";
    is_probed(&rt, rt.alloc(), hasher, input, &gate, 2, wanted);
    assert!(rt; gate.has_overlapped(), "the probes overlap");
}
