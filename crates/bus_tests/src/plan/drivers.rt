//! Driver files, and the plan of a tree.
use bus_drivers::{Driver, FailLine, read_drivers};
use bus_plan::PlanError;
use dt_tree::Bytes;
use std::alloc::Global;
use std::hash::RandomState;
use std::process::Abort;

fn is_refused(rt: &impl Abort, alloc: Global, hasher: RandomState, text: &[u8], error: PlanError) {
    let refusal = read_drivers(alloc, hasher, text).err();
    assert_eq!(rt; refusal, Some(error));
}

/// Driver files that are refused, with the fault and its line.
#[test]
fn driver_files_are_refused_in_line_order(rt: HostRuntime) {
    const ROWS: &[(&[u8], PlanError)] = &[
        (b"driver", PlanError::BadLine(1)),
        (b"driver x", PlanError::BadLine(1)),
        (b"driver - c", PlanError::BadLine(1)),
        (b"driver a/b c", PlanError::BadLine(1)),
        (b"fail", PlanError::BadLine(1)),
        (b"fail nix", PlanError::BadLine(1)),
        (b"fail /a /b", PlanError::BadLine(1)),
        (b"drivers x c", PlanError::BadLine(1)),
        (b"compatible / s", PlanError::BadLine(1)),
        (b"#\n\ndriver x c\r\r\n", PlanError::BadLine(3)),
        (
            b"driver x c\ndriver y c\ndriver x d\n",
            PlanError::DuplicateDriver(3),
        ),
        (
            b"driver x c\ndriver x d\nfail\n",
            PlanError::DuplicateDriver(2),
        ),
        (b"driver x c\n# \x7f\ndriver x d\n", PlanError::BadLine(2)),
    ];
    let hasher = RandomState::new(&rt).expect(&rt, "a seed");
    for (text, error) in ROWS {
        is_refused(&rt, rt.alloc(), hasher, *text, *error);
    }
}

fn has_name(rt: &impl Abort, driver: &Driver, name: &[u8]) {
    assert_eq!(rt; driver.name().as_bytes(), name);
}

fn strings_are_told(rt: &impl Abort, strings: &[Bytes]) {
    let [first, second, third] = strings else {
        panic!(rt; "three strings");
    };
    let told = [first.as_slice(), second.as_slice(), third.as_slice()];
    let wanted: [&[u8]; 3] = [b"ns16550a", b"ns16550a", b"x,\"y\""];
    assert_eq!(rt; told, wanted);
}

fn drivers_are_told(rt: &impl Abort, drivers: &[Driver]) {
    let [fixed, ns] = drivers else {
        panic!(rt; "two drivers");
    };
    has_name(rt, fixed, b"fixed");
    assert_eq!(rt; fixed.compatibles().len(), 1);
    has_name(rt, ns, b"ns");
    strings_are_told(rt, ns.compatibles());
}

fn fail_is_told(rt: &impl Abort, fail: &FailLine, path: &[u8], line: usize) {
    assert_eq!(rt; fail.path().as_bytes(), path);
    assert_eq!(rt; fail.line(), line);
}

fn fails_are_told(rt: &impl Abort, fails: &[FailLine]) {
    let [root, uart] = fails else {
        panic!(rt; "two devices that fail");
    };
    fail_is_told(rt, root, b"/", 4);
    fail_is_told(rt, uart, b"/uart", 6);
}

/// A driver file that is read: drivers with their strings, and the lines that fail a device.
#[test]
fn driver_files_are_read(rt: HostRuntime) {
    let text =
        b"# drivers\n\ndriver fixed fixed-clock\n  fail\t/ \r\ndriver ns ns16550a ns16550a x,\"y\"\nfail /uart";
    let hasher = RandomState::new(&rt).expect(&rt, "a seed");
    let set = read_drivers(rt.alloc(), hasher, text).expect(&rt, "a driver file");
    set.check();
    drivers_are_told(&rt, set.drivers());
    fails_are_told(&rt, set.fails());
}
