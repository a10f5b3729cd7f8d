//! Driver files with lines `early` and `bus`.

use bus_drivers::read_drivers;
use bus_links::{LinkDrivers, read_link_drivers};
use bus_plan::PlanError;
use std::alloc::Global;
use std::hash::RandomState;
use std::process::Abort;

/// What is read of a text that says something.
fn read(rt: &impl Abort, alloc: Global, hasher: RandomState, text: &str) -> LinkDrivers {
    read_link_drivers(alloc, hasher, text.as_bytes()).expect(rt, "drivers")
}

/// The fault of a text that has one.
fn fault(alloc: Global, hasher: RandomState, text: &str) -> Option<PlanError> {
    match read_link_drivers(alloc, hasher, text.as_bytes()) {
        Ok(_) => None,
        Err(error) => Some(error),
    }
}

#[test]
fn strings_of_early_devices_and_buses(rt: HostRuntime) {
    let alloc = rt.alloc();
    let hasher = RandomState::new(&rt).expect(&rt, "a seed");
    let text = "early a b a\n# early c\ndriver x d\nbus isa q\nearly e\n";
    let drivers = read(&rt, alloc, hasher, text);
    for string in [b"a".as_slice(), b"b".as_slice(), b"e".as_slice()] {
        assert!(rt; drivers.early().contains(string));
    }
    for string in [b"c".as_slice(), b"d".as_slice(), b"q".as_slice()] {
        assert!(rt; !drivers.early().contains(string));
    }
    let buses = [
        b"simple-bus".as_slice(),
        b"simple-mfd".as_slice(),
        b"isa".as_slice(),
        b"arm,amba-bus".as_slice(),
        b"q".as_slice(),
    ];
    for string in buses {
        assert!(rt; drivers.buses().contains(string));
    }
    assert!(rt; !drivers.buses().contains(b"a"));
    assert_eq!(rt; drivers.drivers().drivers().len(), 1);
}

/// Texts and their faults, the first in line order.
const FAULTS: [(&'static str, Option<PlanError>); 8] = [
    ("", None),
    ("early", Some(PlanError::BadLine(1))),
    ("driver x c\nbus", Some(PlanError::BadLine(2))),
    ("earl a", Some(PlanError::BadLine(1))),
    ("early a\nfail nix\n", Some(PlanError::BadLine(2))),
    (
        "bus b\ndriver x c\ndriver x d\n",
        Some(PlanError::DuplicateDriver(3)),
    ),
    ("early #a\n", None),
    ("early \x01\n", Some(PlanError::BadLine(1))),
];

#[test]
fn faults_in_line_order(rt: HostRuntime) {
    let alloc = rt.alloc();
    let hasher = RandomState::new(&rt).expect(&rt, "a seed");
    for (text, wanted) in &FAULTS {
        assert_eq!(rt; fault(alloc, hasher, *text), *wanted, "{text}");
    }
}

/// Without links these lines are bad.
#[test]
fn lines_that_count_with_links_alone(rt: HostRuntime) {
    let alloc = rt.alloc();
    let hasher = RandomState::new(&rt).expect(&rt, "a seed");
    for text in [b"early a".as_slice(), b"bus b".as_slice()] {
        match read_drivers(alloc, hasher, text) {
            Ok(_) => assert!(rt; false),
            Err(error) => assert_eq!(rt; error, PlanError::BadLine(1)),
        }
    }
}
