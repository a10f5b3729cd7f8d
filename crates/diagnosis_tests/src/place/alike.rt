//! Names that are spelled alike: at most a third of a name's letters differ, and not all.

use dtman_diagnosis::nearest;
use std::process::Abort;

/// A name, the names that are there, and those that are told.
struct Row {
    name: &'static [u8],
    names: &'static [&'static [u8]],
    told: &'static [&'static [u8]],
}

const ROWS: &[Row] = &[
    Row {
        name: b"nope",
        names: &[b"p", b"l", b"led"],
        told: &[],
    },
    Row {
        name: b"gpio7",
        names: &[b"spi0", b"gpio1", b"gpio70", b"gpio"],
        told: &[b"gpio1", b"gpio70", b"gpio"],
    },
    Row {
        name: b"b",
        names: &[b"a", b"ab", b"B"],
        told: &[b"B"],
    },
    Row {
        name: b"g7",
        names: &[b"g", b"x8", b"g1"],
        told: &[b"g1"],
    },
    Row {
        name: b"UART0",
        names: &[b"uart1", b"uart0"],
        told: &[b"uart0", b"uart1"],
    },
    Row {
        name: b"interrupts",
        names: &[b"interrupt-parent", b"intrrupt", b"intrrupts"],
        told: &[b"intrrupts", b"intrrupt"],
    },
    // three at most
    Row {
        name: b"abcdef",
        names: &[b"abXdYf", b"abcdxf", b"abcdef0", b"abcde"],
        told: &[b"abcdxf", b"abcdef0", b"abcde"],
    },
];

fn row_is_told<R: Abort + AllocGlobal>(rt: &R, row: &Row) {
    let told = nearest(rt.alloc(), row.name, row.names).expect(rt, "names");
    assert_eq!(rt; told.len(), row.told.len());
    for (name, other) in told.iter().zip(row.told.iter()) {
        assert_eq!(rt; name.as_slice(), *other);
    }
}

#[test]
fn names(rt: HostRuntime) {
    for row in ROWS {
        row_is_told(&rt, row);
    }
}
