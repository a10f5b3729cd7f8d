//! Where in a source that stands which is refused of what it says, and where a compiled source has its nodes and properties.

use dtman_engine::{Compiled, DtcOptions, Fault, compile_bytes, compile_dtc};
use std::alloc::Global;
use std::hash::RandomState;
use std::process::Abort;

/// A source, whether it is in dtc's language, the number by which it is refused, and what stands there, in its last line.
struct Row {
    source: &'static str,
    is_dtc: bool,
    number: u8,
    there: &'static str,
}

const ROWS: &[Row] = &[
    Row {
        source: "/dts-v1/;\n/ { a = <1 &nix 2>; };",
        is_dtc: false,
        number: 20,
        there: "&nix 2",
    },
    Row {
        source: "/dts-v1/;\n/ { l: a { }; m: l: b { }; };",
        is_dtc: false,
        number: 21,
        there: "b { }",
    },
    Row {
        source: "/dts-v1/;\n/ { l: a { }; };\nl: &{/} { };",
        is_dtc: true,
        number: 21,
        there: "&{/} { }",
    },
    Row {
        source: "/dts-v1/;\n/delete-node/ &{/nix};\n/ { };",
        is_dtc: false,
        number: 22,
        there: "&{/nix}",
    },
    Row {
        source: "/dts-v1/;\n/ { phandle = <1>; a { phandle = <0>; }; };",
        is_dtc: false,
        number: 23,
        there: "phandle = <0>",
    },
    Row {
        source: "/dts-v1/;\n/ { a { phandle = <1>; }; b { linux,phandle = <1>; }; };",
        is_dtc: true,
        number: 24,
        there: "linux,phandle",
    },
    Row {
        source: "/dts-v1/;\n/ { a; /delete-property/ a; a = <1>; };",
        is_dtc: false,
        number: 25,
        there: "a = <1>",
    },
    Row {
        source: "/dts-v1/;\n/ { a { }; /delete-node/ a; };",
        is_dtc: true,
        number: 25,
        there: "a; };",
    },
    Row {
        source: "/dts-v1/;\n/plugin/;\n&a { r = <&{/b}>; };",
        is_dtc: false,
        number: 26,
        there: "&{/b}",
    },
    Row {
        source: "/dts-v1/;\n/plugin/;\n/ { __fixups__ { }; };",
        is_dtc: true,
        number: 27,
        there: "__fixups__",
    },
    Row {
        source: "/dts-v1/;\n/ { };\n/delete-node/ &{/};",
        is_dtc: false,
        number: 27,
        there: "&{/}",
    },
];

const PLAIN: DtcOptions = DtcOptions {
    symbols: false,
    boot_processor: None,
};

fn fault_of(
    rt: &impl Abort,
    alloc: Global,
    hasher: RandomState,
    source: &[u8],
    is_dtc: bool,
) -> Fault {
    let fault = if is_dtc {
        match compile_dtc(alloc, hasher, source, Vec::new(alloc), PLAIN) {
            Err(fault) => Some(fault),
            Ok(_) => None,
        }
    } else {
        match compile_bytes(alloc, hasher, source, false) {
            Err(fault) => Some(fault),
            Ok(_) => None,
        }
    };
    fault.expect(rt, "a refusal")
}

fn stands_there(rt: &impl Abort, alloc: Global, hasher: RandomState, row: &Row) {
    let source = row.source.as_bytes();
    let fault = fault_of(rt, alloc, hasher, source, row.is_dtc);
    assert_eq!(rt; fault.number, row.number);
    let offset = fault.offset().expect(rt, "a place");
    let behind = source.get(offset as usize..).unwrap_or(&[]);
    assert!(rt;
        behind.starts_with(row.there.as_bytes()),
        "{offset} is not {}",
        row.there
    );
    let before = source.get(..offset as usize).unwrap_or(&[]);
    let lines = before.iter().filter(|c| **c == b'\n').count();
    assert_eq!(rt; fault.line(), Some(lines + 1));
}

#[test]
fn refusals(rt: HostRuntime) {
    let hasher = RandomState::new(&rt).expect(&rt, "a seed");
    for row in ROWS {
        stands_there(&rt, rt.alloc(), hasher, row);
    }
}

const SOURCE: &[u8] =
    b"/dts-v1/;\n/ { a = <1>; b { c = <1 &l>, &l; }; l: d { }; };\n/ { a = <2>; };\n&l { e; };\n";

// What stands at a place of the source.
fn at(place: Option<u32>) -> Option<&'static [u8]> {
    match place {
        Some(place) => SOURCE.get(place as usize..),
        None => None,
    }
}

fn begins(rt: &impl Abort, place: Option<u32>, words: &str) {
    let behind = at(place).expect(rt, "a place");
    assert!(rt; behind.starts_with(words.as_bytes()));
}

fn has_places(rt: &impl Abort, compiled: &Compiled) {
    let places = &compiled.places;
    begins(rt, places.node(0), "/ { a = <1>");
    begins(rt, places.node(1), "b {");
    begins(rt, places.node(2), "d {");
    assert_eq!(rt; places.node(3), None);
    begins(rt, places.property(0, 0), "a = <2>");
    begins(rt, places.property(1, 0), "c = ");
    begins(rt, places.property(2, 0), "e;");
    // the phandle that the compiler gives
    assert_eq!(rt; places.property(2, 1), None);
    assert_eq!(rt; places.references(1, 0), [4].as_slice());
    assert_eq!(rt; places.references(0, 0).len(), 0);
}

#[test]
fn compiled(rt: HostRuntime) {
    let hasher = RandomState::new(&rt).expect(&rt, "a seed");
    let compiled = compile_dtc(rt.alloc(), hasher, SOURCE, Vec::new(rt.alloc()), PLAIN);
    let compiled = compiled.expect(&rt, "a blob");
    assert_eq!(rt; compiled.tree.root().children().len(), 2);
    has_places(&rt, &compiled);
}
