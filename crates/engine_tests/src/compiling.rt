//! From a source to its blob: what `compile` writes, told as the canonical source of the blob.
//!
//! What a row gives is worked by hand from the Devicetree Specification, chapter 6, and from the rules of edits and phandles.

use crate::answers::{as_source, printed};
use dtman_engine::{compile_bytes, dump_bytes};
use std::alloc::Global;
use std::hash::RandomState;
use std::process::Abort;

/// How each blob begins.
pub(crate) const BLOB_MAGIC: &[u8] = b"\xd0\x0d\xfe\xed";

/// The blob of a source, or the line that tells why there is none.
pub(crate) fn compiled(
    rt: &impl Abort,
    alloc: Global,
    hasher: RandomState,
    source: &str,
    symbols: bool,
) -> Vec<u8> {
    let answer = compile_bytes(alloc, hasher, source.as_bytes(), symbols);
    printed(rt, alloc, answer)
}

/// The same, with the blob as a canonical source, without its first two lines.
pub(crate) fn compiled_source(
    rt: &impl Abort,
    alloc: Global,
    hasher: RandomState,
    source: &str,
    symbols: bool,
) -> Vec<u8> {
    let blob = compiled(rt, alloc, hasher, source, symbols);
    as_source(rt, alloc, blob)
}

/// A row: its name, the source, whether with symbols, and the root as it is printed, or the refusal.
pub(crate) type Row = (&'static str, &'static str, bool, &'static str);

fn is_compiled(rt: &impl Abort, alloc: Global, hasher: RandomState, row: &Row) {
    let (name, source, symbols, wanted) = row;
    let text = compiled_source(rt, alloc, hasher, *source, *symbols);
    assert_eq!(rt; text.as_slice(), wanted.as_bytes(), "{name}");
}

/// That each row's source is compiled, or refused, as the row tells.
pub(crate) fn are_compiled(rt: &impl Abort, alloc: Global, hasher: RandomState, rows: &[Row]) {
    for row in rows {
        is_compiled(rt, alloc, hasher, row);
    }
}

/// Row, source, and the blob.
const BLOBS: &[(&str, &str, &[u8])] = &[
    (
        "empty-root",
        "/dts-v1/; / { };",
        b"\xd0\x0d\xfe\xed\0\0\0\x48\0\0\0\x38\0\0\0\x48\0\0\0\x28\0\0\0\x11\0\0\0\x10\0\0\0\0\0\0\0\0\0\0\0\x10\
\0\0\0\0\0\0\0\0\0\0\0\0\0\0\0\0\0\0\0\x01\0\0\0\0\0\0\0\x02\0\0\0\x09",
    ),
    (
        "one-cell",
        "/dts-v1/; / { a = <1>; };",
        b"\xd0\x0d\xfe\xed\0\0\0\x5a\0\0\0\x38\0\0\0\x58\0\0\0\x28\0\0\0\x11\0\0\0\x10\0\0\0\0\0\0\0\x02\0\0\0\x20\
\0\0\0\0\0\0\0\0\0\0\0\0\0\0\0\0\0\0\0\x01\0\0\0\0\0\0\0\x03\0\0\0\x04\0\0\0\0\0\0\0\x01\0\0\0\x02\0\0\0\x09a\0",
    ),
    (
        "suffix-sharing",
        "/dts-v1/; / { xreg; reg; };",
        b"\xd0\x0d\xfe\xed\0\0\0\x65\0\0\0\x38\0\0\0\x60\0\0\0\x28\0\0\0\x11\0\0\0\x10\0\0\0\0\0\0\0\x05\0\0\0\x28\
\0\0\0\0\0\0\0\0\0\0\0\0\0\0\0\0\0\0\0\x01\0\0\0\0\0\0\0\x03\0\0\0\0\0\0\0\0\0\0\0\x03\0\0\0\0\0\0\0\x01\
\0\0\0\x02\0\0\0\x09xreg\0",
    ),
    (
        "reservation",
        "/dts-v1/; /memreserve/ 0x1000 (0x1000 * 2); / { };",
        b"\xd0\x0d\xfe\xed\0\0\0\x58\0\0\0\x48\0\0\0\x58\0\0\0\x28\0\0\0\x11\0\0\0\x10\0\0\0\0\0\0\0\0\0\0\0\x10\
\0\0\0\0\0\0\x10\0\0\0\0\0\0\0\x20\0\0\0\0\0\0\0\0\0\0\0\0\0\0\0\0\0\0\0\0\x01\0\0\0\0\0\0\0\x02\0\0\0\x09",
    ),
];

fn is_written(
    rt: &impl Abort,
    alloc: Global,
    hasher: RandomState,
    name: &str,
    source: &str,
    wanted: &[u8],
) {
    let blob = compiled(rt, alloc, hasher, source, false);
    assert_eq!(rt; blob.as_slice(), wanted, "{name}");
}

#[test]
fn writes_the_blobs_of_the_rows(rt: HostRuntime) {
    let hasher = RandomState::new(&rt).expect(&rt, "a seed");
    for (name, source, wanted) in BLOBS {
        is_written(&rt, rt.alloc(), hasher, *name, *source, *wanted);
    }
}

/// Sources that are compiled.
const ROWS: &[Row] = &[
    (
        "cell-arithmetic",
        "/dts-v1/; / { p = <(1 << 64) (0 - 1) (2 + 3 * 4)>; q = /bits/ 8 <1 0xff (0 - 1)>; };",
        false,
        "/ {\n\tp = <0x00000000 0xffffffff 0x0000000e>;\n\tq = [01 ff ff];\n};\n",
    ),
    (
        "phandle-last",
        "/dts-v1/; / { a: a { phandle = <1>; }; b: b { }; c { r = <&b &a>; }; };",
        false,
        "/ {\n\ta {\n\t\tphandle = <0x00000001>;\n\t};\n\tb {\n\t\tphandle = <0x00000002>;\n\t};\n\tc {\n\t\tr = <0x00000002 0x00000001>;\n\t};\n};\n",
    ),
    (
        "divide-by-zero: a value of strings, bytes and cells",
        "/dts-v1/; / { s = \"a\\x41\\n\\101\", [0a 0B], <2>; };",
        false,
        "/ {\n\ts = [61 41 0a 41 00 0a 0b 00 00 00 02];\n};\n",
    ),
    (
        "merge-and-delete",
        "/dts-v1/; / { a { x = <1>; y; }; b { }; }; / { a { x = <2>; z; }; /delete-node/ b; };",
        false,
        "/ {\n\ta {\n\t\tx = <0x00000002>;\n\t\ty;\n\t\tz;\n\t};\n};\n",
    ),
    (
        "symbols-order",
        "/dts-v1/; / { a: a { }; b { r = <&a>; s = &a; t = <&{/b}>; }; };",
        true,
        "/ {\n\ta {\n\t\tphandle = <0x00000001>;\n\t};\n\tb {\n\t\tr = <0x00000001>;\n\t\ts = \"/a\";\n\t\tt = <0x00000002>;\n\t\tphandle = <0x00000002>;\n\t};\n\t__symbols__ {\n\t\ta = \"/a\";\n\t};\n};\n",
    ),
    (
        "phandle-given-later",
        "/dts-v1/; / { a: a { r = <&a>; }; b { phandle = <1>; }; };",
        false,
        "/ {\n\ta {\n\t\tr = <0x00000002>;\n\t\tphandle = <0x00000002>;\n\t};\n\tb {\n\t\tphandle = <0x00000001>;\n\t};\n};\n",
    ),
    (
        "symbols in order of definition, and a label that was lost and defined again last",
        "/dts-v1/; / { a: a { }; b { c: c { }; }; }; /delete-node/ &a; / { a: a { }; };",
        true,
        "/ {\n\tb {\n\t\tc {\n\t\t\tphandle = <0x00000001>;\n\t\t};\n\t};\n\ta {\n\t\tphandle = <0x00000002>;\n\t};\n\t__symbols__ {\n\t\tc = \"/b/c\";\n\t\ta = \"/a\";\n\t};\n};\n",
    ),
    (
        "a label of a removed node is free",
        "/dts-v1/; / { r = <&a>; a: x { }; }; /delete-node/ &a; / { a: y { }; };",
        false,
        "/ {\n\tr = <0x00000001>;\n\ty {\n\t\tphandle = <0x00000001>;\n\t};\n};\n",
    ),
    (
        "two labels of a removed node are free, and one is given to the same node twice",
        "/dts-v1/; / { r = <&a &b>; a: b: x { }; }; / { /delete-node/ x; a: a: z { }; b: y { }; };",
        false,
        "/ {\n\tr = <0x00000001 0x00000002>;\n\tz {\n\t\tphandle = <0x00000001>;\n\t};\n\ty {\n\t\tphandle = <0x00000002>;\n\t};\n};\n",
    ),
    (
        "a labelled reserved node gets a symbol and no phandle",
        "/dts-v1/; / { __fixups__ { l: n { }; }; };",
        true,
        "/ {\n\t__fixups__ {\n\t\tn {\n\t\t};\n\t};\n\t__symbols__ {\n\t\tl = \"/__fixups__/n\";\n\t};\n};\n",
    ),
    (
        "a property named __symbols__ changes nothing",
        "/dts-v1/; / { __symbols__; a: a { }; };",
        true,
        "/ {\n\t__symbols__;\n\ta {\n\t\tphandle = <0x00000001>;\n\t};\n\t__symbols__ {\n\t\ta = \"/a\";\n\t};\n};\n",
    ),
    (
        "a path outside cells, and the root's",
        "/dts-v1/; / { p = &{/b/c}, &{/}; b { c { }; }; };",
        false,
        "/ {\n\tp = \"/b/c\", \"/\";\n\tb {\n\t\tc {\n\t\t};\n\t};\n};\n",
    ),
    (
        "references in reserved nodes are walked",
        "/dts-v1/; / { __fixups__ { r = <&a>; }; a: a { }; };",
        false,
        "/ {\n\t__fixups__ {\n\t\tr = <0x00000001>;\n\t};\n\ta {\n\t\tphandle = <0x00000001>;\n\t};\n};\n",
    ),
];

#[test]
fn compiles_the_worked_rows(rt: HostRuntime) {
    let hasher = RandomState::new(&rt).expect(&rt, "a seed");
    are_compiled(&rt, rt.alloc(), hasher, ROWS);
}

/// Sources that are refused.
const REFUSALS: &[Row] = &[
    (
        "cell-arithmetic",
        "/dts-v1/; / { p = <0x100000000>; };",
        false,
        "error 11 ElementRange line 1",
    ),
    (
        "divide-by-zero",
        "/dts-v1/; / { p = <(0 && 1 / 0)>; };",
        false,
        "error 12 DivideByZero line 1",
    ),
    (
        "merge-and-delete",
        "/dts-v1/; / { x; x; };",
        false,
        "error 25 DuplicateInBody",
    ),
    (
        "syntax-fault",
        "/dts-v1/; / {",
        false,
        "error 10 Syntax line 1",
    ),
    (
        "syntax-fault: an empty source",
        "",
        false,
        "error 10 Syntax line 1",
    ),
    (
        "lost-label: a reference",
        "/dts-v1/; / { a: a { }; }; /delete-node/ &a; / { b { r = <&a>; }; };",
        false,
        "error 20 UnknownLabel",
    ),
    (
        "lost-label: two nodes",
        "/dts-v1/; / { a: x { }; a: y { }; };",
        false,
        "error 21 DuplicateLabel",
    ),
    (
        "lost-label: the root deleted",
        "/dts-v1/; / { }; /delete-node/ &{/};",
        false,
        "error 27 ReservedName",
    ),
    (
        "a child twice in a body",
        "/dts-v1/; / { x { }; x { }; };",
        false,
        "error 25 DuplicateInBody",
    ),
    (
        "a label stands before the name",
        "/dts-v1/; / { a: w { }; x { }; a: x { }; };",
        false,
        "error 21 DuplicateLabel",
    ),
    (
        "an extension by an unknown path",
        "/dts-v1/; / { }; &{/nix} { };",
        false,
        "error 22 UnknownPath",
    ),
    (
        "a child that was deleted and defined again in one body",
        "/dts-v1/; / { a { }; /delete-node/ a; a { }; };",
        false,
        "error 25 DuplicateInBody",
    ),
    (
        "an extension by an unknown label",
        "/dts-v1/; / { }; &nix { };",
        false,
        "error 20 UnknownLabel",
    ),
    (
        "an extension's reference before its labels",
        "/dts-v1/; / { a: x { }; }; a: &nix { };",
        false,
        "error 20 UnknownLabel",
    ),
    (
        "a label of another node, by an extension",
        "/dts-v1/; / { a: x { }; y { }; }; a: &{/y} { };",
        false,
        "error 21 DuplicateLabel",
    ),
    (
        "a deletion by an unknown path",
        "/dts-v1/; / { }; /delete-node/ &{/nix};",
        false,
        "error 22 UnknownPath",
    ),
    (
        "a label of a child, for the root",
        "/dts-v1/; / { a: x { }; }; a: &{/} { };",
        false,
        "error 21 DuplicateLabel",
    ),
    (
        "a property that was deleted and defined again in one body",
        "/dts-v1/; / { x; /delete-property/ x; x; };",
        false,
        "error 25 DuplicateInBody",
    ),
    (
        "a label that went with its node, deleted by name",
        "/dts-v1/; / { a: x { }; }; / { /delete-node/ x; }; &a { };",
        false,
        "error 20 UnknownLabel",
    ),
    (
        "a path reference to no node",
        "/dts-v1/; / { p = &{/nix}; };",
        false,
        "error 22 UnknownPath",
    ),
    (
        "a phandle that is not four bytes",
        "/dts-v1/; / { phandle = <1 2>; };",
        false,
        "error 23 BadPhandle",
    ),
    (
        "a phandle 0",
        "/dts-v1/; / { phandle = <0>; };",
        false,
        "error 23 BadPhandle",
    ),
    (
        "a phandle by reference",
        "/dts-v1/; / { a: a { phandle = <&a>; }; };",
        false,
        "error 23 BadPhandle",
    ),
    (
        "one phandle twice",
        "/dts-v1/; / { a { phandle = <1>; }; b { phandle = <1>; }; };",
        false,
        "error 24 DuplicatePhandle",
    ),
    (
        "phandles before references",
        "/dts-v1/; / { a { r = <&nix>; phandle = <0>; }; };",
        false,
        "error 23 BadPhandle",
    ),
    (
        "a reserved node in cells",
        "/dts-v1/; / { r = <&l>; l: __fixups__ { }; };",
        false,
        "error 27 ReservedName",
    ),
    (
        "symbols written by hand",
        "/dts-v1/; / { __symbols__ { }; };",
        true,
        "error 27 ReservedName",
    ),
    (
        "symbols written by hand come before phandles",
        "/dts-v1/; / { phandle = <0>; __symbols__ { }; };",
        true,
        "error 27 ReservedName",
    ),
    (
        "an edit comes before what is found later",
        "/dts-v1/; / { x { r = <&nix>; }; }; &nix { };",
        false,
        "error 20 UnknownLabel",
    ),
];

#[test]
fn refuses_the_worked_rows(rt: HostRuntime) {
    let hasher = RandomState::new(&rt).expect(&rt, "a seed");
    are_compiled(&rt, rt.alloc(), hasher, REFUSALS);
}

// What the blob as it is printed is compiled to.
fn compiled_again(rt: &impl Abort, alloc: Global, hasher: RandomState, blob: &[u8]) -> Vec<u8> {
    let text = printed(rt, alloc, dump_bytes(alloc, blob));
    let answer = compile_bytes(alloc, hasher, text.as_slice(), false);
    printed(rt, alloc, answer)
}

fn comes_back(rt: &impl Abort, alloc: Global, hasher: RandomState, name: &str, blob: &[u8]) {
    let again = compiled_again(rt, alloc, hasher, blob);
    assert_eq!(rt; again.as_slice(), blob, "{name}");
}

#[test]
fn printed_blobs_compile_to_themselves(rt: HostRuntime) {
    let hasher = RandomState::new(&rt).expect(&rt, "a seed");
    for (name, _, blob) in BLOBS {
        comes_back(&rt, rt.alloc(), hasher, *name, *blob);
    }
}

pub(crate) fn repeat(rt: &impl Abort, text: &mut Vec<u8>, part: &[u8], times: usize) {
    for _ in 0..times {
        text.extend_from_slice(part).expect(rt, "memory");
    }
}

// A node at level 64, and an extension of it.
fn extends_at_64(rt: &impl Abort, alloc: Global, extension: &[u8]) -> Vec<u8> {
    let mut text = Vec::from_slice(alloc, b"/dts-v1/; / { ").expect(rt, "memory");
    repeat(rt, &mut text, b"a { ", 63);
    text.extend_from_slice(b"l: a { }; ").expect(rt, "memory");
    repeat(rt, &mut text, b"}; ", 63);
    text.extend_from_slice(b"}; ").expect(rt, "memory");
    text.extend_from_slice(extension).expect(rt, "memory");
    text
}

/// That the answer for the source begins so.
pub(crate) fn answer_begins(
    rt: &impl Abort,
    alloc: Global,
    hasher: RandomState,
    source: &[u8],
    head: &[u8],
) {
    let told = printed(rt, alloc, compile_bytes(alloc, hasher, source, false));
    assert!(rt; told.as_slice().starts_with(head));
}

/// A node deeper than 64 is 28, by an extension too.
#[test]
fn depth_is_limited(rt: HostRuntime) {
    let hasher = RandomState::new(&rt).expect(&rt, "a seed");
    let deepest = extends_at_64(&rt, rt.alloc(), b"&l { x; };");
    answer_begins(&rt, rt.alloc(), hasher, deepest.as_slice(), BLOB_MAGIC);
    let deeper = extends_at_64(&rt, rt.alloc(), b"&l { b { }; };");
    let refusal = b"error 28 TooDeep";
    answer_begins(&rt, rt.alloc(), hasher, deeper.as_slice(), refusal);
}
