//! Overlays applied to bases: what `overlay` writes, told as the canonical source of the blob.
//!
//! What a row gives is worked by hand from dtc's dt-object-internal and the rules of fixups. The overlays are written as ordinary
//! sources: the fragments and the two nodes of fixups by hand, as a plugin's source would be compiled.

use crate::answers::{as_source, printed};
use crate::compiling::compiled;
use dtman_engine::overlay_bytes;
use std::alloc::Global;
use std::hash::RandomState;
use std::process::Abort;

/// The base of all tables, which is compiled with symbols: /ocp has the phandle 1.
pub(crate) const BASE: &str = "/dts-v1/; / { ocp: ocp { }; };";

/// What the overlay's source applied to the base's gives: the blob as a canonical source, or the line of the refusal.
fn applied(
    rt: &impl Abort,
    alloc: Global,
    hasher: RandomState,
    base: &str,
    symbols: bool,
    overlay: &str,
) -> Vec<u8> {
    let base = compiled(rt, alloc, hasher, base, symbols);
    let overlay = compiled(rt, alloc, hasher, overlay, false);
    let answer = overlay_bytes(alloc, hasher, base.as_slice(), overlay.as_slice());
    let told = printed(rt, alloc, answer);
    as_source(rt, alloc, told)
}

/// A row: its name, the overlay, and the root of what is made, as it is printed, or the refusal.
type Row = (&'static str, &'static str, &'static str);

fn is_applied(rt: &impl Abort, alloc: Global, hasher: RandomState, row: &Row) {
    let (name, overlay, wanted) = row;
    let text = applied(rt, alloc, hasher, BASE, true, *overlay);
    assert_eq!(rt; text.as_slice(), wanted.as_bytes(), "{name}");
}

// That each row's overlay is applied to the base, or refused, as the row tells.
fn are_applied(rt: &impl Abort, alloc: Global, hasher: RandomState, rows: &[Row]) {
    for row in rows {
        is_applied(rt, alloc, hasher, row);
    }
}

/// Overlays that are applied.
const ROWS: &[Row] = &[
    (
        "overlay-pair",
        "/dts-v1/; / { fragment@0 { target = <0xffffffff>; __overlay__ { d { r = <1>; }; e { phandle = <1>; }; }; }; __fixups__ { ocp = \"/fragment@0:target:0\"; }; __local_fixups__ { fragment@0 { __overlay__ { d { r = <0>; }; }; }; }; };",
        "/ {\n\tocp {\n\t\tphandle = <0x00000001>;\n\t\td {\n\t\t\tr = <0x00000003>;\n\t\t};\n\t\te {\n\t\t\tphandle = <0x00000003>;\n\t\t};\n\t};\n\t__symbols__ {\n\t\tocp = \"/ocp\";\n\t};\n};\n",
    ),
    (
        "overlay-pair: with symbols in the overlay",
        "/dts-v1/; / { fragment@0 { target = <0xffffffff>; __overlay__ { d { r = <1>; }; e { phandle = <1>; }; }; }; __symbols__ { e = \"/fragment@0/__overlay__/e\"; }; __fixups__ { ocp = \"/fragment@0:target:0\"; }; __local_fixups__ { fragment@0 { __overlay__ { d { r = <0>; }; }; }; }; };",
        "/ {\n\tocp {\n\t\tphandle = <0x00000001>;\n\t\td {\n\t\t\tr = <0x00000003>;\n\t\t};\n\t\te {\n\t\t\tphandle = <0x00000003>;\n\t\t};\n\t};\n\t__symbols__ {\n\t\tocp = \"/ocp\";\n\t\te = \"/ocp/e\";\n\t};\n};\n",
    ),
    (
        "target-path",
        "/dts-v1/; / { fragment@0 { target-path = \"/ocp\"; __overlay__ { f = <1>; }; }; };",
        "/ {\n\tocp {\n\t\tphandle = <0x00000001>;\n\t\tf = <0x00000001>;\n\t};\n\t__symbols__ {\n\t\tocp = \"/ocp\";\n\t};\n};\n",
    ),
    (
        "later-fragment-wins",
        "/dts-v1/; / { fragment@0 { target = <0xffffffff>; __overlay__ { f = <1>; g; }; }; fragment@1 { target = <0xffffffff>; __overlay__ { f = <2>; }; }; __fixups__ { ocp = \"/fragment@0:target:0\", \"/fragment@1:target:0\"; }; };",
        "/ {\n\tocp {\n\t\tphandle = <0x00000001>;\n\t\tf = <0x00000002>;\n\t\tg;\n\t};\n\t__symbols__ {\n\t\tocp = \"/ocp\";\n\t};\n};\n",
    ),
    (
        "extends-a-new-node",
        "/dts-v1/; / { fragment@0 { target = <0xffffffff>; __overlay__ { e { x; }; }; }; __fixups__ { ocp = \"/fragment@0:target:0\"; }; };",
        "/ {\n\tocp {\n\t\tphandle = <0x00000001>;\n\t\te {\n\t\t\tx;\n\t\t};\n\t};\n\t__symbols__ {\n\t\tocp = \"/ocp\";\n\t};\n};\n",
    ),
    (
        "what else the root of the overlay has is ignored, and what is new goes last",
        "/dts-v1/; / { boot { }; fragment@0 { target-path = \"/\"; __overlay__ { phandles = <1>; chosen { }; }; }; };",
        "/ {\n\tphandles = <0x00000001>;\n\tocp {\n\t\tphandle = <0x00000001>;\n\t};\n\t__symbols__ {\n\t\tocp = \"/ocp\";\n\t};\n\tchosen {\n\t};\n};\n",
    ),
    (
        "symbols: the target alone, the root, a node that is not there, and those that are dropped",
        "/dts-v1/; / { fragment@0 { target-path = \"/ocp\"; __overlay__ {  }; }; fragment@1 { target-path = \"/\"; __overlay__ { n { }; }; }; __symbols__ { a = \"/fragment@0/__overlay__\"; b = \"/fragment@1/__overlay__/n\"; c = \"/fragment@0/__overlay__/nix\"; d = \"/ocp\"; e = \"/fragment@2/__overlay__/x\"; f = [2f]; ocp = \"/fragment@1/__overlay__/n\"; }; };",
        "/ {\n\tocp {\n\t\tphandle = <0x00000001>;\n\t};\n\t__symbols__ {\n\t\tocp = \"/n\";\n\t\ta = \"/ocp\";\n\t\tb = \"/n\";\n\t\tc = \"/ocp/nix\";\n\t};\n\tn {\n\t};\n};\n",
    ),
    (
        "a fragment needs no name of its own, and target goes before target-path",
        "/dts-v1/; / { x { target = <1>; target-path = \"/nix\"; __overlay__ { f; }; }; y { z { __overlay__ { }; }; }; };",
        "/ {\n\tocp {\n\t\tphandle = <0x00000001>;\n\t\tf;\n\t};\n\t__symbols__ {\n\t\tocp = \"/ocp\";\n\t};\n};\n",
    ),
    (
        "local fixups that name no place ask for nothing",
        "/dts-v1/; / { fragment@0 { target-path = \"/ocp\"; __overlay__ { f; }; }; __local_fixups__ { nix { r; }; }; };",
        "/ {\n\tocp {\n\t\tphandle = <0x00000001>;\n\t\tf;\n\t};\n\t__symbols__ {\n\t\tocp = \"/ocp\";\n\t};\n};\n",
    ),
    (
        "a fixup in a value of the overlay",
        "/dts-v1/; / { fragment@0 { target-path = \"/ocp\"; __overlay__ { s = <9 0xffffffff>; }; }; __fixups__ { ocp = \"/fragment@0/__overlay__:s:4\"; }; };",
        "/ {\n\tocp {\n\t\tphandle = <0x00000001>;\n\t\ts = <0x00000009 0x00000001>;\n\t};\n\t__symbols__ {\n\t\tocp = \"/ocp\";\n\t};\n};\n",
    ),
];

#[test]
fn applies_the_worked_rows(rt: HostRuntime) {
    let hasher = RandomState::new(&rt).expect(&rt, "a seed");
    are_applied(&rt, rt.alloc(), hasher, ROWS);
}

/// Overlays that are refused.
const REFUSALS: &[Row] = &[
    (
        "extends-a-new-node: in the other order",
        "/dts-v1/; / { fragment@0 { target = <1>; __overlay__ { x; }; }; fragment@1 { target = <0xffffffff>; __overlay__ { e { phandle = <1>; }; }; }; __fixups__ { ocp = \"/fragment@1:target:0\"; }; __local_fixups__ { fragment@0 { target = <0>; }; }; };",
        "error 41 NoTarget",
    ),
    (
        "no child of the root has the node",
        "/dts-v1/; / { a { b { __overlay__ { }; }; }; __overlay__ { }; };",
        "error 40 NotOverlay",
    ),
    (
        "no fragment comes before a phandle that is too great",
        "/dts-v1/; / { phandle = <0xfffffffe>; };",
        "error 40 NotOverlay",
    ),
    (
        "neither target nor target-path",
        "/dts-v1/; / { fragment@0 { __overlay__ {  }; }; };",
        "error 41 NoTarget",
    ),
    (
        "a target that is no phandle",
        "/dts-v1/; / { fragment@0 { target = [00]; target-path = \"/ocp\"; __overlay__ {  }; }; };",
        "error 41 NoTarget",
    ),
    (
        "a target-path without its zero byte",
        "/dts-v1/; / { fragment@0 { target-path = [2f]; __overlay__ {  }; }; };",
        "error 41 NoTarget",
    ),
    (
        "a target that an earlier fragment made",
        "/dts-v1/; / { fragment@0 { target-path = \"/ocp\"; __overlay__ { n { }; }; }; fragment@1 { target-path = \"/ocp/n\"; __overlay__ {  }; }; };",
        "error 41 NoTarget",
    ),
    (
        "a symbol that leads nowhere comes after the form of all fixups",
        "/dts-v1/; / { fragment@0 { target = <0xffffffff>; __overlay__ {  }; }; __fixups__ { nix = \"/fragment@0:target:0\"; ocp = \"/fragment@0:target\"; }; };",
        "error 43 BadFixup",
    ),
    (
        "a fixup without a value",
        "/dts-v1/; / { fragment@0 { target = <0xffffffff>; __overlay__ {  }; }; __fixups__ { ocp; }; };",
        "error 43 BadFixup",
    ),
    (
        "a fixup in a property phandle",
        "/dts-v1/; / { fragment@0 { target = <0xffffffff>; __overlay__ { e { phandle = <1>; }; }; }; __fixups__ { ocp = \"/fragment@0/__overlay__/e:phandle:0\"; }; };",
        "error 43 BadFixup",
    ),
    (
        "a fixup in a reserved node",
        "/dts-v1/; / { fragment@0 { target = <0xffffffff>; __overlay__ {  }; }; __symbols__ { x = <1>; }; __fixups__ { ocp = \"/__symbols__:x:0\"; }; };",
        "error 43 BadFixup",
    ),
    (
        "a place that is taken by a local fixup",
        "/dts-v1/; / { fragment@0 { target = <0xffffffff>; __overlay__ { r = <1>; }; }; __fixups__ { ocp = \"/fragment@0/__overlay__:r:0\"; }; __local_fixups__ { fragment@0 { __overlay__ { r = <0>; }; }; }; };",
        "error 43 BadFixup",
    ),
    (
        "local fixups that overlap",
        "/dts-v1/; / { fragment@0 { target-path = \"/ocp\"; __overlay__ { r = <1 2>; }; }; __local_fixups__ { fragment@0 { __overlay__ { r = <0 3>; }; }; }; };",
        "error 43 BadFixup",
    ),
    (
        "a local fixup whose number is too great",
        "/dts-v1/; / { fragment@0 { target-path = \"/ocp\"; __overlay__ { r = <0xfffffffd>; }; }; __local_fixups__ { fragment@0 { __overlay__ { r = <0>; }; }; }; };",
        "error 44 PhandleOverflow",
    ),
    (
        "local fixups value by value: a number that is too great before a later form",
        "/dts-v1/; / { fragment@0 { target-path = \"/ocp\"; __overlay__ { r = <0xfffffffd>; s = <1>; }; }; __local_fixups__ { fragment@0 { __overlay__ { r = <0>; s = [00]; }; }; }; };",
        "error 44 PhandleOverflow",
    ),
    (
        "a phandle over that of the base",
        "/dts-v1/; / { fragment@0 { target-path = \"/ocp\"; __overlay__ { phandle = <1>; }; }; };",
        "error 45 PhandleClash",
    ),
    (
        "a phandle over that of an earlier fragment",
        "/dts-v1/; / { fragment@0 { target-path = \"/ocp\"; __overlay__ { e { phandle = <1>; }; }; }; fragment@1 { target-path = \"/ocp\"; __overlay__ { e { phandle = <2>; }; }; }; };",
        "error 45 PhandleClash",
    ),
    (
        "the first fragment before the second",
        "/dts-v1/; / { fragment@0 { target-path = \"/ocp\"; __overlay__ { phandle = <1>; }; }; fragment@1 { target-path = \"/nix\"; __overlay__ {  }; }; };",
        "error 45 PhandleClash",
    ),
];

#[test]
fn refuses_the_worked_rows(rt: HostRuntime) {
    let hasher = RandomState::new(&rt).expect(&rt, "a seed");
    are_applied(&rt, rt.alloc(), hasher, REFUSALS);
}

/// The overlay of row `overlay-pair`, changed as the row's name tells.
const CHANGED: &[Row] = &[
    (
        "two zeros",
        "/dts-v1/; / { fragment@0 { target = <0xffffffff>; __overlay__ { d { r = <1>; }; e { phandle = <1>; }; }; }; __fixups__ { ocp = \"/fragment@0:target:00\"; }; __local_fixups__ { fragment@0 { __overlay__ { d { r = <0>; }; }; }; }; };",
        "/ {\n\tocp {\n\t\tphandle = <0x00000001>;\n\t\td {\n\t\t\tr = <0x00000003>;\n\t\t};\n\t\te {\n\t\t\tphandle = <0x00000003>;\n\t\t};\n\t};\n\t__symbols__ {\n\t\tocp = \"/ocp\";\n\t};\n};\n",
    ),
    (
        "offset 1",
        "/dts-v1/; / { fragment@0 { target = <0xffffffff>; __overlay__ { d { r = <1>; }; e { phandle = <1>; }; }; }; __fixups__ { ocp = \"/fragment@0:target:1\"; }; __local_fixups__ { fragment@0 { __overlay__ { d { r = <0>; }; }; }; }; };",
        "error 43 BadFixup",
    ),
    (
        "offset 4294967295",
        "/dts-v1/; / { fragment@0 { target = <0xffffffff>; __overlay__ { d { r = <1>; }; e { phandle = <1>; }; }; }; __fixups__ { ocp = \"/fragment@0:target:4294967295\"; }; __local_fixups__ { fragment@0 { __overlay__ { d { r = <0>; }; }; }; }; };",
        "error 43 BadFixup",
    ),
    (
        "an offset of 11 digits",
        "/dts-v1/; / { fragment@0 { target = <0xffffffff>; __overlay__ { d { r = <1>; }; e { phandle = <1>; }; }; }; __fixups__ { ocp = \"/fragment@0:target:00000000000\"; }; __local_fixups__ { fragment@0 { __overlay__ { d { r = <0>; }; }; }; }; };",
        "error 43 BadFixup",
    ),
    (
        "one place twice",
        "/dts-v1/; / { fragment@0 { target = <0xffffffff>; __overlay__ { d { r = <1>; }; e { phandle = <1>; }; }; }; __fixups__ { ocp = \"/fragment@0:target:0\", \"/fragment@0:target:0\"; }; __local_fixups__ { fragment@0 { __overlay__ { d { r = <0>; }; }; }; }; };",
        "error 43 BadFixup",
    ),
    (
        "no such node",
        "/dts-v1/; / { fragment@0 { target = <0xffffffff>; __overlay__ { d { r = <1>; }; e { phandle = <1>; }; }; }; __fixups__ { ocp = \"/nix:target:0\"; }; __local_fixups__ { fragment@0 { __overlay__ { d { r = <0>; }; }; }; }; };",
        "error 43 BadFixup",
    ),
    (
        "no such symbol",
        "/dts-v1/; / { fragment@0 { target = <0xffffffff>; __overlay__ { d { r = <1>; }; e { phandle = <1>; }; }; }; __fixups__ { nix = \"/fragment@0:target:0\"; }; __local_fixups__ { fragment@0 { __overlay__ { d { r = <0>; }; }; }; }; };",
        "error 42 UnknownSymbol",
    ),
    (
        "a local fixup of 3 bytes",
        "/dts-v1/; / { fragment@0 { target = <0xffffffff>; __overlay__ { d { r = <1>; }; e { phandle = <1>; }; }; }; __fixups__ { ocp = \"/fragment@0:target:0\"; }; __local_fixups__ { fragment@0 { __overlay__ { d { r = [00 00 00]; }; }; }; }; };",
        "error 43 BadFixup",
    ),
    (
        "a phandle that is raised to the greatest",
        "/dts-v1/; / { fragment@0 { target = <0xffffffff>; __overlay__ { d { r = <1>; }; e { phandle = <0xfffffffc>; }; }; }; __fixups__ { ocp = \"/fragment@0:target:0\"; }; __local_fixups__ { fragment@0 { __overlay__ { d { r = <0>; }; }; }; }; };",
        "/ {\n\tocp {\n\t\tphandle = <0x00000001>;\n\t\td {\n\t\t\tr = <0x00000003>;\n\t\t};\n\t\te {\n\t\t\tphandle = <0xfffffffe>;\n\t\t};\n\t};\n\t__symbols__ {\n\t\tocp = \"/ocp\";\n\t};\n};\n",
    ),
    (
        "a phandle that is raised above it",
        "/dts-v1/; / { fragment@0 { target = <0xffffffff>; __overlay__ { d { r = <1>; }; e { phandle = <0xfffffffd>; }; }; }; __fixups__ { ocp = \"/fragment@0:target:0\"; }; __local_fixups__ { fragment@0 { __overlay__ { d { r = <0>; }; }; }; }; };",
        "error 44 PhandleOverflow",
    ),
    (
        "a target-path that leads nowhere",
        "/dts-v1/; / { fragment@0 { target-path = \"/nix\"; __overlay__ { d { r = <1>; }; e { phandle = <1>; }; }; }; __local_fixups__ { fragment@0 { __overlay__ { d { r = <0>; }; }; }; }; };",
        "error 41 NoTarget",
    ),
];

#[test]
fn answers_for_changed_overlays(rt: HostRuntime) {
    let hasher = RandomState::new(&rt).expect(&rt, "a seed");
    are_applied(&rt, rt.alloc(), hasher, CHANGED);
}

/// A row: its name, the base, whether it is compiled with symbols, the overlay, and the answer.
type BaseRow = (&'static str, &'static str, bool, &'static str, &'static str);

const BASES: &[BaseRow] = &[
    (
        "reservations are those of the base",
        "/dts-v1/; /memreserve/ 0x1000 0x2000; / { };",
        true,
        "/dts-v1/; /memreserve/ 0x5 0x6; / { fragment@0 { target-path = \"/\"; __overlay__ { a; }; }; };",
        "/memreserve/ 0x0000000000001000 0x0000000000002000;\n/ {\n\ta;\n};\n",
    ),
    (
        "a base without phandles: the shift is 1",
        "/dts-v1/; / { };",
        true,
        "/dts-v1/; / { fragment@0 { target-path = \"/\"; __overlay__ { e { phandle = <5>; }; }; }; };",
        "/ {\n\te {\n\t\tphandle = <0x00000006>;\n\t};\n};\n",
    ),
    (
        "symbols of a base that has none go last",
        "/dts-v1/; / { };",
        true,
        "/dts-v1/; / { fragment@0 { target-path = \"/\"; __overlay__ { e { }; }; }; __symbols__ { e = \"/fragment@0/__overlay__/e\"; }; };",
        "/ {\n\te {\n\t};\n\t__symbols__ {\n\t\te = \"/e\";\n\t};\n};\n",
    ),
    (
        "a symbol of a node without a phandle",
        "/dts-v1/; / { ocp { }; __symbols__ { ocp = \"/ocp\"; }; };",
        false,
        "/dts-v1/; / { fragment@0 { target = <0xffffffff>; __overlay__ { }; }; __fixups__ { ocp = \"/fragment@0:target:0\"; }; };",
        "error 42 UnknownSymbol",
    ),
    (
        "a symbol of a node that is not there",
        "/dts-v1/; / { ocp { phandle = <1>; }; __symbols__ { ocp = \"/nix\"; }; };",
        false,
        "/dts-v1/; / { fragment@0 { target = <0xffffffff>; __overlay__ { }; }; __fixups__ { ocp = \"/fragment@0:target:0\"; }; };",
        "error 42 UnknownSymbol",
    ),
    (
        "a symbol without its zero byte",
        "/dts-v1/; / { ocp { phandle = <1>; }; __symbols__ { ocp = [2f 6f 63 70]; }; };",
        false,
        "/dts-v1/; / { fragment@0 { target = <0xffffffff>; __overlay__ { }; }; __fixups__ { ocp = \"/fragment@0:target:0\"; }; };",
        "error 42 UnknownSymbol",
    ),
];

fn is_applied_to_its_base(rt: &impl Abort, alloc: Global, hasher: RandomState, row: &BaseRow) {
    let (name, base, symbols, overlay, wanted) = row;
    let text = applied(rt, alloc, hasher, *base, *symbols, *overlay);
    assert_eq!(rt; text.as_slice(), wanted.as_bytes(), "{name}");
}

#[test]
fn answers_for_other_bases(rt: HostRuntime) {
    let hasher = RandomState::new(&rt).expect(&rt, "a seed");
    for row in BASES {
        is_applied_to_its_base(&rt, rt.alloc(), hasher, row);
    }
}

/// An overlay whose one fragment has 62 nodes one below the other, the deepest that a blob can have there.
pub(crate) fn deep_overlay(rt: &impl Abort, alloc: Global, target: &str) -> String {
    let mut source = String::new(alloc);
    source
        .push_str("/dts-v1/; / { fragment@0 { target-path = \"")
        .expect(rt, "memory");
    source.push_str(target).expect(rt, "memory");
    source.push_str("\"; __overlay__ { ").expect(rt, "memory");
    for _ in 0..62u8 {
        source.push_str("n { ").expect(rt, "memory");
    }
    for _ in 0..62u8 {
        source.push_str("}; ").expect(rt, "memory");
    }
    source.push_str("}; }; };").expect(rt, "memory");
    source
}

const DEEP_BASE: &str = "/dts-v1/; / { a { b { c { }; }; }; };";

// What a deep overlay of this target gives.
fn deep_told(rt: &impl Abort, alloc: Global, hasher: RandomState, target: &str) -> Vec<u8> {
    let overlay = deep_overlay(rt, alloc, target);
    applied(rt, alloc, hasher, DEEP_BASE, true, overlay.as_str())
}

#[test]
fn nodes_may_be_64_deep(rt: HostRuntime) {
    let hasher = RandomState::new(&rt).expect(&rt, "a seed");
    let deepest = deep_told(&rt, rt.alloc(), hasher, "/a/b");
    let head = b"/ {\n\ta {\n\t\tb {\n\t\t\tc {\n\t\t\t};\n\t\t\tn {\n";
    assert!(rt; deepest.as_slice().starts_with(head));
}

#[test]
fn nodes_65_deep_are_refused(rt: HostRuntime) {
    let hasher = RandomState::new(&rt).expect(&rt, "a seed");
    let deeper = deep_told(&rt, rt.alloc(), hasher, "/a/b/c");
    assert_eq!(rt; deeper.as_slice(), b"error 46 TooDeep".as_slice());
}

fn blobs_are_refused(
    rt: &impl Abort,
    alloc: Global,
    hasher: RandomState,
    base: &[u8],
    overlay: &[u8],
    wanted: &str,
) {
    let line = printed(rt, alloc, overlay_bytes(alloc, hasher, base, overlay));
    assert_eq!(rt; line.as_slice(), wanted.as_bytes());
}

const ZEROS: &[u8] = &[0; 40];

/// Bytes that hold no tree, the base's before the overlay's.
#[test]
fn tells_the_faults_of_bytes(rt: HostRuntime) {
    let hasher = RandomState::new(&rt).expect(&rt, "a seed");
    let truncated = "error 30 Truncated";
    blobs_are_refused(&rt, rt.alloc(), hasher, b"", ZEROS, truncated);
    let bad_magic = "error 31 BadMagic";
    blobs_are_refused(&rt, rt.alloc(), hasher, ZEROS, b"", bad_magic);
}

/// A base with bytes that hold no tree, and row `not-an-overlay`.
#[test]
fn tells_the_faults_of_overlays(rt: HostRuntime) {
    const ROWS: &[(&[u8], &str)] = &[(b"", "error 30 Truncated"), (ZEROS, "error 31 BadMagic")];
    let hasher = RandomState::new(&rt).expect(&rt, "a seed");
    let base = compiled(&rt, rt.alloc(), hasher, BASE, true);
    let base = base.as_slice();
    for (overlay, wanted) in ROWS {
        blobs_are_refused(&rt, rt.alloc(), hasher, base, *overlay, *wanted);
    }
    let wanted = "error 40 NotOverlay";
    blobs_are_refused(&rt, rt.alloc(), hasher, base, base, wanted);
}
