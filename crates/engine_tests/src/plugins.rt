//! From a plugin to its blob: fragments, and the places that a base or the loader of an overlay has to fill.
//!
//! What a row gives is worked by hand from dt-object-internal, sections 2 and 3, and from the rules of edits and fixups.

use crate::compiling::{BLOB_MAGIC, Row, answer_begins, are_compiled, repeat};
use std::alloc::Global;
use std::hash::RandomState;
use std::process::Abort;

/// Plugins that are compiled.
const ROWS: &[Row] = &[
    (
        "overlay-pair",
        "/dts-v1/; /plugin/; &ocp { d { r = <&e>; }; e: e { }; };",
        false,
        "/ {\n\tfragment@0 {\n\t\ttarget = <0xffffffff>;\n\t\t__overlay__ {\n\t\t\td {\n\t\t\t\tr = <0x00000001>;\n\t\t\t};\n\t\t\te {\n\t\t\t\tphandle = <0x00000001>;\n\t\t\t};\n\t\t};\n\t};\n\t__fixups__ {\n\t\tocp = \"/fragment@0:target:0\";\n\t};\n\t__local_fixups__ {\n\t\tfragment@0 {\n\t\t\t__overlay__ {\n\t\t\t\td {\n\t\t\t\t\tr = <0x00000000>;\n\t\t\t\t};\n\t\t\t};\n\t\t};\n\t};\n};\n",
    ),
    (
        "overlay-pair with symbols, which stand before the fixups",
        "/dts-v1/; /plugin/; &ocp { e: e { }; };",
        true,
        "/ {\n\tfragment@0 {\n\t\ttarget = <0xffffffff>;\n\t\t__overlay__ {\n\t\t\te {\n\t\t\t\tphandle = <0x00000001>;\n\t\t\t};\n\t\t};\n\t};\n\t__symbols__ {\n\t\te = \"/fragment@0/__overlay__/e\";\n\t};\n\t__fixups__ {\n\t\tocp = \"/fragment@0:target:0\";\n\t};\n};\n",
    ),
    (
        "target-path",
        "/dts-v1/; /plugin/; &{/ocp} { f = <1>; };",
        false,
        "/ {\n\tfragment@0 {\n\t\ttarget-path = \"/ocp\";\n\t\t__overlay__ {\n\t\t\tf = <0x00000001>;\n\t\t};\n\t};\n};\n",
    ),
    (
        "two fragments of one label",
        "/dts-v1/; /plugin/; &ocp { f = <1>; g; }; &ocp { f = <2>; };",
        false,
        "/ {\n\tfragment@0 {\n\t\ttarget = <0xffffffff>;\n\t\t__overlay__ {\n\t\t\tf = <0x00000001>;\n\t\t\tg;\n\t\t};\n\t};\n\tfragment@1 {\n\t\ttarget = <0xffffffff>;\n\t\t__overlay__ {\n\t\t\tf = <0x00000002>;\n\t\t};\n\t};\n\t__fixups__ {\n\t\tocp = \"/fragment@0:target:0\", \"/fragment@1:target:0\";\n\t};\n};\n",
    ),
    (
        "extends-a-new-node: an extension of the plugin's own node makes no fragment",
        "/dts-v1/; /plugin/; &ocp { e: e { }; }; &e { x; };",
        false,
        "/ {\n\tfragment@0 {\n\t\ttarget = <0xffffffff>;\n\t\t__overlay__ {\n\t\t\te {\n\t\t\t\tx;\n\t\t\t};\n\t\t};\n\t};\n\t__fixups__ {\n\t\tocp = \"/fragment@0:target:0\";\n\t};\n};\n",
    ),
    (
        "extends-a-new-node in the other order: a fragment with a phandle of the plugin's own",
        "/dts-v1/; /plugin/; &e { x; }; &ocp { e: e { }; };",
        false,
        "/ {\n\tfragment@0 {\n\t\ttarget = <0x00000001>;\n\t\t__overlay__ {\n\t\t\tx;\n\t\t};\n\t};\n\tfragment@1 {\n\t\ttarget = <0xffffffff>;\n\t\t__overlay__ {\n\t\t\te {\n\t\t\t\tphandle = <0x00000001>;\n\t\t\t};\n\t\t};\n\t};\n\t__fixups__ {\n\t\tocp = \"/fragment@1:target:0\";\n\t};\n\t__local_fixups__ {\n\t\tfragment@0 {\n\t\t\ttarget = <0x00000000>;\n\t\t};\n\t};\n};\n",
    ),
    (
        "places behind other parts of a value, and labels in order of first reference",
        "/dts-v1/; /plugin/; / { r = <1 &b 2 &c>, \"x\", <&b>; };",
        false,
        "/ {\n\tr = [00 00 00 01 ff ff ff ff 00 00 00 02 ff ff ff ff 78 00 ff ff ff ff];\n\t__fixups__ {\n\t\tb = \"/:r:4\", \"/:r:18\";\n\t\tc = \"/:r:12\";\n\t};\n};\n",
    ),
    (
        "the nodes of local fixups in order of the walk, and two sites in one property",
        "/dts-v1/; /plugin/; / { s = <&a 1 &a>; a: a { b { r = <&a>; }; }; };",
        false,
        "/ {\n\ts = <0x00000001 0x00000001 0x00000001>;\n\ta {\n\t\tphandle = <0x00000001>;\n\t\tb {\n\t\t\tr = <0x00000001>;\n\t\t};\n\t};\n\t__local_fixups__ {\n\t\ts = <0x00000000 0x00000008>;\n\t\ta {\n\t\t\tb {\n\t\t\t\tr = <0x00000000>;\n\t\t\t};\n\t\t};\n\t};\n};\n",
    ),
    (
        "no fragment",
        "/dts-v1/; /plugin/; / { };",
        false,
        "/ {\n};\n",
    ),
    (
        "a fragment that was deleted is counted",
        "/dts-v1/; /plugin/; &{/a} { }; /delete-node/ &{/fragment@0}; &{/a} { };",
        false,
        "/ {\n\tfragment@1 {\n\t\ttarget-path = \"/a\";\n\t\t__overlay__ {\n\t\t};\n\t};\n};\n",
    ),
    (
        "a name like a fragment's that none has yet",
        "/dts-v1/; /plugin/; / { fragment@1 { }; }; &{/a} { };",
        false,
        "/ {\n\tfragment@1 {\n\t};\n\tfragment@0 {\n\t\ttarget-path = \"/a\";\n\t\t__overlay__ {\n\t\t};\n\t};\n};\n",
    ),
];

#[test]
fn compiles_plugins(rt: HostRuntime) {
    let hasher = RandomState::new(&rt).expect(&rt, "a seed");
    are_compiled(&rt, rt.alloc(), hasher, ROWS);
}

/// Plugins that are refused.
const REFUSALS: &[Row] = &[
    (
        "not-an-overlay: a path in cells",
        "/dts-v1/; /plugin/; &ocp { r = <&{/ocp}>; };",
        false,
        "error 26 PathInPlugin",
    ),
    (
        "the name of a fragment that was deleted",
        "/dts-v1/; /plugin/; &a { }; /delete-node/ &{/fragment@0}; / { fragment@0 { }; };",
        false,
        "error 27 ReservedName",
    ),
    (
        "a fragment whose name is taken",
        "/dts-v1/; /plugin/; / { fragment@0 { }; }; &a { };",
        false,
        "error 27 ReservedName",
    ),
    (
        "fixups written by hand",
        "/dts-v1/; /plugin/; / { __fixups__ { }; };",
        false,
        "error 27 ReservedName",
    ),
    (
        "local fixups written by hand",
        "/dts-v1/; /plugin/; / { __local_fixups__ { }; };",
        false,
        "error 27 ReservedName",
    ),
    (
        "names come before phandles",
        "/dts-v1/; /plugin/; / { __fixups__ { phandle = <0>; }; };",
        false,
        "error 27 ReservedName",
    ),
    (
        "the text of an unknown label's path",
        "/dts-v1/; /plugin/; &a { s = &nix; };",
        false,
        "error 20 UnknownLabel",
    ),
    (
        "an extension with labels makes no fragment",
        "/dts-v1/; /plugin/; l: &nix { };",
        false,
        "error 20 UnknownLabel",
    ),
    (
        "a path with labels makes no fragment",
        "/dts-v1/; /plugin/; l: &{/nix} { };",
        false,
        "error 22 UnknownPath",
    ),
    (
        "an unknown label that is deleted",
        "/dts-v1/; /plugin/; /delete-node/ &nix;",
        false,
        "error 20 UnknownLabel",
    ),
    (
        "a property twice in a fragment",
        "/dts-v1/; /plugin/; &a { x; x; };",
        false,
        "error 25 DuplicateInBody",
    ),
    (
        "a reserved node in cells",
        "/dts-v1/; /plugin/; / { r = <&l>; l: __symbols__ { }; };",
        false,
        "error 27 ReservedName",
    ),
];

#[test]
fn refuses_plugins(rt: HostRuntime) {
    let hasher = RandomState::new(&rt).expect(&rt, "a seed");
    are_compiled(&rt, rt.alloc(), hasher, REFUSALS);
}

// A node that refers to itself in cells, with so many nodes between it and the root.
fn refers_below(rt: &impl Abort, alloc: Global, between: usize) -> Vec<u8> {
    let mut text = Vec::from_slice(alloc, b"/dts-v1/; /plugin/; / { ").expect(rt, "memory");
    repeat(rt, &mut text, b"a { ", between);
    text.extend_from_slice(b"l: a { r = <&l>; }; ")
        .expect(rt, "memory");
    repeat(rt, &mut text, b"}; ", between);
    text.extend_from_slice(b"};").expect(rt, "memory");
    text
}

/// The local fixups of a node at level 64 would stand at level 65.
#[test]
fn local_fixups_are_limited(rt: HostRuntime) {
    let hasher = RandomState::new(&rt).expect(&rt, "a seed");
    let deepest = refers_below(&rt, rt.alloc(), 62);
    answer_begins(&rt, rt.alloc(), hasher, deepest.as_slice(), BLOB_MAGIC);
    let deeper = refers_below(&rt, rt.alloc(), 63);
    let refusal = b"error 28 TooDeep";
    answer_begins(&rt, rt.alloc(), hasher, deeper.as_slice(), refusal);
}
