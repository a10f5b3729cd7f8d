//! From a source in dtc's language to its blob, with the files that it names.
//!
//! What a row gives is worked by hand from the definitions (docs/model/dtc.md), and is what `dtc -q -I dts -O dtb` of 1.6.1 wrote
//! (with `-@` for symbols, with `-b` where a processor is named).

ghost use Rattle.std.specs.Prelude.{◌<◌};

use crate::answers::{as_source, printed};
use crate::compiling::{BLOB_MAGIC, repeat};
use dt_text::lexeme::Binary;
use dtman_engine::{DtcOptions, compile_dtc};
use std::alloc::Global;
use std::hash::RandomState;
use std::process::Abort;

/// Without symbols, on the source's own processor.
const PLAIN: DtcOptions = DtcOptions {
    symbols: false,
    boot_processor: None,
};

/// The blob of a source that names no files, or the line that tells why there is none.
fn compiled(
    rt: &impl Abort,
    alloc: Global,
    hasher: RandomState,
    source: &[u8],
    options: DtcOptions,
) -> Vec<u8> {
    let answer = compile_dtc(alloc, hasher, source, Vec::new(alloc), options);
    printed(rt, alloc, answer.map(|made| made.blob))
}

/// Row, source, and the blob.
const BLOBS: &[(&str, &str, &[u8])] = &[
    (
        "a reservation",
        "/dts-v1/; /memreserve/ 0x1000 0x2000; / { a = <1>; };",
        b"\xd0\x0d\xfe\xed\0\0\0\x6a\0\0\0\x48\0\0\0\x68\0\0\0\x28\0\0\0\x11\0\0\0\x10\0\0\0\0\0\0\0\x02\0\0\0\x20\
\0\0\0\0\0\0\x10\0\0\0\0\0\0\0\x20\0\0\0\0\0\0\0\0\0\0\0\0\0\0\0\0\0\
\0\0\0\x01\0\0\0\0\0\0\0\x03\0\0\0\x04\0\0\0\0\0\0\0\x01\0\0\0\x02\0\0\0\x09a\0",
    ),
    (
        "a node that goes, and the number of one that stays",
        "/dts-v1/; / { r = <&b>; /omit-if-no-ref/ a: a { }; /omit-if-no-ref/ b: b { }; };",
        b"\xd0\x0d\xfe\xed\0\0\0\x7e\0\0\0\x38\0\0\0\x74\0\0\0\x28\0\0\0\x11\0\0\0\x10\0\0\0\0\0\0\0\x0a\0\0\0\x3c\
\0\0\0\0\0\0\0\0\0\0\0\0\0\0\0\0\
\0\0\0\x01\0\0\0\0\0\0\0\x03\0\0\0\x04\0\0\0\0\0\0\0\x01\0\0\0\x01b\0\0\0\
\0\0\0\x03\0\0\0\x04\0\0\0\x02\0\0\0\x01\0\0\0\x02\0\0\0\x02\0\0\0\x09r\0phandle\0",
    ),
];

fn is_written(
    rt: &impl Abort,
    alloc: Global,
    hasher: RandomState,
    name: &str,
    source: &str,
    wanted: &[u8],
) {
    let blob = compiled(rt, alloc, hasher, source.as_bytes(), PLAIN);
    assert_eq!(rt; blob.as_slice(), wanted, "{name}");
}

#[test]
fn writes_the_blobs_of_the_rows(rt: HostRuntime) {
    let hasher = RandomState::new(&rt).expect(&rt, "a seed");
    for (name, source, wanted) in BLOBS {
        is_written(&rt, rt.alloc(), hasher, *name, *source, *wanted);
    }
}

/// Row, source, whether with symbols, and the root as it is printed.
const TREES: &[(&str, &str, bool, &str)] = &[
    (
        "a node that was removed is made again at its old place",
        "/dts-v1/; / { a { x; }; b { y; }; }; /delete-node/ &{/a}; / { a { z; }; };",
        false,
        "/ {\n\ta {\n\t\tz;\n\t};\n\tb {\n\t\ty;\n\t};\n};\n",
    ),
    (
        "so is a property",
        "/dts-v1/; / { x = <1>; y = <2>; }; / { /delete-property/ x; }; / { x = <3>; };",
        false,
        "/ {\n\tx = <0x00000003>;\n\ty = <0x00000002>;\n};\n",
    ),
    (
        "omission: a marked node goes that no reference names",
        "/dts-v1/; / { r = <&b>; /omit-if-no-ref/ a: a { }; /omit-if-no-ref/ b: b { }; };",
        false,
        "/ {\n\tr = <0x00000001>;\n\tb {\n\t\tphandle = <0x00000001>;\n\t};\n};\n",
    ),
    (
        "numbers before omission: the references of a node that goes have theirs",
        "/dts-v1/; / { /omit-if-no-ref/ a { r = <&b>, <&c>; }; /omit-if-no-ref/ b: b { /omit-if-no-ref/ c: c { }; }; d { r = <&c>; }; };",
        false,
        "/ {\n\tb {\n\t\tphandle = <0x00000001>;\n\t\tc {\n\t\t\tphandle = <0x00000002>;\n\t\t};\n\t};\n\td {\n\t\tr = <0x00000002>;\n\t};\n};\n",
    ),
    (
        "a `name` that says its node's name up to the `@` is left out",
        "/dts-v1/; / { x; p { name = \"p\"; }; q@1 { name = \"q\"; y; }; };",
        false,
        "/ {\n\tx;\n\tp {\n\t};\n\tq@1 {\n\t\ty;\n\t};\n};\n",
    ),
    (
        "a phandle by its old name",
        "/dts-v1/; / { b { linux,phandle = <1>; }; a: a { }; c { r = <&{/b}>, <&a>; }; };",
        false,
        "/ {\n\tb {\n\t\tlinux,phandle = <0x00000001>;\n\t};\n\ta {\n\t\tphandle = <0x00000002>;\n\t};\n\tc {\n\t\tr = <0x00000001 0x00000002>;\n\t};\n};\n",
    ),
    (
        "a phandle by both names, the second a reference to its own node",
        "/dts-v1/; / { a { linux,phandle = <4>; phandle = <&{/a}>; }; };",
        false,
        "/ {\n\ta {\n\t\tlinux,phandle = <0x00000004>;\n\t\tphandle = <0x00000004>;\n\t};\n};\n",
    ),
    (
        "symbols: the label that was given last comes first, of those before the node's first body the first",
        "/dts-v1/; / { x: y: a { }; }; / { z: w: a { }; };",
        true,
        "/ {\n\ta {\n\t\tphandle = <0x00000001>;\n\t};\n\t__symbols__ {\n\t\tw = \"/a\";\n\t\tz = \"/a\";\n\t\tx = \"/a\";\n\t\ty = \"/a\";\n\t};\n};\n",
    ),
    (
        "symbols: numbers go on behind the last, though the node of 1 went",
        "/dts-v1/; / { s: s { }; t { r = <&s>; }; a: a { }; /omit-if-no-ref/ b { phandle = <1>; }; };",
        true,
        "/ {\n\ts {\n\t\tphandle = <0x00000002>;\n\t};\n\tt {\n\t\tr = <0x00000002>;\n\t};\n\ta {\n\t\tphandle = <0x00000003>;\n\t};\n\t__symbols__ {\n\t\ts = \"/s\";\n\t\ta = \"/a\";\n\t};\n};\n",
    ),
    (
        "symbols: a node that ever had a label has a number",
        "/dts-v1/; / { l: a { }; }; / { /delete-node/ a; a { }; };",
        true,
        "/ {\n\ta {\n\t\tphandle = <0x00000001>;\n\t};\n\t__symbols__ {\n\t};\n};\n",
    ),
    (
        "a plugin's fixups",
        "/dts-v1/; /plugin/; &ocp { d { r = <&e>; }; e: e { }; };",
        false,
        "/ {\n\tfragment@0 {\n\t\ttarget = <0xffffffff>;\n\t\t__overlay__ {\n\t\t\td {\n\t\t\t\tr = <0x00000001>;\n\t\t\t};\n\t\t\te {\n\t\t\t\tphandle = <0x00000001>;\n\t\t\t};\n\t\t};\n\t};\n\t__fixups__ {\n\t\tocp = \"/fragment@0:target:0\";\n\t};\n\t__local_fixups__ {\n\t\tfragment@0 {\n\t\t\t__overlay__ {\n\t\t\t\td {\n\t\t\t\t\tr = <0x00000000>;\n\t\t\t\t};\n\t\t\t};\n\t\t};\n\t};\n};\n",
    ),
    (
        "a plugin's reference to a node that goes is one to a node elsewhere",
        "/dts-v1/; /plugin/; &x { r = <&c>; /omit-if-no-ref/ b { c: c { }; }; };",
        false,
        "/ {\n\tfragment@0 {\n\t\ttarget = <0xffffffff>;\n\t\t__overlay__ {\n\t\t\tr = <0x00000001>;\n\t\t};\n\t};\n\t__fixups__ {\n\t\tx = \"/fragment@0:target:0\";\n\t\tc = \"/fragment@0/__overlay__:r:0\";\n\t};\n};\n",
    ),
    (
        "a label at two nodes until the source is read",
        "/dts-v1/; / { l: a { }; }; / { c { r = &l; }; l: b { }; /delete-node/ a; };",
        false,
        "/ {\n\tc {\n\t\tr = \"/b\";\n\t};\n\tb {\n\t};\n};\n",
    ),
    (
        "a label at two nodes names the first of them in preorder",
        "/dts-v1/; / { a { l: b { }; }; m: c { }; }; l: &m { }; &l { x; }; /delete-node/ &l;",
        false,
        "/ {\n\ta {\n\t};\n\tc {\n\t};\n};\n",
    ),
    (
        "characters in cells",
        "/dts-v1/; / { p = <'a' 'b'>, /bits/ 16 <1 2>; };",
        false,
        "/ {\n\tp = <0x00000061 0x00000062 0x00010002>;\n};\n",
    ),
];

/// What is printed of a source's blob, without the first two lines, or why there is none.
fn printed_source(
    rt: &impl Abort,
    alloc: Global,
    hasher: RandomState,
    source: &str,
    symbols: bool,
) -> Vec<u8> {
    let options = DtcOptions {
        symbols,
        boot_processor: None,
    };
    let blob = compiled(rt, alloc, hasher, source.as_bytes(), options);
    as_source(rt, alloc, blob)
}

fn has_tree(rt: &impl Abort, alloc: Global, hasher: RandomState, row: &(&str, &str, bool, &str)) {
    let (name, source, symbols, wanted) = row;
    let text = printed_source(rt, alloc, hasher, *source, *symbols);
    assert_eq!(rt; text.as_slice(), wanted.as_bytes(), "{name}");
}

#[test]
fn compiles_the_worked_rows(rt: HostRuntime) {
    let hasher = RandomState::new(&rt).expect(&rt, "a seed");
    for row in TREES {
        has_tree(&rt, rt.alloc(), hasher, row);
    }
}

/// Row, source, the processor that is named, and the one that boots.
const PROCESSORS: &[(&str, &str, Option<u32>, u32)] = &[
    (
        "its first row's",
        "/dts-v1/; / { cpus { a { reg = <3>; }; b { reg = <5>; }; }; };",
        None,
        3,
    ),
    (
        "the one that is named",
        "/dts-v1/; / { cpus { a { reg = <3>; }; b { reg = <5>; }; }; };",
        Some(7),
        7,
    ),
    (
        "of a first row that was removed none",
        "/dts-v1/; / { cpus { c: a { reg = <3>; }; b { reg = <5>; }; }; }; /delete-node/ &c;",
        None,
        0,
    ),
    (
        "of a first row that was omitted its own",
        "/dts-v1/; / { cpus { /omit-if-no-ref/ a { reg = <3>; }; b { reg = <5>; }; }; };",
        None,
        3,
    ),
    (
        "a reference in cells as it is written",
        "/dts-v1/; / { cpus { x: a { reg = <&x>; }; }; };",
        None,
        0xffffffff,
    ),
    (
        "0 may be named",
        "/dts-v1/; / { cpus { a { reg = <3>; }; }; };",
        Some(0),
        0,
    ),
];

/// The blob of a source on the processor that is named.
fn compiled_on(
    rt: &impl Abort,
    alloc: Global,
    hasher: RandomState,
    source: &str,
    boot_processor: Option<u32>,
) -> Vec<u8> {
    let options = DtcOptions {
        symbols: false,
        boot_processor,
    };
    compiled(rt, alloc, hasher, source.as_bytes(), options)
}

fn boots(
    rt: &impl Abort,
    alloc: Global,
    hasher: RandomState,
    row: &(&str, &str, Option<u32>, u32),
) {
    let (name, source, processor, wanted) = row;
    let blob = compiled_on(rt, alloc, hasher, *source, *processor);
    // `boot_cpuid_phys` of the header
    let word = blob.as_slice().get(28..32).expect(rt, "a header");
    assert_eq!(rt; word, wanted.to_be_bytes().as_slice(), "{name}");
}

#[test]
fn boots_the_processors_of_the_rows(rt: HostRuntime) {
    let hasher = RandomState::new(&rt).expect(&rt, "a seed");
    for row in PROCESSORS {
        boots(&rt, rt.alloc(), hasher, row);
    }
}

/// The files of `/incbin/`s at these places, which all hold `abcdefgh`.
fn files(rt: &impl Abort, alloc: Global, places: &[u32]) -> Vec<Binary> {
    let mut binaries = Vec::new(alloc);
    for at in places {
        let bytes = Vec::from_slice(alloc, b"abcdefgh").expect(rt, "memory");
        let pushed = binaries.push(Binary { at: *at, bytes });
        assert!(rt; pushed.is_ok());
    }
    binaries
}

/// Sources, the places of their `/incbin/`s, and the root as it is printed or the refusal.
const FILES: &[(&str, &[u32], &str)] = &[
    (
        "/dts-v1/; / { p = /incbin/(\"f\", 2, 3), <1>; q = /incbin/(\"f\"); };",
        &[18, 48],
        "/ {\n\tp = [63 64 65 00 00 00 01];\n\tq = <0x61626364 0x65666768>;\n};\n",
    ),
    (
        "/dts-v1/; / { p = /incbin/(\"f\", 6, 4); a { q = /incbin/(\"f\", 8, 1); }; };",
        &[18, 47],
        "/ {\n\tp = [67 68];\n\ta {\n\t\tq;\n\t};\n};\n",
    ),
    (
        "/dts-v1/;\n/ { p = /incbin/(\"f\");\n\tq = /incbin/(\"f\"); };",
        &[18],
        "error 10 Syntax line 3",
    ),
    (
        "/dts-v1/;\n/ { p = /incbin/(\"f\"); };",
        &[17],
        "error 10 Syntax line 2",
    ),
];

/// What is printed of the blob of a source with the files of these places, or why there is none.
fn printed_with_files(
    rt: &impl Abort,
    alloc: Global,
    hasher: RandomState,
    source: &str,
    places: &[u32],
) -> Vec<u8> {
    let binaries = files(rt, alloc, places);
    let answer = compile_dtc(alloc, hasher, source.as_bytes(), binaries, PLAIN);
    as_source(rt, alloc, printed(rt, alloc, answer.map(|made| made.blob)))
}

#[test]
fn takes_files_in(rt: HostRuntime) {
    let hasher = RandomState::new(&rt).expect(&rt, "a seed");
    for (source, places, wanted) in FILES {
        let text = printed_with_files(&rt, rt.alloc(), hasher, *source, *places);
        assert_eq!(rt; text.as_slice(), wanted.as_bytes());
    }
}

/// Row, source, whether with symbols, and the refusal.
const REFUSALS: &[(&str, &str, bool, &str)] = &[
    (
        "an unknown label in cells",
        "/dts-v1/; / { r = <&nix>; };",
        false,
        "error 20 UnknownLabel",
    ),
    (
        "an extension by an unknown label",
        "/dts-v1/; / { }; &nix { };",
        false,
        "error 20 UnknownLabel",
    ),
    (
        "a label at two nodes when all is read",
        "/dts-v1/; / { l: a { }; l: b { }; };",
        false,
        "error 21 DuplicateLabel",
    ),
    (
        "an unknown path",
        "/dts-v1/; / { p = &{/nix}; };",
        false,
        "error 22 UnknownPath",
    ),
    (
        "two phandles of one node",
        "/dts-v1/; / { a { phandle = <1>; linux,phandle = <2>; }; };",
        false,
        "error 23 BadPhandle",
    ),
    (
        "one phandle by either name",
        "/dts-v1/; / { a { phandle = <1>; }; b { linux,phandle = <1>; }; };",
        false,
        "error 24 DuplicatePhandle",
    ),
    (
        "a property twice in a first body",
        "/dts-v1/; / { x; x; };",
        false,
        "error 25 DuplicateInBody",
    ),
    (
        "a node deleted in the body that made it",
        "/dts-v1/; / { b { }; /delete-node/ b; };",
        false,
        "error 25 DuplicateInBody",
    ),
    (
        "a path in cells of a plugin",
        "/dts-v1/; /plugin/; / { p = <&{/a}>; };",
        false,
        "error 26 PathInPlugin",
    ),
    (
        "the root deleted",
        "/dts-v1/; / { }; /delete-node/ &{/};",
        false,
        "error 27 ReservedName",
    ),
    (
        "symbols written by hand",
        "/dts-v1/; / { __symbols__ { }; };",
        true,
        "error 27 ReservedName",
    ),
    (
        "no source",
        "/dts-v1/;\n/ {",
        false,
        "error 10 Syntax line 2",
    ),
];

#[test]
fn refuses_the_worked_rows(rt: HostRuntime) {
    let hasher = RandomState::new(&rt).expect(&rt, "a seed");
    for row in REFUSALS {
        has_tree(&rt, rt.alloc(), hasher, row);
    }
}

/// Nodes within nodes, the innermost with a label, and what stands behind the root.
fn nested(rt: &impl Abort, alloc: Global, levels: usize, behind: &[u8]) -> Vec<u8>
    requires { 0 < levels }
{
    let mut text = Vec::from_slice(alloc, b"/dts-v1/; / { ").expect(rt, "memory");
    repeat(rt, &mut text, b"a { ", levels - 1);
    text.extend_from_slice(b"l: a { }; ").expect(rt, "memory");
    repeat(rt, &mut text, b"}; ", levels);
    text.extend_from_slice(behind).expect(rt, "memory");
    text
}

/// That the answer to nested nodes begins so.
fn answer_begins(rt: &impl Abort, alloc: Global, hasher: RandomState, source: &[u8], head: &[u8]) {
    let told = compiled(rt, alloc, hasher, source, PLAIN);
    assert!(rt; told.as_slice().starts_with(head));
}

/// Bodies deeper than 64 are 16, a node that an extension makes deeper is 28. dtc has no such limits.
#[test]
fn depth_is_limited(rt: HostRuntime) {
    let hasher = RandomState::new(&rt).expect(&rt, "a seed");
    let alloc = rt.alloc();
    let deepest = nested(&rt, alloc, 64, b"&l { x; };");
    answer_begins(&rt, alloc, hasher, deepest.as_slice(), BLOB_MAGIC);
    let deeper = nested(&rt, alloc, 65, b"");
    answer_begins(
        &rt,
        alloc,
        hasher,
        deeper.as_slice(),
        b"error 16 TooDeep line 1",
    );
    let made_deeper = nested(&rt, alloc, 64, b"&l { b { }; };");
    answer_begins(
        &rt,
        alloc,
        hasher,
        made_deeper.as_slice(),
        b"error 28 TooDeep",
    );
}
