//! What is told of overlays that are refused: the fragment, the node and property, the fixup, and the base's labels.
//!
//! What a row tells is worked by hand from dtc's dt-object-internal and the rules of fixups.

use crate::engine::answers::{BASE, compiled, deep_overlay};
use dtman_diagnosis::{OverlayCulprit, diagnose_overlay, example_of, text_of};
use dtman_engine::{BlobRole, Culprit, Fault, Unread, overlay_bytes};
use std::alloc::Global;
use std::hash::RandomState;
use std::process::Abort;

/// What the refusal of an overlay is of.
fn culprit_of(fault: Fault) -> Option<OverlayCulprit> {
    match fault.culprit {
        Some(Culprit::Overlay(error)) => Some(OverlayCulprit::Place(error)),
        Some(Culprit::Blob(Unread { role, refused })) => Some(match role {
            BlobRole::Applied => OverlayCulprit::Applied(refused),
            BlobRole::Sole | BlobRole::Base => OverlayCulprit::Base(refused),
        }),
        Some(Culprit::Property(_)) | None => None,
    }
}

/// The lines of a refusal of an overlay by this number, both as blobs in these files.
fn lines_of(
    rt: &impl Abort,
    alloc: Global,
    hasher: RandomState,
    names: (&str, &str),
    base: &[u8],
    overlay: &[u8],
    first: &str,
    number: u8,
) -> String {
    let (base_file, overlay_file) = names;
    let Err(fault) = overlay_bytes(alloc, hasher, base, overlay) else {
        panic!(rt; "a refusal");
    };
    assert_eq!(rt; fault.number, number);
    let diagnosis = diagnose_overlay(
        alloc,
        base_file.as_bytes(),
        base,
        overlay_file.as_bytes(),
        overlay,
        number,
        culprit_of(fault),
    )
    .expect(rt, "a diagnosis");
    text_of(alloc, first, &diagnosis).expect(rt, "a text")
}

/// A base, whether it is compiled with symbols, an overlay, the number by which it is refused, and the lines of that.
struct Row {
    base: &'static str,
    symbols: bool,
    overlay: &'static str,
    number: u8,
    lines: &'static str,
}

fn row_shows(rt: &impl Abort, alloc: Global, hasher: RandomState, names: (&str, &str), row: &Row) {
    let base = compiled(rt, alloc, hasher, row.base, row.symbols);
    let overlay = compiled(rt, alloc, hasher, row.overlay, false);
    let Some((first, _)) = row.lines.split_once('\n') else {
        panic!(rt; "lines");
    };
    let (base, overlay) = (base.as_slice(), overlay.as_slice());
    let text = lines_of(rt, alloc, hasher, names, base, overlay, first, row.number);
    assert_eq!(rt; text.as_str(), row.lines);
}

const FILES: (&str, &str) = ("b.dtb", "o.dtbo");

/// Fragments and their targets.
const FRAGMENTS: &[Row] = &[
    Row {
        base: BASE,
        symbols: true,
        overlay: "/dts-v1/; / { a { b { __overlay__ { }; }; }; __overlay__ { }; };",
        number: 40,
        lines: "error 40 NotOverlay\no.dtbo: this is no overlay\n = no child of the root has a child `__overlay__`\n",
    },
    Row {
        base: BASE,
        symbols: true,
        overlay: "/dts-v1/; / { fragment@0 { target-path = \"/ocp\"; __overlay__ { n { }; }; }; fragment@1 { target-path = \"/ocp/n\"; __overlay__ { }; }; };",
        number: 41,
        lines: "error 41 NoTarget\no.dtbo: the base has no node at `/ocp/n`\n = in /fragment@1, property target-path\n",
    },
    Row {
        base: BASE,
        symbols: true,
        overlay: "/dts-v1/; / { fragment@0 { target = <7>; __overlay__ { }; }; };",
        number: 41,
        lines: "error 41 NoTarget\no.dtbo: the base has no node that a fragment targets\n = in /fragment@0, property target\n = the target is phandle 0x7\n",
    },
    // the phandle 1 of the overlay's own node becomes 2
    Row {
        base: BASE,
        symbols: true,
        overlay: "/dts-v1/; / { fragment@0 { target = <1>; __overlay__ { x; }; }; fragment@1 { target = <0xffffffff>; __overlay__ { e { phandle = <1>; }; }; }; __fixups__ { ocp = \"/fragment@1:target:0\"; }; __local_fixups__ { fragment@0 { target = <0>; }; }; };",
        number: 41,
        lines: "error 41 NoTarget\no.dtbo: the base has no node that a fragment targets\n = in /fragment@0, property target\n = the target is phandle 0x3\n",
    },
    Row {
        base: BASE,
        symbols: true,
        overlay: "/dts-v1/; / { fragment@0 { __overlay__ { }; }; };",
        number: 41,
        lines: "error 41 NoTarget\no.dtbo: the base has no node that a fragment targets\n = in /fragment@0\n = it has neither `target` nor `target-path`\n",
    },
    Row {
        base: BASE,
        symbols: true,
        overlay: "/dts-v1/; / { fragment@0 { target = [00]; target-path = \"/ocp\"; __overlay__ { }; }; };",
        number: 41,
        lines: "error 41 NoTarget\no.dtbo: the base has no node that a fragment targets\n = in /fragment@0, property target\n = a `target` has four bytes\n",
    },
    Row {
        base: BASE,
        symbols: true,
        overlay: "/dts-v1/; / { fragment@0 { target-path = [2f]; __overlay__ { }; }; };",
        number: 41,
        lines: "error 41 NoTarget\no.dtbo: the base has no node that a fragment targets\n = in /fragment@0, property target-path\n = a `target-path` is a path with a zero byte\n",
    },
    Row {
        base: BASE,
        symbols: true,
        overlay: "/dts-v1/; / { fragment@0 { target-path = \"/ocp\"; __overlay__ { e { phandle = <1>; }; }; }; fragment@1 { target-path = \"/ocp\"; __overlay__ { e { phandle = <2>; }; }; }; };",
        number: 45,
        lines: "error 45 PhandleClash\no.dtbo: a node would get a second phandle, or two nodes have one\n = in /fragment@1/__overlay__/e, property phandle\n = its fragment targets /ocp\n = the node that has one is /ocp/e\n",
    },
];

/// Overlays that the base has in it.
const TWICE: &[Row] = &[
    Row {
        base: "/dts-v1/; / { i2c: i2c { baro: baro@76 { compatible = \"b\"; }; }; };",
        symbols: true,
        overlay: "/dts-v1/; /plugin/; &i2c { baro: baro@76 { compatible = \"b\"; }; user { uses = <&baro>; }; };",
        number: 45,
        lines: "error 45 PhandleClash\no.dtbo: a node would get a second phandle, or two nodes have one\n = in /fragment@0/__overlay__/baro@76, property phandle\n = its fragment targets the label i2c\n = the node that has one is /i2c/baro@76\n = the base's node has properties and children of all these names: is it applied already?\n",
    },
    // another node of that name
    Row {
        base: "/dts-v1/; / { i2c: i2c { baro: baro@76 { compatible = \"b\"; }; }; };",
        symbols: true,
        overlay: "/dts-v1/; /plugin/; &i2c { baro: baro@76 { compatible = \"b\"; reg = <1>; }; user { uses = <&baro>; }; };",
        number: 45,
        lines: "error 45 PhandleClash\no.dtbo: a node would get a second phandle, or two nodes have one\n = in /fragment@0/__overlay__/baro@76, property phandle\n = its fragment targets the label i2c\n = the node that has one is /i2c/baro@76\n",
    },
];

/// Symbols of a base.
const SYMBOLS: &[Row] = &[
    Row {
        base: "/dts-v1/; / { g1: gpio@1 { }; g2: gpio@2 { }; spi0: spi { }; uart: serial { }; };",
        symbols: true,
        overlay: "/dts-v1/; /plugin/; &g1 { }; &spi0 { d { reset-gpios = <&g7 3 0>, <&g7 4 0>; }; };",
        number: 42,
        lines: "error 42 UnknownSymbol\no.dtbo: the base has no symbol `g7` that leads to a node with a phandle\n = in /fragment@1/__overlay__/d, property reset-gpios\n = its fragment targets the label spi0\n = its entry in __fixups__ is `/fragment@1/__overlay__/d:reset-gpios:0`\n = labels spelled alike: g1, g2\n",
    },
    Row {
        base: BASE,
        symbols: false,
        overlay: "/dts-v1/; /plugin/; &ocp { };",
        number: 42,
        lines: "error 42 UnknownSymbol\no.dtbo: the base has no symbol `ocp` that leads to a node with a phandle\n = in /fragment@0, property target\n = its entry in __fixups__ is `/fragment@0:target:0`\n = the base has no `__symbols__`: it was compiled without `--symbols`\n",
    },
    Row {
        base: "/dts-v1/; / { ocp { }; __symbols__ { ocp = \"/ocp\"; }; };",
        symbols: false,
        overlay: "/dts-v1/; /plugin/; &ocp { };",
        number: 42,
        lines: "error 42 UnknownSymbol\no.dtbo: the base has no symbol `ocp` that leads to a node with a phandle\n = in /fragment@0, property target\n = its entry in __fixups__ is `/fragment@0:target:0`\n = the node of the base's symbol has no phandle\n",
    },
    Row {
        base: "/dts-v1/; / { ocp { phandle = <1>; }; __symbols__ { ocp = \"/nix\"; }; };",
        symbols: false,
        overlay: "/dts-v1/; /plugin/; &ocp { };",
        number: 42,
        lines: "error 42 UnknownSymbol\no.dtbo: the base has no symbol `ocp` that leads to a node with a phandle\n = in /fragment@0, property target\n = its entry in __fixups__ is `/fragment@0:target:0`\n = the base's symbol leads to no node\n",
    },
    Row {
        base: "/dts-v1/; / { ocp { phandle = <1>; }; __symbols__ { ocp = [2f 6f 63 70]; }; };",
        symbols: false,
        overlay: "/dts-v1/; /plugin/; &ocp { };",
        number: 42,
        lines: "error 42 UnknownSymbol\no.dtbo: the base has no symbol `ocp` that leads to a node with a phandle\n = in /fragment@0, property target\n = its entry in __fixups__ is `/fragment@0:target:0`\n = the base's symbol is no path with a zero byte\n",
    },
];

/// Fixups and phandles.
const FIXUPS: &[Row] = &[
    // forms come before symbols
    Row {
        base: BASE,
        symbols: true,
        overlay: "/dts-v1/; / { fragment@0 { target = <0xffffffff>; __overlay__ { }; }; __fixups__ { nix = \"/fragment@0:target:0\"; ocp = \"/fragment@0:target:0\", \"/fragment@0:target\"; }; };",
        number: 43,
        lines: "error 43 BadFixup\no.dtbo: an entry of the label `ocp` can't be used\n = in /__fixups__, property ocp\n = its entry in __fixups__ is `/fragment@0:target`\n = an entry is `PATH:PROPERTY:OFFSET`\n",
    },
    Row {
        base: BASE,
        symbols: true,
        overlay: "/dts-v1/; / { fragment@0 { target = <0xffffffff>; __overlay__ { }; }; __fixups__ { ocp; }; };",
        number: 43,
        lines: "error 43 BadFixup\no.dtbo: an entry of the label `ocp` can't be used\n = in /__fixups__, property ocp\n = fixups are texts, each with a zero byte\n",
    },
    Row {
        base: BASE,
        symbols: true,
        overlay: "/dts-v1/; / { fragment@0 { target = <0xffffffff>; __overlay__ { }; }; __fixups__ { ocp = \"/nix:target:0\"; }; };",
        number: 43,
        lines: "error 43 BadFixup\no.dtbo: an entry of the label `ocp` can't be used\n = in /__fixups__, property ocp\n = its entry in __fixups__ is `/nix:target:0`\n = the overlay has no such node\n",
    },
    Row {
        base: BASE,
        symbols: true,
        overlay: "/dts-v1/; / { fragment@0 { target = <0xffffffff>; __overlay__ { }; }; __fixups__ { ocp = \"/fragment@0:targets:0\"; }; };",
        number: 43,
        lines: "error 43 BadFixup\no.dtbo: an entry of the label `ocp` can't be used\n = in /__fixups__, property ocp\n = its entry in __fixups__ is `/fragment@0:targets:0`\n = the node has no such property\n",
    },
    Row {
        base: BASE,
        symbols: true,
        overlay: "/dts-v1/; / { fragment@0 { target = <0xffffffff>; __overlay__ { }; }; __fixups__ { ocp = \"/fragment@0:target:1\"; }; };",
        number: 43,
        lines: "error 43 BadFixup\no.dtbo: an entry of the label `ocp` can't be used\n = in /__fixups__, property ocp\n = its entry in __fixups__ is `/fragment@0:target:1`\n = four bytes don't lie there in the value\n",
    },
    Row {
        base: BASE,
        symbols: true,
        overlay: "/dts-v1/; / { fragment@0 { target = <0xffffffff>; __overlay__ { }; }; __symbols__ { x = <1>; }; __fixups__ { ocp = \"/__symbols__:x:0\"; }; };",
        number: 43,
        lines: "error 43 BadFixup\no.dtbo: an entry of the label `ocp` can't be used\n = in /__fixups__, property ocp\n = its entry in __fixups__ is `/__symbols__:x:0`\n = nothing is written into reserved nodes\n",
    },
    Row {
        base: BASE,
        symbols: true,
        overlay: "/dts-v1/; / { fragment@0 { target = <0xffffffff>; __overlay__ { e { phandle = <1>; }; }; }; __fixups__ { ocp = \"/fragment@0/__overlay__/e:phandle:0\"; }; };",
        number: 43,
        lines: "error 43 BadFixup\no.dtbo: an entry of the label `ocp` can't be used\n = in /__fixups__, property ocp\n = its entry in __fixups__ is `/fragment@0/__overlay__/e:phandle:0`\n = nothing is written into a property `phandle`\n",
    },
    Row {
        base: BASE,
        symbols: true,
        overlay: "/dts-v1/; / { fragment@0 { target-path = \"/ocp\"; __overlay__ { r = <1 2>; }; }; __local_fixups__ { fragment@0 { __overlay__ { r = <0 3>; }; }; }; };",
        number: 43,
        lines: "error 43 BadFixup\no.dtbo: an entry can't be used\n = in /__local_fixups__/fragment@0/__overlay__, property r\n = its entry is the offset 3\n = another entry is for one of these bytes\n",
    },
    Row {
        base: BASE,
        symbols: true,
        overlay: "/dts-v1/; / { fragment@0 { target-path = \"/ocp\"; __overlay__ { r = <1>; }; }; __local_fixups__ { fragment@0 { __overlay__ { r = [00 00 00]; }; }; }; };",
        number: 43,
        lines: "error 43 BadFixup\no.dtbo: an entry can't be used\n = in /__local_fixups__/fragment@0/__overlay__, property r\n = local fixups are cells, an offset each\n",
    },
    Row {
        base: BASE,
        symbols: true,
        overlay: "/dts-v1/; / { fragment@0 { target-path = \"/ocp\"; __overlay__ { e { phandle = <0xfffffffd>; }; }; }; };",
        number: 44,
        lines: "error 44 PhandleOverflow\no.dtbo: a raised phandle is 0xffffffff or more\n = in /fragment@0/__overlay__/e, property phandle\n = its fragment targets /ocp\n = the phandle is 0xfffffffd\n = phandles of the overlay are raised by 0x2\n",
    },
    Row {
        base: BASE,
        symbols: true,
        overlay: "/dts-v1/; / { fragment@0 { target-path = \"/ocp\"; __overlay__ { r = <5 0xfffffffd>; }; }; __local_fixups__ { fragment@0 { __overlay__ { r = <4>; }; }; }; };",
        number: 44,
        lines: "error 44 PhandleOverflow\no.dtbo: a raised phandle is 0xffffffff or more\n = in /fragment@0/__overlay__, property r\n = its fragment targets /ocp\n = the phandle is 0xfffffffd\n = phandles of the overlay are raised by 0x2\n",
    },
];

fn rows_show(rt: &impl Abort, alloc: Global, hasher: RandomState, rows: &[Row]) {
    for row in rows {
        row_shows(rt, alloc, hasher, FILES, row);
    }
}

#[test]
fn fragments(rt: HostRuntime) {
    let hasher = RandomState::new(&rt).expect(&rt, "a seed");
    rows_show(&rt, rt.alloc(), hasher, FRAGMENTS);
}

#[test]
fn symbols(rt: HostRuntime) {
    let hasher = RandomState::new(&rt).expect(&rt, "a seed");
    rows_show(&rt, rt.alloc(), hasher, SYMBOLS);
}

#[test]
fn fixups(rt: HostRuntime) {
    let hasher = RandomState::new(&rt).expect(&rt, "a seed");
    rows_show(&rt, rt.alloc(), hasher, FIXUPS);
}

// That what is told of a deep overlay of this target begins and ends so.
fn deep_shows(rt: &impl Abort, alloc: Global, hasher: RandomState, target: &str, end: &str) {
    let overlay = deep_overlay(rt, alloc, target);
    let base = compiled(
        rt,
        alloc,
        hasher,
        "/dts-v1/; / { a { b { c { }; }; }; };",
        true,
    );
    let overlay = compiled(rt, alloc, hasher, overlay.as_str(), false);
    let (base, overlay) = (base.as_slice(), overlay.as_slice());
    let text = lines_of(
        rt,
        alloc,
        hasher,
        FILES,
        base,
        overlay,
        "error 46 TooDeep",
        46,
    );
    assert!(rt;
        text.as_str().starts_with(
            "error 46 TooDeep\no.dtbo: a node would lie deeper than 64 levels\n = in /fragment@0/__overlay__/n/n/n"
        )
    );
    assert!(rt; text.as_str().ends_with(end));
}

#[test]
fn depth(rt: HostRuntime) {
    let hasher = RandomState::new(&rt).expect(&rt, "a seed");
    let end = "/n/n/n\n = its fragment targets /a/b/c\n";
    deep_shows(&rt, rt.alloc(), hasher, "/a/b/c", end);
}

/// The base of the examples of `explain`.
const EXAMPLE_BASE: &str = "/dts-v1/; / { a: a { }; };";

/// A number, and an overlay.
const EXAMPLES: &[(u8, &str)] = &[
    (40, "/dts-v1/;/{};"),
    (41, "/dts-v1/;/{f{target-path=\"/b\"; __overlay__{};};};"),
    (42, "/dts-v1/;/plugin/;&b{};"),
    (
        43,
        "/dts-v1/;/{f{target=<0>; __overlay__{};}; __fixups__{b=\"/f:target\";};};",
    ),
    (44, "/dts-v1/;/{f{__overlay__{phandle=<0xfffffffe>;};};};"),
    (
        45,
        "/dts-v1/;/{f{target-path=\"/a\"; __overlay__{phandle=<1>;};};};",
    ),
];

fn example_shows(
    rt: &impl Abort,
    alloc: Global,
    hasher: RandomState,
    number: u8,
    base: &str,
    overlay: &str,
) {
    let base = compiled(rt, alloc, hasher, base, true);
    let overlay = compiled(rt, alloc, hasher, overlay, false);
    let lines = example_of(number).expect(rt, "an example");
    let Some((first, _)) = lines.split_once('\n') else {
        panic!(rt; "lines");
    };
    let (base, overlay) = (base.as_slice(), overlay.as_slice());
    let text = lines_of(
        rt,
        alloc,
        hasher,
        ("BASE", "OVERLAY"),
        base,
        overlay,
        first,
        number,
    );
    assert_eq!(rt; text.as_str(), lines);
}

#[test]
fn examples(rt: HostRuntime) {
    let hasher = RandomState::new(&rt).expect(&rt, "a seed");
    for row in EXAMPLES {
        let (number, overlay) = row;
        example_shows(&rt, rt.alloc(), hasher, *number, EXAMPLE_BASE, *overlay);
    }
}

// Writes a piece so many times.
fn push_times(rt: &impl Abort, text: &mut String, piece: &str, count: usize) {
    for _ in 0..count {
        text.push_str(piece).expect(rt, "memory");
    }
}

fn nested_base(rt: &impl Abort, alloc: Global) -> String {
    let mut source = String::from_str(alloc, "/dts-v1/; / { ").expect(rt, "memory");
    push_times(rt, &mut source, "n { ", 64);
    push_times(rt, &mut source, "}; ", 65);
    source
}

fn nested_target(rt: &impl Abort, alloc: Global) -> String {
    let head = "/dts-v1/; / { f { target-path = \"";
    let mut source = String::from_str(alloc, head).expect(rt, "memory");
    push_times(rt, &mut source, "/n", 64);
    source
        .push_str("\"; __overlay__ { c { }; }; }; };")
        .expect(rt, "memory");
    source
}

/// The target of the example of 46 lies at level 64.
#[test]
fn deepest_target(rt: HostRuntime) {
    let hasher = RandomState::new(&rt).expect(&rt, "a seed");
    let base = nested_base(&rt, rt.alloc());
    let overlay = nested_target(&rt, rt.alloc());
    example_shows(&rt, rt.alloc(), hasher, 46, base.as_str(), overlay.as_str());
}

/// Which of the two files is no blob.
#[test]
fn blobs(rt: HostRuntime) {
    let hasher = RandomState::new(&rt).expect(&rt, "a seed");
    let base = compiled(&rt, rt.alloc(), hasher, BASE, true);
    let short = b"\xd0\x0d\xfe\xed".as_slice();
    let text = lines_of(
        &rt,
        rt.alloc(),
        hasher,
        FILES,
        short,
        b"",
        "error 30 Truncated",
        30,
    );
    assert_eq!(rt;
        text.as_str(),
        "error 30 Truncated\nb.dtb:0x4: the blob is cut\n = wanted is a header of 40 bytes\n"
    );
    let text = lines_of(
        &rt,
        rt.alloc(),
        hasher,
        FILES,
        base.as_slice(),
        short,
        "error 30 Truncated",
        30,
    );
    assert_eq!(rt;
        text.as_str(),
        "error 30 Truncated\no.dtbo:0x4: the blob is cut\n = wanted is a header of 40 bytes\n"
    );
}
