//! Blobs printed with their labels, worked by hand: what is printed compiles to the same blob.

use crate::engine::answers::printed;
use dtman_cli::labelled_bytes;
use dtman_engine::{DtcOptions, compile_bytes, compile_dtc};
use std::alloc::Global;
use std::hash::RandomState;
use std::process::Abort;

/// A source behind `/dts-v1/;`, which is compiled with symbols, and what is printed of it.
type Row = (&'static str, &'static str);

const ROWS: &[Row] = &[
    (" / { };", "/dts-v1/;\n\n/ {\n};\n"),
    // labels before nodes, in cells of suppliers and in aliases; a node without one by its path
    (
        " /memreserve/ 0x1000 0x10; / { aliases { a = &l; b = \"/b\"; }; m: l: a { clocks = <&c 5 &{/d}>; n = <1>; }; b { }; c: c { #clock-cells = <1>; }; d { }; };",
        "/dts-v1/;\n\n/memreserve/ 0x0000000000001000 0x0000000000000010;\n/ {\n\n\taliases {\n\t\ta = &m;\n\t\tb = \"/b\";\n\t};\n\n\tm: l: a {\n\t\tclocks = <&c 0x00000005 &{/d}>;\n\t\tn = <0x00000001>;\n\t\tphandle = <0x00000003>;\n\t};\n\n\tb {\n\t};\n\n\tc: c {\n\t\t#clock-cells = <0x00000001>;\n\t\tphandle = <0x00000001>;\n\t};\n\n\td {\n\t\tphandle = <0x00000002>;\n\t};\n\n\t__symbols__ {\n\t\tm = \"/a\";\n\t\tl = \"/a\";\n\t\tc = \"/c\";\n\t};\n};\n",
    ),
];

fn headed(rt: &impl Abort, alloc: Global, source: &str) -> String {
    format!(in alloc; "/dts-v1/;{source}").expect(rt, "memory")
}

fn blob_of(rt: &impl Abort, alloc: Global, hasher: RandomState, source: &str) -> Vec<u8> {
    let source = headed(rt, alloc, source);
    printed(
        rt,
        alloc,
        compile_bytes(alloc, hasher, source.as_bytes(), true),
    )
}

fn is_labelled(rt: &impl Abort, alloc: Global, hasher: RandomState, blob: &[u8], wanted: &str) {
    let text = printed(rt, alloc, labelled_bytes(alloc, hasher, blob));
    assert_eq!(rt; text.as_slice(), wanted.as_bytes());
}

#[test]
fn blobs_are_printed_with_labels(rt: HostRuntime) {
    let hasher = RandomState::new(&rt).expect(&rt, "a seed");
    for (source, wanted) in ROWS {
        let blob = blob_of(&rt, rt.alloc(), hasher, *source);
        is_labelled(&rt, rt.alloc(), hasher, blob.as_slice(), *wanted);
        let again = compile_bytes(rt.alloc(), hasher, wanted.as_bytes(), false);
        let again = printed(&rt, rt.alloc(), again);
        assert_eq!(&rt; again.as_slice(), blob.as_slice());
    }
}

/// The tree of a source boots on another processor, which no source says, or a symbol is no label: the text is that of `dump`.
#[test]
fn what_would_not_compile_again_has_no_labels(rt: HostRuntime) {
    let hasher = RandomState::new(&rt).expect(&rt, "a seed");
    let options = DtcOptions {
        symbols: true,
        boot_processor: Some(1),
    };
    let source = b"/dts-v1/; / { l: a { }; };";
    let files = Vec::new(rt.alloc());
    let blob = compile_dtc(rt.alloc(), hasher, source, files, options).map(|made| made.blob);
    let blob = printed(&rt, rt.alloc(), blob);
    let text =
        "/dts-v1/;\n\n/ {\n\ta {\n\t\tphandle = <0x00000001>;\n\t};\n\t__symbols__ {\n\t\tl = \"/a\";\n\t};\n};\n";
    is_labelled(&rt, rt.alloc(), hasher, blob.as_slice(), text);
    let source = b"/dts-v1/; / { a { }; __symbols__ { l-m = \"/a\"; }; };";
    let blob = compile_bytes(rt.alloc(), hasher, source, false);
    let blob = printed(&rt, rt.alloc(), blob);
    let text = "/dts-v1/;\n\n/ {\n\ta {\n\t};\n\t__symbols__ {\n\t\tl-m = \"/a\";\n\t};\n};\n";
    is_labelled(&rt, rt.alloc(), hasher, blob.as_slice(), text);
    is_labelled(&rt, rt.alloc(), hasher, b"", "error 30 Truncated");
}
