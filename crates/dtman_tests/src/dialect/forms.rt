//! What each form of dtc's language that the profile hasn't comes to, worked by hand from dtc's pages and its edits: the blob is that of a
//! source in the profile.

use crate::runs::{Left, left_by};
use crate::shelf::Shelf;
use dtman_engine::compile_bytes;
use std::alloc::Global;
use std::hash::RandomState;
use std::process::Abort;
use std::thread::Threads;

/// A source behind `/dts-v1/;`, and what stands there in the profile.
type Row = (&'static str, &'static str);

/// Puts the header in front, which the text has too.
pub fn headed(rt: &impl Abort, alloc: Global, source: &str) -> String {
    format!(in alloc; "/dts-v1/;{source}").expect(rt, "memory")
}

/// A source's file, and one beside it.
pub fn source_and_f<'f>(source: &'f [u8]) -> [(&'f str, &'f [u8]); 2] {
    [("a.dts", source), ("f", b"12")]
}

fn comes_to<R: Abort + AllocGlobal + Threads + Sync>(rt: &R, hasher: RandomState, row: &Row) {
    let alloc = rt.alloc();
    let source = headed(rt, alloc, row.0);
    let wanted = headed(rt, alloc, row.1);
    let files = source_and_f(source.as_bytes());
    let mut shelf = Shelf::new(alloc, files.as_slice(), hasher);
    let Left { status, text } = left_by(rt, &["dtc", "-q", "a.dts"], &mut shelf);
    assert_eq!(rt; status, 0);
    match compile_bytes(alloc, hasher, wanted.as_bytes(), false) {
        Ok(blob) => assert_eq!(rt; text.as_slice(), blob.as_slice()),
        Err(_) => panic!(rt; "refused"),
    }
}

const FORMS: &[Row] = &[
    (
        " / { a = <'a''b'>; b = <1'b'2>; c = <0x1'a'>; };",
        " / { a = < 97  98 >; b = <1 98 2>; c = <0x1 97 >; };\n",
    ),
    (
        " / { a = /bits/ 8 <'A''B'>; b = <('A'+1)'B'>; };",
        " / { a = /bits/ 8 < 65  66 >; b = <( 65 +1) 66 >; };\n",
    ),
    (
        " /memreserve/'A''B'; / { };",
        " /memreserve/ 65  66 ; / { };\n",
    ),
    (
        " / { a { r = <&l'a'>; }; l: b { }; };",
        " / { a { r = <&l 97 >; }; l: b { }; };\n",
    ),
    (
        " / { /omit-if-no-ref/ b { }; a: a { linux,phandle = <5>; }; c { r = <1&a &a&a>; }; };",
        " / { a: a { linux,phandle = <5>; }; c { r = <1 5   5  5 >; }; };\n",
    ),
    (
        " / { a = <'A' '\\n' '\\x41' '\\101'>; };",
        " / { a = < 65   10   65   65 >; };\n",
    ),
    (
        " / { a = <'\\x4' '\\7' '\\777' '\\q' '\\''>; };",
        " / { a = < 4   7   255   113   39 >; };\n",
    ),
    (
        " / { a: a { x; }; }; &a { y = <1>; z; y = <2>; };",
        " / { a: a { x; y = <2>; z; }; };\n",
    ),
    (
        " / { a { b { x; }; }; }; / { a { b { y; }; b { z; }; }; };",
        " / { a { b { x; y; z; }; }; };\n",
    ),
    (
        " / { /omit-if-no-ref/ a: a { }; /omit-if-no-ref/ b: b { }; c { r = <&b>; }; };",
        " / { b: b { phandle = <1>; }; c { r = <&b>; }; };\n",
    ),
    (
        " / { l: a { }; }; / { l: b { }; c { r = <&l>; }; /delete-node/ a; };",
        " / { l: b { }; c { r = <&l>; }; };\n",
    ),
    (
        " / { a { x; y; }; b { }; }; /delete-node/ &{/a}; / { a { y; }; };",
        " / { a { y; }; b { }; };\n",
    ),
    (
        " / { a: a { phandle = <&a>; }; };",
        " / { a: a { phandle = <1>; }; };\n",
    ),
    (
        " / { /omit-if-no-ref/ b { }; a: a { linux,phandle = <0x1fUL>; }; c { r = <&a>; }; };",
        " / { a: a { linux,phandle = <0x1fUL>; }; c { r = < 31 >; }; };\n",
    ),
    (
        " / { a: a { linux,phandle = <017>; }; c { r = <&a>; }; };",
        " / { a: a { linux,phandle = <017>; }; c { r = < 15 >; }; };\n",
    ),
    (
        " /**/ / { // a\n#line 2 \"\"\n/* * / **/ x; };",
        " / {\nx; };\n",
    ),
    (
        " / { x: y: a { }; }; z: &x { };",
        " / { z: x: y: a { }; };\n",
    ),
    (
        " / { a@1 { name = \"a\"; name2 = \"a\"; }; };",
        " / { a@1 { name2 = \"a\"; }; };\n",
    ),
    (
        " / { s { r; /delete-property/ r; }; };",
        " / { s { r; }; };\n",
    ),
    (
        " /plugin/; &x { y; };",
        " /plugin/; / { fragment@0 { target = <&x>; __overlay__ { y; }; }; };\n",
    ),
    (
        " /plugin/; / { a: a { }; }; &a { x; }; &{/a} { y; }; l: &{/a} { z; };",
        " /plugin/; / { l: a: a { x; z; }; fragment@0 { target-path = \"/a\"; __overlay__ { y; }; }; };\n",
    ),
    ("\n# 5 \"f\"\n/ {\n\tx;\n};", "\n# 5 \"f\"\n/ {\nx; };\n"),
    (
        " / { a; b { }; }; / { l: /delete-property/ a; m: /omit-if-no-ref/ /delete-node/ b; };",
        " / { };\n",
    ),
    (
        " l: /memreserve/ 1 2; / { };",
        " l: /memreserve/ 1 2; / { };\n",
    ),
    (
        " / { /delete-node/ a; l: a { }; }; &{/a} { x; };",
        " / { l: a { x; }; };\n",
    ),
    (
        " / { n { m { }; }; }; &{/n/m} { x; }; &{/n/} { y; };",
        " / { n { y; m { x; }; }; };\n",
    ),
    (" / { #a; #b;\n# 1 \"f\"\n#c; };", " / { #a; #b; #c; };"),
];

#[test]
fn forms(rt: HostRuntime) {
    let hasher = RandomState::new(&rt).expect(&rt, "a seed");
    for row in FORMS {
        comes_to(&rt, hasher, row);
    }
}

const BOOTS: &[(&[&str], u8)] = &[
    (&["dtc", "-q", "a.dts"], 9),
    (&["dtc", "-q", "-b", "7", "a.dts"], 7),
];

#[test]
fn the_processor_that_boots(rt: HostRuntime) {
    const FILES: &[(&str, &[u8])] = &[(
        "a.dts",
        b"/dts-v1/; / { cpus { c@9 { reg = <9>; }; c@1 { reg = <1>; }; }; };",
    )];
    let hasher = RandomState::new(&rt).expect(&rt, "a seed");
    for (words, processor) in BOOTS {
        let mut shelf = Shelf::new(rt.alloc(), FILES, hasher);
        let Left { status, text } = left_by(&rt, *words, &mut shelf);
        assert_eq!(&rt; status, 0);
        assert_eq!(&rt; text.get(28..32), Some([0, 0, 0, *processor].as_slice()));
    }
}
