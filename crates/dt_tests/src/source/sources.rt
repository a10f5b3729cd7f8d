//! Sources as they are parsed: what they say, and why texts are refused.

mod board;

use board::BOARD;
use dt_source::{
    Item, Part, Place, Reference, Source, SourceError, SourceErrorKind, Statement,
    bodies_are_lists, faults_are_in_order, one_source, parse, reads_sources, says_lawful,
};
use dt_text::lexeme::Language;
use std::alloc::Global;
use std::process::Abort;

// The value of the last property of the last item, which is the root.
pub fn last_value<'s, 'a>(source: &'s Source<'a>) -> Option<&'s [Part<'a>]> {
    match source.items.last() {
        Some(Item::Root { body, .. }) => match body.last() {
            Some(Statement::Property { value, .. }) => Some(value.parts.as_slice()),
            _ => None,
        },
        _ => None,
    }
}

// The value that is one part of bytes.
fn only_bytes<'s>(value: &'s [Part<'_>]) -> Option<&'s [u8]> {
    match value {
        [part] => match part {
            Part::Bytes(bytes) => Some(bytes.as_slice()),
            _ => None,
        },
        _ => None,
    }
}

fn refusal(alloc: Global, text: &[u8]) -> Option<SourceError> {
    parse(alloc, text, Language::Profile).err()
}

// The number of the text's refusal, or 255.
fn number(alloc: Global, text: &[u8]) -> u8 {
    match refusal(alloc, text) {
        Some(e) => e.number(),
        None => 255,
    }
}

// Sources, and the bytes of their last value.
const VALUES: &[(&[u8], &[u8])] = &[
    // cell-arithmetic
    (
        b"/dts-v1/; / { p = <(1 << 64) (0 - 1) (2 + 3 * 4)>; };",
        &[0, 0, 0, 0, 255, 255, 255, 255, 0, 0, 0, 14],
    ),
    (
        b"/dts-v1/; / { p = /bits/ 8 <1 0xff (0 - 1)>; };",
        &[1, 255, 255],
    ),
    // divide-by-zero
    (
        b"/dts-v1/; / { s = \"a\\x41\\n\\101\", [0a 0B], <2>; };",
        &[0x61, 0x41, 0x0a, 0x41, 0, 0x0a, 0x0b, 0, 0, 0, 2],
    ),
    // precedence
    (
        b"/dts-v1/; / { p = <(1 | 2 == 2) (2 - 3 < 0) (1 ? 2 : 3 ? 4 : 5) (-1 >> 63)>; };",
        &[0, 0, 0, 1, 0, 0, 0, 0, 0, 0, 0, 2, 0, 0, 0, 1],
    ),
    // element-width
    (
        b"/dts-v1/; / { p = /bits/ 8 <(-128) (-256)>; };",
        &[0x80, 0],
    ),
    (
        b"/dts-v1/; / { p = /bits/ 64 <0xffffffffffffffff>; };",
        &[255, 255, 255, 255, 255, 255, 255, 255],
    ),
    (b"/dts-v1/; / { p = /bits/ 16 <1 l: 2>; };", &[0, 1, 0, 2]),
    // escapes, a line end in a string, labels everywhere, bytes without blanks
    (
        b"/dts-v1/; / { p = \"\\a\\b\\t\\n\\v\\f\\r\\q\\\"\\7\"; };",
        &[7, 8, 9, 10, 11, 12, 13, 113, 34, 7, 0],
    ),
    (
        b"/dts-v1/; / { p = a: [ b: 0a0B c: ] d: , e: \"\n\\\n\" f: ; };",
        &[10, 11, 10, 10, 0],
    ),
];

pub fn has_last_bytes(rt: &impl Abort, source: &Source<'_>, bytes: &[u8]) {
    source.check();
    let value = last_value(source).expect(rt, "a value");
    assert_eq!(rt; only_bytes(value), Some(bytes));
}

fn says_bytes(rt: &impl Abort, alloc: Global, text: &[u8], bytes: &[u8]) {
    let source = parse(alloc, text, Language::Profile).expect(rt, "a source");
    has_last_bytes(rt, &source, bytes);
}

#[test]
fn values_of_bytes(rt: HostRuntime) {
    one_source();
    reads_sources();
    faults_are_in_order();
    says_lawful();
    bodies_are_lists();
    for (text, bytes) in VALUES {
        says_bytes(&rt, rt.alloc(), *text, *bytes);
    }
}

// The kind of a part, and its bytes, label or path; of a part of a file nothing.
fn said<'s>(part: &'s Part<'_>) -> (&'static str, &'s [u8]) {
    match part {
        Part::Bytes(bytes) => ("bytes", bytes.as_slice()),
        Part::Phandle(Reference::Label { label, .. }) => ("phandle of a label", label),
        Part::Phandle(Reference::Path { path, .. }) => ("phandle of a path", path),
        Part::Path(Reference::Label { label, .. }) => ("path of a label", label),
        Part::Path(Reference::Path { path, .. }) => ("path of a path", path),
        Part::File(_) => ("file", b""),
    }
}

// The parts that the next test's value says.
const PARTS: &[(&str, &[u8])] = &[
    ("bytes", b"x\0"),
    ("path of a label", b"l"),
    ("bytes", &[0, 0, 0, 1]),
    ("phandle of a label", b"m"),
    ("bytes", &[0, 0, 0, 2, 3]),
    ("path of a path", b"/a/b@1"),
    ("bytes", &[0]),
];

fn is_said(rt: &impl Abort, part: &Part<'_>, kind: &str, bytes: &[u8]) {
    let (found, said) = said(part);
    assert_eq!(rt; found, kind);
    assert_eq!(rt; said, bytes);
}

fn says_parts(rt: &impl Abort, source: &Source<'_>) {
    let value = last_value(source).expect(rt, "a value");
    assert_eq!(rt; value.len(), PARTS.len());
    for (part, (kind, bytes)) in value.iter().zip(PARTS) {
        is_said(rt, part, *kind, *bytes);
    }
}

fn says_no_parts(rt: &impl Abort, alloc: Global, text: &[u8]) {
    let source = parse(alloc, text, Language::Profile).expect(rt, "a source");
    let value = last_value(&source).expect(rt, "a value");
    assert!(rt; value.is_empty());
}

#[test]
fn values_of_parts(rt: HostRuntime) {
    let text = b"/dts-v1/; / { p = [], \"x\", &l, <1 &m 2>, <>, [03], &{/a/b@1}, \"\"; };";
    let source = parse(rt.alloc(), text, Language::Profile).expect(&rt, "a source");
    says_parts(&rt, &source);
    says_no_parts(&rt, rt.alloc(), b"/dts-v1/; / { p = [], <>; };");
}

// Sources, the number of their refusal (255 for none), and its line.
const REFUSALS: &[(&[u8], u8, usize)] = &[
    // syntax-fault
    (b"/dts-v1/; / {", 10, 1),
    (b"", 10, 1),
    (b"/dts-v1/;\n/ { };\n", 255, 0),
    (b"/dts-v1/;\n/ {\n", 10, 3),
    (b"/dts-v1/;\n/* / { };\n", 10, 2),
    (b"/dts-v1/;\n/ {\n  s = \"a\n\n", 10, 3),
    (b"/dts-v1/;\n/ {\n  a { };\n b;\n};", 10, 4),
    (b"/dts-v1/; /plugin/; /plugin/; / { };", 10, 1),
    (b"/plugin/; / { };", 10, 1),
    (b"/dts-v1/;", 10, 1),
    // cell-arithmetic, divide-by-zero
    (b"/dts-v1/; / { p = <0x100000000>; };", 11, 1),
    (b"/dts-v1/; / { p = <(0 && 1 / 0)>; };", 12, 1),
    (b"/dts-v1/; / { p = <(1 % 0)>; };", 12, 1),
    // element-width
    (b"/dts-v1/; / { p = /bits/ 8 <(-257)>; };", 11, 1),
    (b"/dts-v1/; / { p = /bits/ 8 <256>; };", 11, 1),
    (b"/dts-v1/; / { p = /bits/ 12 <1>; };", 13, 1),
    (b"/dts-v1/; / { p = /bits/ 64 <&a>; };", 13, 1),
    (b"/dts-v1/; / { p = /bits/ 08 <256>; };", 14, 1),
    // bad-literals
    (b"/dts-v1/; / { p = <08>; };", 14, 1),
    (b"/dts-v1/; / { p = <18446744073709551616>; };", 14, 1),
    (b"/dts-v1/; / { p = \"\\400\"; };", 15, 1),
    (b"/dts-v1/; / { p = \"\\x\"; };", 15, 1),
    (b"/dts-v1/; / { p = <1>; /* };", 10, 1),
    // the first fault, and its line; a syntax fault comes before all of them
    (b"/dts-v1/;\n/memreserve/ 08 (1 / 0);\n/ { };", 14, 2),
    (b"/dts-v1/;\n/ { a = <1\n 0x100000000>, \"\\x\"; };", 11, 3),
    (
        b"/dts-v1/;\n/ { a { b = \"\\x\"; };\n c { d = <(1 / 0)>; }; };",
        15,
        2,
    ),
    (b"/dts-v1/;\n/ { a = <(1 / 0)>; } };", 10, 2),
];

// Sources, and the place of their refusal: its offset and its line.
const PLACES: &[(&[u8], u32, usize)] = &[
    (b"", 0, 1),
    (b"/dts-v1/; / {", 13, 1),
    (b"/dts-v1/; %", 10, 1),
    (b"/dts-v1/;\n/* / { };\n", 10, 2),
    (b"/dts-v1/;\n/ {\n  a { };\n b;\n};", 25, 4),
    (b"/dts-v1/;\n/ { a = <1\n 0x100000000>; };", 22, 3),
    (b"/dts-v1/; / { p = <(1 / 0)>; };", 22, 1),
    (b"/dts-v1/;\n/ { p = \"a\\x\"; };", 20, 2),
];

#[test]
fn places(rt: HostRuntime) {
    for (text, offset, line) in PLACES {
        let error = refusal(rt.alloc(), *text).expect(&rt, "a refusal");
        assert_eq!(rt; error.place.offset, *offset);
        assert_eq!(rt; error.place.line, *line);
    }
}

fn is_refused(rt: &impl Abort, alloc: Global, text: &[u8], refused: u8, line: usize) {
    match refusal(alloc, text) {
        None => assert_eq!(rt; refused, 255),
        Some(e) => {
            assert_eq!(rt; e.number(), refused);
            assert_eq!(rt; e.place.line, line);
        }
    }
}

fn too_long_is_refused(rt: &impl Abort, alloc: Global) {
    let error = SourceError {
        kind: SourceErrorKind::TooLong,
        place: Place { offset: 0, line: 1 },
    };
    assert_eq!(rt; error.name(), "TooLong");
    let long = vec![in alloc; b' '; 16_777_217].expect(rt, "memory");
    assert_eq!(rt; refusal(alloc, long.as_slice()), Some(error));
}

#[test]
fn refusals(rt: HostRuntime) {
    for (text, refused, line) in REFUSALS {
        is_refused(&rt, rt.alloc(), *text, *refused, *line);
    }
    too_long_is_refused(&rt, rt.alloc());
}

fn is_empty_property(rt: &impl Abort, statement: &Statement<'_>, named: &[u8]) {
    let Statement::Property { name, value } = statement else {
        panic!(rt; "a property");
    };
    assert_eq!(rt; *name, named);
    assert_eq!(rt; value.parts.len(), 0);
}

fn deletes_property(rt: &impl Abort, statement: &Statement<'_>, named: &[u8]) {
    let Statement::DeleteProperty { name, .. } = statement else {
        panic!(rt; "a property's deletion");
    };
    assert_eq!(rt; *name, named);
}

fn deletes_node(rt: &impl Abort, statement: &Statement<'_>, named: &[u8]) {
    let Statement::DeleteNode { name, .. } = statement else {
        panic!(rt; "a node's deletion");
    };
    assert_eq!(rt; *name, named);
}

// The body of a node that is named so and has so many labels.
fn body_of<'s, 'a>(
    rt: &impl Abort,
    statement: &'s Statement<'a>,
    named: &[u8],
    count: usize,
) -> &'s [Statement<'a>] {
    let Statement::Node {
        labels,
        name,
        body,
        ..
    } = statement
    else {
        panic!(rt; "a node");
    };
    assert_eq!(rt; labels.as_slice().len(), count);
    assert_eq!(rt; *name, named);
    body.as_slice()
}

// What the node in the extension of the next test says.
fn node_in_extension(rt: &impl Abort, body: &[Statement<'_>]) {
    let [property, node, child] = body else {
        panic!(rt; "three statements");
    };
    deletes_property(rt, property, b"y");
    deletes_node(rt, node, b"z");
    assert_eq!(rt; body_of(rt, child, b"e", 0).len(), 0);
}

// What the extension of the next test says.
fn extension(rt: &impl Abort, body: &[Statement<'_>]) {
    let [property, node] = body else {
        panic!(rt; "two statements");
    };
    is_empty_property(rt, property, b"x");
    node_in_extension(rt, body_of(rt, node, b"n@1", 2));
}

fn is_empty_root(rt: &impl Abort, item: &Item<'_>) {
    let Item::Root { body, .. } = item else {
        panic!(rt; "a root");
    };
    assert_eq!(rt; body.len(), 0);
}

fn is_label(rt: &impl Abort, reference: &Reference<'_>, named: &[u8]) {
    let Reference::Label { label, .. } = reference else {
        panic!(rt; "a label");
    };
    assert_eq!(rt; *label, named);
}

fn is_extension(rt: &impl Abort, item: &Item<'_>) {
    let Item::Extend {
        labels,
        target,
        body,
    } = item
    else {
        panic!(rt; "an extension");
    };
    let [_, last] = labels.as_slice() else {
        panic!(rt; "two labels");
    };
    assert_eq!(rt; *last, b"b".as_slice());
    is_label(rt, target, b"l");
    extension(rt, body.as_slice());
}

fn is_deletion(rt: &impl Abort, item: &Item<'_>) {
    let Item::Delete(Reference::Path { path, .. }) = item else {
        panic!(rt; "a deletion by a path");
    };
    assert_eq!(rt; *path, b"/a".as_slice());
}

fn says_items(rt: &impl Abort, source: &Source<'_>) {
    assert!(rt; source.plugin);
    assert_eq!(rt; source.reserves.as_slice(), [(0x1000, 0x2000)].as_slice());
    let [root, extension, deletion] = source.items.as_slice() else {
        panic!(rt; "three items");
    };
    is_empty_root(rt, root);
    is_extension(rt, extension);
    is_deletion(rt, deletion);
}

#[test]
fn items(rt: HostRuntime) {
    let text =
        b"/dts-v1/;\n# 1 \"a.dts\"\n/plugin/; /dts-v1/; m: /memreserve/ 0x1000 (0x1000 * 2);\n/ { };\na: b: &l { x; c: d: n@1 { /delete-property/ y; /delete-node/ z; e { }; }; };\n/delete-node/ &{/a};";
    let source = parse(rt.alloc(), text, Language::Profile).expect(&rt, "a source");
    says_items(&rt, &source);
}

// A source of five pieces, with the second and the fourth so many times around the third.
fn nested(rt: &impl Abort, alloc: Global, pieces: [&[u8]; 5], depth: usize) -> Vec<u8> {
    let [head, open, middle, close, tail] = pieces;
    let mut text = Vec::from_slice(alloc, head).expect(rt, "memory");
    for _ in 0..depth {
        text.extend_from_slice(open).expect(rt, "memory");
    }
    text.extend_from_slice(middle).expect(rt, "memory");
    for _ in 0..depth {
        text.extend_from_slice(close).expect(rt, "memory");
    }
    text.extend_from_slice(tail).expect(rt, "memory");
    text
}

// The number of such a source's refusal, or 255.
fn nested_number(rt: &impl Abort, alloc: Global, pieces: [&[u8]; 5], depth: usize) -> u8 {
    let text = nested(rt, alloc, pieces, depth);
    number(alloc, text.as_slice())
}

const PARENS: [&[u8]; 5] = [b"/dts-v1/; / { p = <", b"(", b"1", b")", b">; };"];

const NODES: [&[u8]; 5] = [b"/dts-v1/; / {", b"a {", b"", b"};", b"};"];

const SIGNS: [&[u8]; 5] = [b"/dts-v1/; / { p = <(", b"-", b"1", b"", b")>; };"];

// Pieces, how often the second and the fourth stand there, and the number of the refusal, or 255.
const NESTED: &[([&[u8]; 5], usize, u8)] = &[
    (PARENS, 64, 255),
    (NODES, 64, 255),
    (SIGNS, 63, 255),
    (PARENS, 65, 16),
    (NODES, 65, 16),
    (SIGNS, 64, 16),
    // too deep before what is no lexeme, or behind it
    ([b"/dts-v1/; / { p = <", b"(", b"\"", b"", b""], 65, 16),
    ([b"/dts-v1/; / } { p = <", b"(", b"\"", b"", b""], 65, 10),
];

// nesting-bounds
#[test]
fn nesting(rt: HostRuntime) {
    for (pieces, depth, expected) in NESTED {
        assert_eq!(rt; nested_number(&rt, rt.alloc(), *pieces, *depth), *expected);
    }
}

// The number of the refusal of the text with a zero byte at a place.
fn damaged_number(rt: &impl Abort, alloc: Global, text: &[u8], place: usize) -> u8 {
    let mut damaged = Vec::from_slice(alloc, text).expect(rt, "memory");
    if let Some(byte) = damaged.get_mut(place) {
        *byte = 0;
    }
    number(alloc, damaged.as_slice())
}

#[test]
fn damaged_texts(rt: HostRuntime) {
    let text = b"/dts-v1/; /plugin/; &ocp { d { r = <&e>; }; e: e { }; };";
    assert_eq!(rt; number(rt.alloc(), text), 255);
    for i in 0..text.len() {
        let cut = number(rt.alloc(), &text[..i]);
        assert!(rt; cut == 10 || cut == 16 || cut == 255);
        assert_eq!(rt; damaged_number(&rt, rt.alloc(), text, i), 10);
    }
}

// Whole lines of the board: a source again at the end of each item behind its first.
#[test]
fn beginnings_of_the_board(rt: HostRuntime) {
    assert_eq!(rt; number(rt.alloc(), BOARD), 255);
    for (i, byte) in BOARD.iter().enumerate() {
        if *byte == b'\n' {
            let cut = number(rt.alloc(), &BOARD[..i]);
            assert!(rt; cut == 10 || cut == 255, "cut at {i}");
        }
    }
}
