//! Sources of dtc's language: their lexemes, what they say, and which are refused, as dtc 1.6.1 takes them.
use crate::source::sources::has_last_bytes;
use dt_source::{Item, Reference, Statement, parse};
use dt_text::lexeme::{Kind, Language, scan};
use std::alloc::Global;
use std::process::Abort;

// Whether the text's lexemes have these kinds.
fn are(alloc: Global, text: &[u8], language: Language, kinds: &[Kind]) -> bool {
    if text.len() > 1000 {
        return false;
    }
    let Ok(found) = scan(alloc, text, language) else {
        return false;
    };
    found.len() == kinds.len() && found.iter().zip(kinds).all(|(l, kind)| l.kind == *kind)
}

// Texts with the kinds of their lexemes in dtc's language.
const LEXEMES: &[(&[u8], &[Kind])] = &[
    (
        b"{/omit-if-no-ref/a-b{",
        &[Kind::Brace, Kind::OmitIfNoRef, Kind::Name, Kind::Brace],
    ),
    (
        b"/omit-if-no-ref/ &a;",
        &[Kind::OmitIfNoRef, Kind::Reference, Kind::Semicolon],
    ),
    (
        b"/incbin/(\"f\", 1)",
        &[
            Kind::IncludeBinary,
            Kind::Paren,
            Kind::Text,
            Kind::Comma,
            Kind::Literal,
            Kind::EndParen,
        ],
    ),
    (
        b"'a''\\'' '\"'",
        &[Kind::Character, Kind::Character, Kind::Character],
    ),
    (b"1'b'2", &[Kind::Literal, Kind::Character, Kind::Literal]),
    // an apostrophe behind a backslash ends a literal only where no other does
    (b"'\\'", &[Kind::Character]),
    (b"'\\\\'", &[Kind::Character]),
    (b"'\\' '", &[Kind::Character]),
    (b"'\\\\' '", &[Kind::Character]),
    // a path that ends in a slash
    (b"&{/b/}&{/}", &[Kind::PathReference, Kind::PathReference]),
    // line markers: with the word `line`, with a tab
    (b"\n#line 5 \"f\"\n;", &[Kind::Semicolon]),
    (b"\n#\t5 \"f\" 1\n;", &[Kind::Semicolon]),
    (b"\n# 5 \"f\"\n;", &[Kind::Semicolon]),
    // a name, and no marker
    (b"{#line=", &[Kind::Brace, Kind::Name, Kind::Equals]),
    (b"{#5=", &[Kind::Brace, Kind::Name, Kind::Equals]),
];

// What of these the profile has no lexemes for.
const LEXEMES_OF_DTC: &[&[u8]] = &[
    b"'a'",
    b"\n#line 5 \"f\"\n;",
    b"\n#\t5 \"f\"\n;",
    b"'",
    b"&{/b/}",
];

// What neither language has lexemes for.
const NO_LEXEMES: &[&[u8]] = &[b"&{//b}", b"&{/b//}", b"&{//}", b"&{b/}"];

#[test]
fn lexemes(rt: HostRuntime) {
    for (text, kinds) in LEXEMES {
        assert!(rt; are(rt.alloc(), *text, Language::Dtc, *kinds));
    }
    for text in LEXEMES_OF_DTC {
        assert!(rt; text.len() <= 1000);
        assert!(rt; scan(rt.alloc(), *text, Language::Profile).is_err());
    }
    for text in NO_LEXEMES {
        assert!(rt; text.len() <= 1000);
        assert!(rt; scan(rt.alloc(), *text, Language::Profile).is_err());
        assert!(rt; scan(rt.alloc(), *text, Language::Dtc).is_err());
    }
    assert!(rt; scan(rt.alloc(), b"'a", Language::Dtc).is_err());
    // a line end behind a backslash
    assert!(rt; scan(rt.alloc(), b"\"a\\\nb\"", Language::Dtc).is_err());
    assert!(rt; are(rt.alloc(), b"\"a\\\nb\"", Language::Profile, &[Kind::Text]));
}

// Sources, and the bytes that dtc gives their last property.
const VALUES: &[(&[u8], &[u8])] = &[
    (
        b"/dts-v1/; / { p = <'A' '\\n' '\\x41' '\\101' '\\''>; };",
        &[
            0, 0, 0, 65, 0, 0, 0, 10, 0, 0, 0, 65, 0, 0, 0, 65, 0, 0, 0, 39,
        ],
    ),
    (b"/dts-v1/; / { p = /bits/ 8 <'a' 'b'>; };", b"ab"),
    (b"/dts-v1/; / { p = <('a' + 1)>; };", &[0, 0, 0, 98]),
    (b"/dts-v1/; / { p = <(- 'a')>; };", &[255, 255, 255, 159]),
    (
        b"/dts-v1/; / { p = <1'b'2>; };",
        &[0, 0, 0, 1, 0, 0, 0, 98, 0, 0, 0, 2],
    ),
    (b"/dts-v1/; / { p = <'\\777'>; };", &[0, 0, 0, 255]),
    (
        b"/dts-v1/; / { p = <'\\q' '\\0'>; };",
        &[0, 0, 0, 113, 0, 0, 0, 0],
    ),
    (b"/dts-v1/; / { p = <'\\'>; };", &[0, 0, 0, 39]),
    (b"/dts-v1/; / { p = <'\\\\'>; };", &[0, 0, 0, 92]),
    (
        b"/dts-v1/; / { p = <'\\a' '\n'>; };",
        &[0, 0, 0, 7, 0, 0, 0, 10],
    ),
    (b"/dts-v1/; / { p = \"'\"; };", b"'\0"),
    // octal escapes above 255
    (b"/dts-v1/; / { p = \"\\400\\777\"; };", &[0, 255, 0]),
    (b"/dts-v1/; / { p = \"a\\477b\"; };", b"a?b\0"),
    (b"/dts-v1/; / { p = \"\\1000\"; };", b"@0\0"),
    (b"/dts-v1/; / { p = \"\\377\\000x\"; };", &[255, 0, 120, 0]),
    (
        b"/dts-v1/; / { p = l: /bits/ 8 <m: 'A' n:> o: , q: [ r: 42 ]; };",
        b"AB",
    ),
];

fn says_bytes(rt: &impl Abort, alloc: Global, text: &[u8], bytes: &[u8]) {
    let source = parse(alloc, text, Language::Dtc).expect(rt, "a source");
    has_last_bytes(rt, &source, bytes);
}

#[test]
fn values(rt: HostRuntime) {
    for (text, bytes) in VALUES {
        says_bytes(&rt, rt.alloc(), *text, *bytes);
    }
}

// The number of the text's refusal, or 255.
fn number(alloc: Global, text: &[u8], language: Language) -> u8 {
    match parse(alloc, text, language) {
        Ok(_) => 255,
        Err(error) => error.number(),
    }
}

// Sources that begin with `/dts-v1/;`, and the numbers of their refusals in dtc's language and in the profile, 255 for none.
const REFUSALS: &[(&[u8], u8, u8)] = &[
    (b"/dts-v1/; / { p = <'A' &x>; x: x { }; };", 255, 10),
    (b"/dts-v1/; / { p = <''>; };", 14, 10),
    (b"/dts-v1/; / { p = <'AB'>; };", 14, 10),
    (b"/dts-v1/; / { p = <'\\x'>; };", 14, 10),
    (b"/dts-v1/; / { p = <'\\nn'>; };", 14, 10),
    (b"/dts-v1/; / { p = <'\\1012'>; };", 14, 10),
    (b"/dts-v1/; / { p = /bits/ 8 <('a' * 3)>; };", 11, 10),
    (b"/dts-v1/; / { p = ['A']; };", 10, 10),
    (b"/dts-v1/; / { p = [41'A'42]; };", 10, 10),
    (b"/dts-v1/; / { p = /bits/ 'A' <1>; };", 10, 10),
    (b"/dts-v1/; / { p = <'A'L>; };", 10, 10),
    (b"/dts-v1/; / { p = 'A'; };", 10, 10),
    (b"/dts-v1/; /memreserve/ 'A' 'B'; / { };", 255, 10),
    (b"/dts-v1/; / { p = \"\\400\"; };", 255, 15),
    (b"/dts-v1/; / { p = \"\\377\"; };", 255, 255),
    (b"/dts-v1/; / { p = \"\\x\"; };", 15, 15),
    (b"/dts-v1/; / { p = \"\\400\\x\"; };", 15, 15),
    // what may stand before a name, and what behind that
    (b"/dts-v1/; / { /omit-if-no-ref/ a { }; };", 255, 10),
    (b"/dts-v1/; / { l: /omit-if-no-ref/ m: a { }; };", 255, 10),
    (
        b"/dts-v1/; / { /omit-if-no-ref/ /omit-if-no-ref/ a { }; };",
        255,
        10,
    ),
    (b"/dts-v1/; / { /omit-if-no-ref/ p; };", 10, 10),
    (b"/dts-v1/; / { l: /omit-if-no-ref/ p = <1>; };", 10, 10),
    (
        b"/dts-v1/; / { /omit-if-no-ref/ /delete-property/ a; };",
        10,
        10,
    ),
    (b"/dts-v1/; / { /omit-if-no-ref/ a { }; p; };", 10, 10),
    (b"/dts-v1/; / { a { }; p; };", 10, 10),
    (b"/dts-v1/; / { l: p; m: n: q = <1>; };", 255, 255),
    (b"/dts-v1/; / { l: };", 10, 10),
    // what may stand before a deletion in a body
    (b"/dts-v1/; / { l: /delete-node/ a; };", 255, 10),
    (
        b"/dts-v1/; / { l: m: /delete-node/ a; l: b { }; };",
        255,
        10,
    ),
    (
        b"/dts-v1/; / { /omit-if-no-ref/ l: /delete-node/ a; };",
        255,
        10,
    ),
    (
        b"/dts-v1/; / { l: /omit-if-no-ref/ /delete-node/ a; };",
        255,
        10,
    ),
    (b"/dts-v1/; / { l: m: /delete-property/ a; b; };", 255, 10),
    (
        b"/dts-v1/; / { l: /omit-if-no-ref/ /delete-property/ a; };",
        10,
        10,
    ),
    (b"/dts-v1/; / { p = <'\\'>, <'a'>; };", 10, 10),
    (b"/dts-v1/; / { p = <'\\\\' 'a'>; };", 10, 10),
    (b"/dts-v1/; / { l: /delete-node/ a; b; };", 10, 10),
    (b"/dts-v1/; / { c { }; l: /delete-property/ b; };", 10, 10),
    (b"/dts-v1/; / { l: /delete-node/ &a; };", 10, 10),
    (b"/dts-v1/; / { a: a { }; }; l: /delete-node/ &a;", 10, 10),
    // items
    (b"/dts-v1/; / { a: a { }; }; /omit-if-no-ref/ &a;", 255, 10),
    (
        b"/dts-v1/; / { a: a { }; }; /omit-if-no-ref/ &{/a};",
        255,
        10,
    ),
    (
        b"/dts-v1/; / { a: a { }; }; l: /omit-if-no-ref/ &a;",
        10,
        10,
    ),
    (
        b"/dts-v1/; / { a: a { }; }; /omit-if-no-ref/ &a { };",
        10,
        10,
    ),
    (b"/dts-v1/; / { a: a { }; }; /omit-if-no-ref/ a;", 10, 10),
    (
        b"/dts-v1/; / { a: a { }; }; /omit-if-no-ref/ / { };",
        10,
        10,
    ),
    (b"/dts-v1/; / { a: a { }; }; l: &a { };", 255, 255),
    (b"/dts-v1/; / { a: a { }; }; l: &{/a} { };", 255, 255),
    (b"/dts-v1/; / { a: a { }; }; l: m: &a { };", 10, 255),
    (b"/dts-v1/; / { a: a { }; }; l: m: &{/a} { };", 10, 255),
];

#[test]
fn refusals(rt: HostRuntime) {
    for (text, dtc, profile) in REFUSALS {
        assert_eq!(rt; number(rt.alloc(), *text, Language::Dtc), *dtc);
        assert_eq!(rt; number(rt.alloc(), *text, Language::Profile), *profile);
    }
}

fn is_node(rt: &impl Abort, statement: &Statement<'_>, omitted: bool, count: usize) {
    let Statement::Node {
        omit_if_no_ref,
        labels,
        ..
    } = statement
    else {
        panic!(rt; "a node");
    };
    assert_eq!(rt; *omit_if_no_ref, omitted);
    assert_eq!(rt; labels.as_slice().len(), count);
}

fn says_nodes(rt: &impl Abort, item: &Item<'_>) {
    let Item::Root { body, .. } = item else {
        panic!(rt; "a root");
    };
    let [marked, plain] = body.as_slice() else {
        panic!(rt; "two nodes");
    };
    is_node(rt, marked, true, 2);
    is_node(rt, plain, false, 1);
}

fn is_mark(rt: &impl Abort, item: &Item<'_>) {
    let Item::Omit(Reference::Label { label, .. }) = item else {
        panic!(rt; "a mark by a label");
    };
    assert_eq!(rt; *label, b"l".as_slice());
}

#[test]
fn omission(rt: HostRuntime) {
    let text = b"/dts-v1/; / { l: /omit-if-no-ref/ m: a { }; n: b { }; }; /omit-if-no-ref/ &l;";
    let source = parse(rt.alloc(), text, Language::Dtc).expect(&rt, "a source");
    source.check();
    let [root, mark] = source.items.as_slice() else {
        panic!(rt; "two items");
    };
    says_nodes(&rt, root);
    is_mark(&rt, mark);
}
