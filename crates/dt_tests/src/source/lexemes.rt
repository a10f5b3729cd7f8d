//! Lexemes of sources: their kinds, their places, and texts that break off.
use dt_text::lexeme::{
    Kind, Language, Lexeme, ReadError, Refusal, RefusalKind, lexemes_are_in_order,
    lexemes_are_lawful, line_of, one_list, scan, scan_front,
};
use std::alloc::Global;
use std::process::Abort;

// Whether the text's lexemes have these kinds and lengths, whatever stands between them.
fn are(alloc: Global, text: &[u8], kinds: &[(Kind, u32)]) -> bool {
    if text.len() > 1000 {
        return false;
    }
    let Ok(found) = scan(alloc, text, Language::Profile) else {
        return false;
    };
    found.len() == kinds.len()
        && found.iter().zip(kinds).all(|(l, (kind, len))| l.kind == *kind
            && l.start < l.end
            && l.end - l.start == *len)
}

// How many lexemes stand in front of where a text breaks off.
fn front(rt: &impl Abort, alloc: Global, text: &[u8]) -> (usize, Option<u32>) {
    assert!(rt; text.len() <= 1000);
    let (front, stop) = scan_front(alloc, text, Language::Profile).expect(rt, "lexemes");
    (front.len(), stop)
}

fn has_lexemes(rt: &impl Abort, alloc: Global, text: &[u8], lexemes: &[Lexeme]) {
    assert!(rt; text.len() <= 1000);
    let found = scan(alloc, text, Language::Profile).expect(rt, "lexemes");
    assert_eq!(rt; found.as_slice(), lexemes);
}

#[test]
fn places_of_lexemes(rt: HostRuntime) {
    one_list();
    lexemes_are_in_order();
    lexemes_are_lawful();
    let text = b"/dts-v1/;\n# 1 \"a.dts\"\n\t&{/a} ";
    let (_, stop) = front(&rt, rt.alloc(), text);
    assert_eq!(rt; stop, None);
    assert_eq!(rt; front(&rt, rt.alloc(), b"/dts-v1/; %"), (2, Some(10)));
    let lexemes = [
        Lexeme {
            kind: Kind::Version,
            start: 0,
            end: 8,
        },
        Lexeme {
            kind: Kind::Semicolon,
            start: 8,
            end: 9,
        },
        Lexeme {
            kind: Kind::PathReference,
            start: 23,
            end: 28,
        },
    ];
    has_lexemes(&rt, rt.alloc(), text, &lexemes);
}

// Texts of statements with the kinds and lengths of their lexemes.
const STATEMENTS: &[(&[u8], &[(Kind, u32)])] = &[
    // labels and names at a statement's beginning, in a body and behind a deletion in one
    (
        b"{a:b:c,d",
        &[
            (Kind::Brace, 1),
            (Kind::Label, 2),
            (Kind::Label, 2),
            (Kind::Name, 3),
        ],
    ),
    (
        b"{#a=",
        &[(Kind::Brace, 1), (Kind::Name, 2), (Kind::Equals, 1)],
    ),
    (
        b"{;1@2{",
        &[
            (Kind::Brace, 1),
            (Kind::Semicolon, 1),
            (Kind::Name, 3),
            (Kind::Brace, 1),
        ],
    ),
    (
        b"{/delete-property/a-b",
        &[
            (Kind::Brace, 1),
            (Kind::DeleteProperty, 17),
            (Kind::Name, 3),
        ],
    ),
    (
        b"{/delete-node/+",
        &[(Kind::Brace, 1), (Kind::DeleteNode, 13), (Kind::Name, 1)],
    ),
    // the top level has values alone
    (
        b"/delete-node/&x;a:&x{};",
        &[
            (Kind::DeleteNode, 13),
            (Kind::Reference, 2),
            (Kind::Semicolon, 1),
            (Kind::Label, 2),
            (Kind::Reference, 2),
            (Kind::Brace, 1),
            (Kind::EndBrace, 1),
            (Kind::Semicolon, 1),
        ],
    ),
    (
        b"/memreserve/0 1UL;",
        &[
            (Kind::MemReserve, 12),
            (Kind::Literal, 1),
            (Kind::Literal, 3),
            (Kind::Semicolon, 1),
        ],
    ),
    (
        b"/plugin/ /bits/ /",
        &[(Kind::Plugin, 8), (Kind::Bits, 6), (Kind::Slash, 1)],
    ),
    // bytes between square brackets, where a label comes first
    (
        b"[0aBc ab:cd]a:",
        &[
            (Kind::Square, 1),
            (Kind::Pair, 2),
            (Kind::Pair, 2),
            (Kind::Label, 3),
            (Kind::Pair, 2),
            (Kind::EndSquare, 1),
            (Kind::Label, 2),
        ],
    ),
];

#[test]
fn statements(rt: HostRuntime) {
    for (text, kinds) in STATEMENTS {
        assert!(rt; are(rt.alloc(), *text, *kinds));
    }
}

// 256 letters and a colon are no label, and 256 letters no name.
#[test]
fn long_labels(rt: HostRuntime) {
    let rows = [
        (
            b"[aaaaaaaaaaaaaaaaaaaaaaaaaaaaaaaaaaaaaaaaaaaaaaaaaaaaaaaaaaaaaaaaaaaaaaaaaaaaaaaaaaaaaaaaaaaaaaaaaaaaaaaaaaaaaaaaaaaaaaaaaaaaaaaaaaaaaaaaaaaaaaaaaaaaaaaaaaaaaaaaaaaaaaaaaaaaaaaaaaaaaaaaaaaaaaaaaaaaaaaaaaaaaaaaaaaaaaaaaaaaaaaaaaaaaaaaaaaaaaaaaaaaaaaaaaaaaaaa:".as_slice(),
            [(Kind::Square, 1), (Kind::Pair, 2), (Kind::Label, 255)].as_slice(),
        ),
        (
            b"{aaaaaaaaaaaaaaaaaaaaaaaaaaaaaaaaaaaaaaaaaaaaaaaaaaaaaaaaaaaaaaaaaaaaaaaaaaaaaaaaaaaaaaaaaaaaaaaaaaaaaaaaaaaaaaaaaaaaaaaaaaaaaaaaaaaaaaaaaaaaaaaaaaaaaaaaaaaaaaaaaaaaaaaaaaaaaaaaaaaaaaaaaaaaaaaaaaaaaaaaaaaaaaaaaaaaaaaaaaaaaaaaaaaaaaaaaaaaaaaaaaaaaaaaaaaaaaaa:",
            [(Kind::Brace, 1), (Kind::Name, 255), (Kind::Label, 2)].as_slice(),
        ),
        (
            b"{;aaaaaaaaaaaaaaaaaaaaaaaaaaaaaaaaaaaaaaaaaaaaaaaaaaaaaaaaaaaaaaaaaaaaaaaaaaaaaaaaaaaaaaaaaaaaaaaaaaaaaaaaaaaaaaaaaaaaaaaaaaaaaaaaaaaaaaaaaaaaaaaaaaaaaaaaaaaaaaaaaaaaaaaaaaaaaaaaaaaaaaaaaaaaaaaaaaaaaaaaaaaaaaaaaaaaaaaaaaaaaaaaaaaaaaaaaaaaaaaaaaaaaaaaaaaaaaa:",
            [(Kind::Brace, 1), (Kind::Semicolon, 1), (Kind::Label, 256)].as_slice(),
        ),
        (
            b"&aaaaaaaaaaaaaaaaaaaaaaaaaaaaaaaaaaaaaaaaaaaaaaaaaaaaaaaaaaaaaaaaaaaaaaaaaaaaaaaaaaaaaaaaaaaaaaaaaaaaaaaaaaaaaaaaaaaaaaaaaaaaaaaaaaaaaaaaaaaaaaaaaaaaaaaaaaaaaaaaaaaaaaaaaaaaaaaaaaaaaaaaaaaaaaaaaaaaaaaaaaaaaaaaaaaaaaaaaaaaaaaaaaaaaaaaaaaaaaaaaaaaaaaaaaaaaaaa:",
            [(Kind::Reference, 256), (Kind::Label, 2)].as_slice(),
        ),
        (
            b"&{/aaaaaaaaaaaaaaaaaaaaaaaaaaaaaaaaaaaaaaaaaaaaaaaaaaaaaaaaaaaaaaaaaaaaaaaaaaaaaaaaaaaaaaaaaaaaaaaaaaaaaaaaaaaaaaaaaaaaaaaaaaaaaaaaaaaaaaaaaaaaaaaaaaaaaaaaaaaaaaaaaaaaaaaaaaaaaaaaaaaaaaaaaaaaaaaaaaaaaaaaaaaaaaaaaaaaaaaaaaaaaaaaaaaaaaaaaaaaaaaaaaaaaaaaaaaaaaa}",
            [(Kind::PathReference, 259)].as_slice(),
        ),
    ];
    for (text, kinds) in rows {
        assert!(rt; are(rt.alloc(), text, kinds));
    }
}

// Texts of values with the kinds and lengths of their lexemes.
const VALUES: &[(&[u8], &[(Kind, u32)])] = &[
    // operators inside parentheses alone
    (
        b"<<0x1fULL>>",
        &[
            (Kind::Less, 1),
            (Kind::Less, 1),
            (Kind::Literal, 7),
            (Kind::Greater, 1),
            (Kind::Greater, 1),
        ],
    ),
    (
        b"(<<<=<>>>=>",
        &[
            (Kind::Paren, 1),
            (Kind::ShiftLeft, 2),
            (Kind::LessEqual, 2),
            (Kind::Less, 1),
            (Kind::ShiftRight, 2),
            (Kind::GreaterEqual, 2),
            (Kind::Greater, 1),
        ],
    ),
    (
        b"(&&&|||^===!!=)=",
        &[
            (Kind::Paren, 1),
            (Kind::AndAnd, 2),
            (Kind::And, 1),
            (Kind::OrOr, 2),
            (Kind::Or, 1),
            (Kind::Xor, 1),
            (Kind::EqualEqual, 2),
            (Kind::Equals, 1),
            (Kind::Bang, 1),
            (Kind::NotEqual, 2),
            (Kind::EndParen, 1),
            (Kind::Equals, 1),
        ],
    ),
    (
        b"(?:+-*/%~ 1",
        &[
            (Kind::Paren, 1),
            (Kind::Question, 1),
            (Kind::Colon, 1),
            (Kind::Plus, 1),
            (Kind::Minus, 1),
            (Kind::Star, 1),
            (Kind::Slash, 1),
            (Kind::Percent, 1),
            (Kind::Tilde, 1),
            (Kind::Literal, 1),
        ],
    ),
    (
        b"\"a\\\"\\\\\", &a1{",
        &[
            (Kind::Text, 7),
            (Kind::Comma, 1),
            (Kind::Reference, 3),
            (Kind::Brace, 1),
        ],
    ),
    (
        b"&{/}&{/a/b@1,2}",
        &[(Kind::PathReference, 4), (Kind::PathReference, 11)],
    ),
    (
        b"0X1a 0 09 1L 2LL 3U",
        &[
            (Kind::Literal, 4),
            (Kind::Literal, 1),
            (Kind::Literal, 2),
            (Kind::Literal, 2),
            (Kind::Literal, 3),
            (Kind::Literal, 2),
        ],
    ),
    // what stands between
    (
        b"1/* \n*// /2//3\n# 4\n# 5",
        &[
            (Kind::Literal, 1),
            (Kind::Slash, 1),
            (Kind::Slash, 1),
            (Kind::Literal, 1),
        ],
    ),
    (b" \t\r\n\x0b\x0c", &[]),
];

#[test]
fn values(rt: HostRuntime) {
    for (text, kinds) in VALUES {
        assert!(rt; are(rt.alloc(), *text, *kinds));
    }
}

// That a text breaks off at a place, which is in a line.
fn breaks_off(rt: &impl Abort, alloc: Global, text: &[u8], place: u32, line: usize) {
    assert!(rt; text.len() <= 1000);
    let refusal = Refusal {
        kind: RefusalKind::Syntax,
        place,
    };
    assert_eq!(rt;
        scan(alloc, text, Language::Profile).err(),
        Some(ReadError::Refused(refusal))
    );
    assert_eq!(rt; line_of(text, place), line);
}

#[test]
fn no_lexeme(rt: HostRuntime) {
    const ROWS: &[(&[u8], u32, usize)] = &[
        (b";\n a", 3, 2),
        (b"\n\"a\n", 1, 2),
        (b"\n\n/* *\n", 2, 3),
        (b"\"\\\"", 0, 1),
        (b"&1", 0, 1),
        (b"1 & 2", 2, 1),
        (b"&{/a/}", 0, 1),
        (b"&{/a b}", 0, 1),
        (b"[g]", 1, 1),
        (b"[abc]", 3, 1),
        (b"# a", 0, 1),
        (
            b"&{/aaaaaaaaaaaaaaaaaaaaaaaaaaaaaaaaaaaaaaaaaaaaaaaaaaaaaaaaaaaaaaaaaaaaaaaaaaaaaaaaaaaaaaaaaaaaaaaaaaaaaaaaaaaaaaaaaaaaaaaaaaaaaaaaaaaaaaaaaaaaaaaaaaaaaaaaaaaaaaaaaaaaaaaaaaaaaaaaaaaaaaaaaaaaaaaaaaaaaaaaaaaaaaaaaaaaaaaaaaaaaaaaaaaaaaaaaaaaaaaaaaaaaaaaaaaaaaaa}",
            0,
            1,
        ),
        (
            b"aaaaaaaaaaaaaaaaaaaaaaaaaaaaaaaaaaaaaaaaaaaaaaaaaaaaaaaaaaaaaaaaaaaaaaaaaaaaaaaaaaaaaaaaaaaaaaaaaaaaaaaaaaaaaaaaaaaaaaaaaaaaaaaaaaaaaaaaaaaaaaaaaaaaaaaaaaaaaaaaaaaaaaaaaaaaaaaaaaaaaaaaaaaaaaaaaaaaaaaaaaaaaaaaaaaaaaaaaaaaaaaaaaaaaaaaaaaaaaaaaaaaaaaaaaaaaaaa:",
            0,
            1,
        ),
        (b"0x", 1, 1),
        (b"1ul", 1, 1),
        (b"\x00", 0, 1),
    ];
    for (text, place, line) in ROWS {
        breaks_off(&rt, rt.alloc(), *text, *place, *line);
    }
}
