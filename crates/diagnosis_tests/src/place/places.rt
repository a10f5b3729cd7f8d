//! Where a byte came from, and what a lexeme names.

use dt_text::lexeme::{Language, Lexeme, scan};
use dt_text::place::{lexeme_at, locate, named, position_of};
use std::process::Abort;

/// A text before a byte, and the file, line and column of that.
struct Row {
    before: &'static str,
    file: Option<&'static str>,
    line: usize,
    column: usize,
}

const ROWS: &[Row] = &[
    Row {
        before: "",
        file: None,
        line: 1,
        column: 1,
    },
    Row {
        before: "/dts-v1/;\n/ {",
        file: None,
        line: 2,
        column: 4,
    },
    Row {
        before: "# 3 \"a.dts\" 2\nx",
        file: Some("a.dts"),
        line: 3,
        column: 2,
    },
    Row {
        before: "# 3 \"a.dts\"\n\n# 9\n",
        file: Some("a.dts"),
        line: 9,
        column: 1,
    },
    Row {
        before: "# 12345678901 \"b\"\n # 5\n",
        file: Some("b"),
        line: 123456790,
        column: 1,
    },
];

fn came_from(rt: &impl Abort, row: &Row) {
    let text = row.before.as_bytes();
    let position = position_of(text, text.len());
    match (position.file, row.file) {
        (Some(file), Some(wanted)) => assert_eq!(rt; file, wanted.as_bytes()),
        (None, None) => {}
        _ => panic!(rt; "another file"),
    }
    assert_eq!(rt; position.line, row.line);
    assert_eq!(rt; position.column, row.column);
}

#[test]
fn positions(rt: HostRuntime) {
    for row in ROWS {
        came_from(&rt, row);
    }
}

const TEXT: &[u8] = b"# 7 \"a.dtsi\"\n/dts-v1/;\n/ { a: b { c = <&a &{/b}>; }; };";

/// A lexeme's index, and what it names.
const NAMES: &[(usize, &str)] = &[
    (0, "/dts-v1/"),
    (4, "a"),
    (5, "b"),
    (7, "c"),
    (10, "a"),
    (11, "/b"),
];

fn is_named(rt: &impl Abort, lexemes: &[Lexeme], row: &(usize, &str)) {
    let (index, name) = row;
    let here = locate(TEXT, lexemes, *index).expect(rt, "a lexeme");
    assert_eq!(rt; here.name, name.as_bytes());
    assert_eq!(rt; named(TEXT, here.lexeme), name.as_bytes());
    assert_eq!(rt;
        lexeme_at(lexemes, here.lexeme.start as usize),
        Some(*index)
    );
    assert_eq!(rt; here.position.file, Some(b"a.dtsi".as_slice()));
}

#[test]
fn lexemes_are_located(rt: HostRuntime) {
    let Ok(lexemes) = scan(rt.alloc(), TEXT, Language::Profile) else {
        panic!(rt; "lexemes");
    };
    for row in NAMES {
        is_named(&rt, lexemes.as_slice(), row);
    }
    assert!(rt; locate(TEXT, lexemes.as_slice(), lexemes.len()).is_none());
}
