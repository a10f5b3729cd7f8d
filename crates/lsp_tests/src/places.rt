//! Lines and columns (Language Server Protocol 3.17, "Position": `a𐐀b`, whose `b` stands at column 3).

use dt_outline::{Lines, Place};
use std::alloc::Global;
use std::process::Abort;
use std::test::Fail;

/// A text, a place of it, and the byte there.
struct Row {
    text: &'static str,
    line: usize,
    column: usize,
    byte: usize,
}

const ROWS: &[Row] = &[
    Row {
        text: "a𐐀b",
        line: 0,
        column: 0,
        byte: 0,
    },
    Row {
        text: "a𐐀b",
        line: 0,
        column: 1,
        byte: 1,
    },
    Row {
        text: "a𐐀b",
        line: 0,
        column: 3,
        byte: 5,
    },
    Row {
        text: "a𐐀b",
        line: 0,
        column: 4,
        byte: 6,
    },
    Row {
        text: "ä\nöb\r\nc\rd",
        line: 1,
        column: 1,
        byte: 5,
    },
    Row {
        text: "ä\nöb\r\nc\rd",
        line: 2,
        column: 1,
        byte: 9,
    },
    Row {
        text: "ä\nöb\r\nc\rd",
        line: 3,
        column: 0,
        byte: 10,
    },
    Row {
        text: "",
        line: 0,
        column: 0,
        byte: 0,
    },
];

fn agree(rt: &impl Abort, alloc: Global, row: &Row) {
    let text = row.text.as_bytes();
    let lines = Lines::new(alloc, text).expect(rt, "memory");
    let place = Place {
        line: row.line,
        column: row.column,
    };
    assert_eq!(rt; lines.offset(text, place), row.byte);
    assert_eq!(rt; lines.place(text, row.byte), place);
}

#[test]
fn both_ways(rt: HostRuntime) {
    for row in ROWS {
        agree(&rt, rt.alloc(), row);
    }
}

/// Columns behind a line's end are its end, lines behind the last are the text's end.
#[test]
fn beyond(rt: HostRuntime) -> Result<(), Fail> {
    let text = b"ab\r\nc";
    let lines = Lines::new(rt.alloc(), text)?;
    assert_eq!(rt; lines.offset(text, Place { line: 0, column: 9 }), 2);
    assert_eq!(rt; lines.offset(text, Place { line: 1, column: 9 }), 5);
    assert_eq!(rt; lines.offset(text, Place { line: 7, column: 0 }), 5);
    Ok(())
}
