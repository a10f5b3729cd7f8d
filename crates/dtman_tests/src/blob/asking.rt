//! Single nodes and values, read and written.

use super::boards::{CHANGED, CLOCKED};
use dt_blob::query::QueryError;
use dtman_blobs::{
    AskError, Sameness, Titles, ValueType, diff_bytes, list_text, node_text, set_bytes, value_line,
};
use std::hash::RandomState;
use std::process::Abort;

fn kind_of(word: &str) -> ValueType {
    ValueType::of(word).unwrap_or(ValueType::unsaid())
}

/// A value of the first board, by a type.
#[derive(Clone, Copy)]
struct Row {
    kind: &'static str,
    path: &'static str,
    name: &'static str,
    line: &'static [u8],
}

const ROWS: &[Row] = &[
    Row {
        kind: "",
        path: "/u@1",
        name: "clocks",
        line: b"1 2\n",
    },
    Row {
        kind: "x",
        path: "/u@1",
        name: "clocks",
        line: b"1 2\n",
    },
    Row {
        kind: "bx",
        path: "/u@1",
        name: "clocks",
        line: b"0 0 0 1 0 0 0 2\n",
    },
    Row {
        kind: "",
        path: "/u@1",
        name: "status",
        line: b"okay\n",
    },
    Row {
        kind: "x",
        path: "/u@1",
        name: "status",
        line: b"6f 6b 61 79 0\n",
    },
    Row {
        kind: "",
        path: "/clk",
        name: "phandle",
        line: b"1\n",
    },
];

fn ask(rt: &(impl Abort + AllocGlobal), row: &Row) {
    let line = value_line(rt.alloc(), CLOCKED, row.path, row.name, kind_of(row.kind));
    let line = line.expect(rt, "a line");
    assert_eq!(rt; line.as_slice(), row.line);
}

#[test]
fn values_are_shown_by_types(rt: HostRuntime) {
    for row in ROWS {
        ask(&rt, row);
    }
}

#[test]
fn what_is_not_there_is_told(rt: HostRuntime) {
    let unsaid = ValueType::unsaid();
    let no_node = value_line(rt.alloc(), CLOCKED, "/u", "status", unsaid);
    assert!(rt; matches!(no_node, Err(AskError::Query(QueryError::NoNode))));
    let no_property = value_line(rt.alloc(), CLOCKED, "/clk", "status", unsaid);
    assert!(rt; matches!(no_property, Err(AskError::Query(QueryError::NoProperty))));
    let no_texts = value_line(rt.alloc(), CLOCKED, "/u@1", "clocks", kind_of("s"));
    assert!(rt; matches!(no_texts, Err(AskError::Show(_))));
}

#[test]
fn nodes_are_shown_and_listed(rt: HostRuntime) {
    let hasher = RandomState::new(&rt).expect(&rt, "a seed");
    let text = node_text(rt.alloc(), hasher, CLOCKED, "/u@1").expect(&rt, "a text");
    assert_eq!(rt;
        text.as_slice(),
        b"clocks = <&{/clk} 0x00000002>;\nstatus = \"okay\";\n".as_slice()
    );
    let names = list_text(rt.alloc(), CHANGED, "/u@1").expect(&rt, "a text");
    assert_eq!(rt; names.as_slice(), b"clocks\nnew\n".as_slice());
    let names = list_text(rt.alloc(), CHANGED, "/").expect(&rt, "a text");
    assert_eq!(rt; names.as_slice(), b"clk/\nu@1/\n".as_slice());
}

#[test]
fn a_property_is_set_where_it_stands(rt: HostRuntime) {
    let hasher = RandomState::new(&rt).expect(&rt, "a seed");
    let unsaid = ValueType::unsaid();
    let words = ["0x1", "3"];
    let changed = set_bytes(
        rt.alloc(),
        hasher,
        CLOCKED,
        "/u@1",
        "clocks",
        unsaid,
        &words,
    );
    let changed = changed.expect(&rt, "a blob");
    let text = node_text(rt.alloc(), hasher, changed.as_slice(), "/u@1").expect(&rt, "a text");
    assert_eq!(rt;
        text.as_slice(),
        b"clocks = <&{/clk} 0x00000003>;\nstatus = \"okay\";\n".as_slice()
    );
    let titles = Titles {
        first: "a",
        second: "b",
    };
    let differing = diff_bytes(
        rt.alloc(),
        hasher,
        titles,
        Sameness::Board,
        CLOCKED,
        changed.as_slice(),
    );
    let differing = differing.expect(&rt, "a text");
    let wanted =
        b"--- a\n+++ b\n@@ /u@1 @@\n-\tclocks = <&{/clk} 0x00000002>;\n+\tclocks = <&{/clk} 0x00000003>;\n";
    assert_eq!(rt; differing.as_slice(), wanted.as_slice());
    let bad = set_bytes(
        rt.alloc(),
        hasher,
        CLOCKED,
        "/u@1",
        "b",
        kind_of("bx"),
        &["1ff"],
    );
    assert!(rt; matches!(bad, Err(AskError::NoNumber(_))));
    let unnamed = set_bytes(rt.alloc(), hasher, CLOCKED, "/u@1", "a b", unsaid, &["1"]);
    assert!(rt; matches!(unnamed, Err(AskError::NoName)));
}
